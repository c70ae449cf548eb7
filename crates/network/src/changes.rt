// The changes that each sort of network takes.

// A change of a register.
#[derive(Clone, Copy, Debug, PartialEq, Eq)]
pub enum RegisterChange {
    // A new link between two sites, with a weight number.
    Link(u32, u32, u32),
    // Takes out the link with this number.
    Strike(u32),
    // Gives the link with this number another weight number.
    Reweigh(u32, u32),
}
