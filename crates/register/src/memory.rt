// The memory of a register, which its user lends. A chain goes on by the number of a record: there is no heap for nodes.

// One link: its ends, its weight, whether it stands, and the next link number at either end. A rule of the project has one
// field struck or reweighed in place, so a struck link keeps its weight beside the flag.
#[derive(Clone, Copy, Debug, PartialEq, Eq)]
pub struct LinkRecord<W> {
    pub one: u32,
    pub other: u32,
    pub weight: W,
    pub standing: bool,
    pub next_one: Option<u32>,
    pub next_other: Option<u32>,
}

// The first and the last link number at a site.
#[derive(Clone, Copy, Debug, Default, PartialEq, Eq)]
pub struct SiteChain {
    pub first: Option<u32>,
    pub last: Option<u32>,
}
