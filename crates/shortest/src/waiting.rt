// The memory of a search, which its user lends.
ghost use Rattle.shortest.specs.Places.{blank_place};
ghost use Rattle.std.specs.Prelude.{◌≡◌};

// What is known of a site: its distance from the source, the site before it on a walk of that total, and the mark between.
#[derive(Clone, Copy, Debug, PartialEq, Eq)]
pub struct Label<W> {
    pub site: u32,
    pub distance: W,
    pub before: u32,
    pub mark: u32,
}

// A waiting place. Its label belongs to this place of the queue, or of the settled ones; `at` belongs to the site
// with this place's number: it says at which place the label of that site is.
#[derive(Clone, Copy, Debug, PartialEq, Eq)]
pub struct Waiting<W> {
    pub label: Option<Label<W>>,
    pub at: Option<u32>,
}

// A place before any search: written out, since a derived one would ask for a default of the kind.
impl<W: Copy> Default for Waiting<W> {
    ghost is_default = { λ place. place ≡ blank_place };

    fn default() -> Waiting<W> {
        Waiting {
            label: None,
            at: None,
        }
    }
}
