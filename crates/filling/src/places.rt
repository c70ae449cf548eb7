// The places of a book, which its user lends.
ghost use Rattle.filling.specs.Places.{blank_site, blank_row, blank_entry};
ghost use Rattle.std.specs.Prelude.{◌≡◌};

use weight::Weight;

// Each place's blank value is written out: a derived one would ask for a default of the kind.

// What a standing build tells of a site: its radius and its hub, both none where no hub is in reach (each absent by itself,
// a rule of the project),
// and which part of the entries is its ball.
#[derive(Clone, Copy, Debug, PartialEq, Eq)]
pub struct SitePlace<W> {
    pub radius: Option<W>,
    pub hub: Option<u32>,
    pub first: u32,
    pub count: u32,
}

// One site in a hub's row: its distance from the hub, the site before it on a shortest walk, and the mark between; a rule
// of the project has zeros beside a distance that is none.
#[derive(Clone, Copy, Debug, PartialEq, Eq)]
pub struct RowPlace<W> {
    pub distance: Option<W>,
    pub before: u32,
    pub mark: u32,
}

// One site of a ball: its distance, the place of the entry before it on a shortest walk, and the mark between.
#[derive(Clone, Copy, Debug, PartialEq, Eq)]
pub struct Entry<W> {
    pub site: u32,
    pub distance: W,
    pub before: u32,
    pub mark: u32,
}

// A site place that no build fills.
impl<W: Weight> Default for SitePlace<W> {
    ghost is_default = { λ place. place ≡ blank_site };

    fn default() -> SitePlace<W> {
        SitePlace {
            radius: None,
            hub: None,
            first: 0,
            count: 0,
        }
    }
}

// A row place that no build fills.
impl<W: Weight> Default for RowPlace<W> {
    ghost is_default = { λ place. place ≡ blank_row };

    fn default() -> RowPlace<W> {
        RowPlace {
            distance: None,
            before: 0,
            mark: 0,
        }
    }
}

// An entry place that no build fills.
impl<W: Weight> Default for Entry<W> {
    ghost is_default = { λ entry. entry ≡ blank_entry W.Weight.algebra };

    fn default() -> Entry<W> {
        Entry {
            site: 0,
            distance: W::zero(),
            before: 0,
            mark: 0,
        }
    }
}
