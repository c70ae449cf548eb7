// The book of an index.
ghost use Rattle.index.specs.Keeping.{Within, Held, Counted, Ordered};
ghost use Rattle.std.specs.Prelude.{length};

mod asking;
mod blanking;
mod building;
mod hubs;
pub mod making;
mod naming;

pub use filling::places::{Entry, RowPlace, SitePlace};
use making::BookSizes;

// The oracle's tables for one network, over memory that its user lends. The sizes stand beside the slices, since the
// memory may be longer, and serves a later book of other sizes (no heap).
#[derive(Drop)]
pub struct Book<'a, W> {
    sizes: BookSizes,
    // How many hubs are named. Tried as a search for the first blank of the list: a naming took twice as long.
    hub_count: u32,
    // Whether a build stands: a flag, since the lent memory is there whether one stands or not.
    built: bool,
    site_places: &'a mut [SitePlace<W>],
    hub_list: &'a mut [Option<u32>],
    rows: &'a mut [RowPlace<W>],
    entries: &'a mut [Entry<W>],
    ghost within: { Within sizes.sites sizes.hub_places sizes.entry_places },
    ghost held: { Held sizes.sites (length site_places.now) sizes.hub_places (length hub_list.now) (length rows.now) sizes.entry_places (length entries.now) },
    ghost counted: { Counted sizes.hub_places hub_list.now hub_count },
    ghost ordered: { Ordered sizes.sites sizes.hub_places hub_list.now },
}
