// How a book is made, over memory that its user lends.
ghost use Rattle.index.specs.Books.{state, lent, size_fault, Made, Renewed};
ghost use Rattle.network.specs.Sizes.{checked};
ghost use Rattle.std.specs.Prelude.{◌≡◌};

use super::{Book, Entry, RowPlace, SitePlace};
use crate::fault::IndexFault;
pub use filling::tables::{MOST_ENTRIES, MOST_HUBS, MOST_SITES};
use network::lent::overwrite;
use network::sizes::{check_memory, check_size};
use weight::Weight;

// The sizes of a book.
#[derive(Clone, Copy, Debug, PartialEq, Eq)]
pub struct BookSizes {
    pub sites: u32,
    pub hub_places: u32,
    pub entry_places: u32,
}

// The lengths of the memory lent to a book.
#[derive(Clone, Copy, Debug, PartialEq, Eq)]
pub struct Lengths {
    pub site_places: usize,
    pub hub_list: usize,
    pub rows: usize,
    pub entries: usize,
}

// Tests the sizes of a book and the lengths of the memory lent for it, in this order: sites, site places,
// hub places, hub list, hub rows, entry places, entries.
pub fn check_sizes(sizes: BookSizes, lengths: Lengths) -> Result<(), IndexFault>
    ensures { result ≡ checked (size_fault sizes.sites lengths.site_places sizes.hub_places lengths.hub_list lengths.rows sizes.entry_places lengths.entries) }
{
    check_size::<IndexFault>(sizes.sites, MOST_SITES)?;
    check_memory::<IndexFault>(lengths.site_places, sizes.sites)?;
    check_size::<IndexFault>(sizes.hub_places, MOST_HUBS)?;
    check_memory::<IndexFault>(lengths.hub_list, sizes.hub_places)?;
    check_memory::<IndexFault>(lengths.rows, sizes.hub_places * sizes.sites)?;
    check_size::<IndexFault>(sizes.entry_places, MOST_ENTRIES)?;
    check_memory(lengths.entries, sizes.entry_places)
}

impl<'a, W: Weight> Book<'a, W> {
    // A book of these sizes, blank, with no hub and no build; one with no sites where `check_sizes` refuses.
    pub fn new(
        sizes: BookSizes,
        site_places: &'a mut [SitePlace<W>],
        hub_list: &'a mut [Option<u32>],
        rows: &'a mut [RowPlace<W>],
        entries: &'a mut [Entry<W>],
    ) -> Book<'a, W>
        ensures { Made W.Weight.algebra sizes.sites sizes.hub_places sizes.entry_places (lent site_places.old hub_list.old rows.old entries.old) (state result) }
    {
        let mut book = Book {
            sizes: BookSizes {
                sites: 0,
                hub_places: 0,
                entry_places: 0,
            },
            hub_count: 0,
            built: false,
            site_places,
            hub_list,
            rows,
            entries,
        };
        let _ = book.renew(sizes);
        book
    }

    // Makes the book anew over its own memory: of these sizes, blank, with no hub and no build.
    // A refusal leaves it as it was.
    pub fn renew(&mut self, sizes: BookSizes) -> Result<(), IndexFault>
        ensures { Renewed W.Weight.algebra sizes.sites sizes.hub_places sizes.entry_places (state self.old) result (state self.new) }
    {
        let lengths = Lengths {
            site_places: self.site_places.len(),
            hub_list: self.hub_list.len(),
            rows: self.rows.len(),
            entries: self.entries.len(),
        };
        check_sizes(sizes, lengths)?;
        // Written apart from the book, whose facts hold again once it has these sizes.
        let hub_list = &mut *self.hub_list;
        overwrite(&mut hub_list[..sizes.hub_places as usize], None);
        self.sizes = sizes;
        self.hub_count = 0;
        self.empty();
        Ok(())
    }
}
