// The filling of all tables.
ghost use Rattle.filling.specs.Places.{blank_site, blank_row, blank_entry};
ghost use Rattle.filling.specs.Tables.{PlacesFit, SizesFit, memory, Filled};
ghost use Rattle.std.specs.Prelude.{◌≡◌, ◌↔◌, IsTrue, length, replicate};

use crate::balls::fill_balls;
use crate::places::{Entry, RowPlace, SitePlace};
use crate::rows::fill_rows;
use network::Network;
use network::lent::overwrite;
use shortest::waiting::Waiting;
use weight::Weight;

// The most sites, hub places and entry places that tables can have.
pub const MOST_SITES: u32 = 4096;

pub const MOST_HUBS: u32 = 64;

pub const MOST_ENTRIES: u32 = 262144;

// Why tables are not filled.
#[derive(Clone, Copy, Debug, PartialEq, Eq)]
pub enum Unfilled {
    // The entry places are too few: the first site whose ball does not fit.
    NoRoom(u32),
    // The memory does not fit the network's sites.
    Misfit,
}

// Whether places of these lengths are for so many sites: one for each, and a row of them for each hub place.
pub fn places_fit(sites: u32, hub_places: usize, site_places: usize, rows: usize) -> bool
    ensures { IsTrue result ↔ PlacesFit sites hub_places site_places rows }
{
    sites <= MOST_SITES
        && hub_places <= MOST_HUBS as usize
        && site_places == sites as usize
        && rows == hub_places * sites as usize
}

// Whether memory of these lengths fits so many sites.
fn fit(
    sites: u32,
    hub_places: usize,
    site_places: usize,
    rows: usize,
    entries: usize,
    waiting: usize,
) -> bool
    ensures { IsTrue result ↔ SizesFit sites hub_places site_places rows entries waiting }
{
    places_fit(sites, hub_places, site_places, rows)
        && entries <= MOST_ENTRIES as usize
        && sites as usize <= waiting
}

// Blanks all places.
pub fn blank_all<W: Weight>(
    site_places: &mut [SitePlace<W>],
    rows: &mut [RowPlace<W>],
    entries: &mut [Entry<W>],
)
    ensures sites { site_places.new ≡ replicate (length site_places.old) blank_site }
    ensures rows { rows.new ≡ replicate (length rows.old) blank_row }
    ensures entries { entries.new ≡ replicate (length entries.old) (blank_entry W.Weight.algebra) }
{
    overwrite(site_places, SitePlace::default());
    overwrite(rows, RowPlace::default());
    overwrite(entries, Entry::default());
}

// Each part of the tables is lent as a slice of its own, a rule of the project.
//
// Fills the tables of a network, over memory of any content: the row of each hub of the list, the radius and the hub
// of each site, and the balls, one after the other. Answers how many entries they have.
//
// Where the balls do not all fit, the tables are blank afterwards. The waiting places, one for each site, are blank
// afterwards in any case; memory that does not fit the network is left as it was.
pub fn fill<N: Network>(
    network: &N,
    hub_list: &[Option<u32>],
    site_places: &mut [SitePlace<N::W>],
    rows: &mut [RowPlace<N::W>],
    entries: &mut [Entry<N::W>],
    waiting: &mut [Waiting<N::W>],
) -> Result<u32, Unfilled>
    ensures { Filled N.W.Weight.algebra (N.Network.graph (N.Network.means network.now)) (memory hub_list.now site_places.old rows.old entries.old waiting.old) result (memory hub_list.now site_places.new rows.new entries.new waiting.new) }
{
    let sites = network.sites();
    if !fit(
        sites,
        hub_list.len(),
        site_places.len(),
        rows.len(),
        entries.len(),
        waiting.len(),
    ) {
        return Err(Unfilled::Misfit);
    }
    blank_all(site_places, rows, entries);
    fill_rows(network, hub_list, site_places, rows, waiting);
    let filled = fill_balls(network, site_places, entries, waiting);
    overwrite(&mut waiting[0..sites as usize], Waiting::default());
    if filled.is_err() {
        blank_all(site_places, rows, entries);
    }
    filled
}
