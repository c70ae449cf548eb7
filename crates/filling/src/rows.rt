// Hub rows, and the hub of each site.
ghost use Rattle.filling.specs.Places.{blank_site, blank_row, listed};
ghost use Rattle.filling.specs.Rows.{rowed, Within, closer, nearer, Noted, RowFilled, RowsFilled};
ghost use Rattle.shortest.specs.Queues.{settled_labels};
ghost use Rattle.std.specs.Prelude.{◌≡◌, ◌*◌, ◌≤◌, length, replicate};

use crate::places::{RowPlace, SitePlace};
use network::Network;
use shortest::finding::{search_from, settled_label};
use shortest::waiting::Waiting;
use weight::Weight;

// Writes the labels that the latest search settled into a hub's row.
fn write_row<W: Copy>(row: &mut [RowPlace<W>], waiting: &[Waiting<W>], sites: u32, found: u32)
    requires { Within waiting.now sites found (length row.old) }
    ensures { row.new ≡ rowed (settled_labels waiting.now sites found) row.old }
{
    // The labels are no slice in their order: the search tells each by its order.
    for order in 0..found {
        if let Some(label) = settled_label(waiting, sites, order) {
            row[label.site as usize] = RowPlace {
                distance: Some(label.distance),
                before: label.before,
                mark: label.mark,
            };
        }
    }
}

// Whether a hub at this distance is nearer than the nearest so far, or as near and of a lower number.
fn is_closer<W: Weight>(distance: W, hub: u32, radius: Option<W>, nearest: Option<u32>) -> bool
    ensures { result ≡ closer W.Weight.algebra distance hub radius nearest }
{
    let (Some(radius), Some(nearest)) = (radius, nearest) else {
        return true;
    };
    distance.below(radius) || (!radius.below(distance) && hub < nearest)
}

// The place of a site after it was told of one more hub, at this distance if at any.
fn told_of<W: Weight>(place: SitePlace<W>, hub: u32, distance: Option<W>) -> SitePlace<W>
    ensures { result ≡ nearer W.Weight.algebra hub distance place }
{
    match distance {
        Some(distance) if is_closer(distance, hub, place.radius, place.hub) => SitePlace {
            radius: Some(distance),
            hub: Some(hub),
            ..place
        },
        _ => place,
    }
}

// Tells each site of the hub whose row this is.
fn note_row<W: Weight>(site_places: &mut [SitePlace<W>], row: &[RowPlace<W>], hub: u32)
    requires { length row.now ≡ length site_places.old }
    ensures { Noted W.Weight.algebra hub row.now site_places.old site_places.new }
{
    for (site, place) in site_places.iter_mut().enumerate() {
        *place = told_of(*place, hub, row[site].distance);
    }
}

// Fills the row of a hub, which is blank, and tells each site of the hub. Sizes are asked for as beside the balls.
fn fill_row<N: Network>(
    network: &N,
    hub: u32,
    row: &mut [RowPlace<N::W>],
    site_places: &mut [SitePlace<N::W>],
    waiting: &mut [Waiting<N::W>],
)
    requires row { row.old ≡ replicate (N.Network.graph (N.Network.means network.now)).sites blank_row }
    requires places { length site_places.old ≡ (N.Network.graph (N.Network.means network.now)).sites }
    requires room { (N.Network.graph (N.Network.means network.now)).sites ≤ length waiting.old }
    ensures { RowFilled N.W.Weight.algebra (N.Network.graph (N.Network.means network.now)) hub row.old row.new site_places.old site_places.new waiting.old waiting.new }
{
    if let Some(found) = search_from(network, waiting, hub, None) {
        write_row(row, waiting, network.sites(), found);
    }
    note_row(site_places, row, hub);
}

// Fills the row of each hub, in the order of the hub list, and finds the hub and the radius of each site.
pub(crate) fn fill_rows<N: Network>(
    network: &N,
    hub_list: &[Option<u32>],
    site_places: &mut [SitePlace<N::W>],
    rows: &mut [RowPlace<N::W>],
    waiting: &mut [Waiting<N::W>],
)
    requires few { ((N.Network.graph (N.Network.means network.now)).sites ≤ 4096) × (length hub_list.now ≤ 64) }
    requires places { site_places.old ≡ replicate (N.Network.graph (N.Network.means network.now)).sites blank_site }
    requires rows { rows.old ≡ replicate (length hub_list.now * (N.Network.graph (N.Network.means network.now)).sites) blank_row }
    requires room { (N.Network.graph (N.Network.means network.now)).sites ≤ length waiting.old }
    ensures { RowsFilled N.W.Weight.algebra (N.Network.graph (N.Network.means network.now)) (listed hub_list.now) site_places.old site_places.new rows.old rows.new waiting.old waiting.new }
{
    // The rows lie one behind the other in one lent slice. Tried with `rows.chunks_mut(sites)` beside the hubs: it takes
    // no 0, and leaves the places unknown.
    let sites = network.sites() as usize;
    for (at, hub) in hub_list.iter().enumerate() {
        let Some(hub) = *hub else {
            return;
        };
        let first = at * sites;
        fill_row(
            network,
            hub,
            &mut rows[first..first + sites],
            site_places,
            waiting,
        );
    }
}
