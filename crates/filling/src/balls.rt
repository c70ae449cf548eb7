// Balls: the part of the entries that each site has.
ghost use Rattle.filling.specs.Balls.{entry_of, Written, BallFilled, BallsFilled};
ghost use Rattle.std.specs.Prelude.{◌≡◌, ◌+◌, ◌<◌, ◌≤◌, length};

use crate::places::{Entry, SitePlace};
use crate::tables::Unfilled;
use network::Network;
use shortest::finding::{search_from, settled_label, settled_order};
use shortest::waiting::{Label, Waiting};
use weight::Weight;

// The entry of a label that the latest search settled, in a ball whose part begins at the place `first`.
fn entry_of<W: Copy>(label: Label<W>, first: u32, waiting: &[Waiting<W>], sites: u32) -> Entry<W>
    requires { first + sites ≤ 1000000 }
    ensures { result ≡ entry_of first waiting.now sites label }
{
    let before = settled_order(waiting, sites, label.before).unwrap_or(0);
    Entry {
        site: label.site,
        distance: label.distance,
        before: first + before,
        mark: label.mark,
    }
}

// Writes the labels that the latest search settled into the part of the entries that is a site's ball.
fn write_ball<W: Copy>(ball: &mut [Entry<W>], first: u32, waiting: &[Waiting<W>], sites: u32)
    requires { (first + sites ≤ 1000000) × (length ball.old ≤ sites) }
    ensures { Written first waiting.now sites ball.old ball.new }
{
    for (order, entry) in ball.iter_mut().enumerate() {
        if let Some(label) = settled_label(waiting, sites, order as u32) {
            *entry = entry_of(label, first, waiting, sites);
        }
    }
}

// The facts on sizes are asked for by each of these functions: a struct of network and places would have to say in each that
// it keeps its references, in their stead.

// Lays the ball of a site from the place `first` on, and answers how many entries it has; none where they do not fit.
fn fill_ball<N: Network>(
    network: &N,
    site: u32,
    radius: Option<N::W>,
    first: u32,
    entries: &mut [Entry<N::W>],
    waiting: &mut [Waiting<N::W>],
) -> Option<u32>
    requires few { ((N.Network.graph (N.Network.means network.now)).sites ≤ 4096) × (length entries.old ≤ 262144) }
    requires there { (site < (N.Network.graph (N.Network.means network.now)).sites) × (first ≤ length entries.old) }
    requires room { (N.Network.graph (N.Network.means network.now)).sites ≤ length waiting.old }
    ensures { BallFilled N.W.Weight.algebra (N.Network.graph (N.Network.means network.now)) site radius first result entries.old entries.new waiting.old waiting.new }
{
    let count = search_from(network, waiting, site, radius)?;
    let start = first as usize;
    let end = start + count as usize;
    if end > entries.len() {
        return None;
    }
    write_ball(&mut entries[start..end], first, waiting, network.sites());
    Some(count)
}

// Lays the balls of all sites, in their order, and answers how many entries there are. The first ball that does not
// fit ends it.
pub(crate) fn fill_balls<N: Network>(
    network: &N,
    site_places: &mut [SitePlace<N::W>],
    entries: &mut [Entry<N::W>],
    waiting: &mut [Waiting<N::W>],
) -> Result<u32, Unfilled>
    requires few { ((N.Network.graph (N.Network.means network.now)).sites ≤ 4096) × (length entries.old ≤ 262144) }
    requires places { length site_places.old ≡ (N.Network.graph (N.Network.means network.now)).sites }
    requires room { (N.Network.graph (N.Network.means network.now)).sites ≤ length waiting.old }
    ensures { BallsFilled N.W.Weight.algebra (N.Network.graph (N.Network.means network.now)) site_places.old result site_places.new entries.old entries.new waiting.old waiting.new }
{
    let mut first = 0;
    for (site, place) in site_places.iter_mut().enumerate() {
        let site = site as u32;
        let Some(count) = fill_ball(network, site, place.radius, first, entries, waiting) else {
            return Err(Unfilled::NoRoom(site));
        };
        *place = SitePlace {
            first,
            count,
            ..*place
        };
        first += count;
    }
    Ok(first)
}
