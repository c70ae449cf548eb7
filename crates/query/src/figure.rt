// The figure of two sites, from the tables of a build.
ghost use Rattle.query.specs.Figures.{part, MetParts, AskedRight, Answered};
ghost use Rattle.std.specs.Prelude.{◌≡◌, ◌+◌, ◌<◌, ◌↔◌, IsTrue, length, MatchOption};

use crate::hubs::HubRows;
use crate::meeting::meet;
use filling::places::{Entry, RowPlace, SitePlace};
use filling::tables::{MOST_SITES, places_fit};
use network::Network;
use oracle::rule::lesser;
use weight::Weight;

// The part of the entries that is the ball of the site with this place; none where it ends beyond them.
fn ball_of<W: Copy>(entries: &[Entry<W>], place: SitePlace<W>) -> Option<&[Entry<W>]>
    ensures { MatchOption result (length entries.now < place.first + place.count) (λ ball. ball.now ≡ part entries.now place) }
{
    let first = place.first as usize;
    let end = first + place.count as usize;
    entries.get(first..end)
}

// The meeting total of two sites, from their balls.
fn meet_balls<N: Network>(
    network: &N,
    entries: &[Entry<N::W>],
    here: SitePlace<N::W>,
    there: SitePlace<N::W>,
) -> Option<N::W>
    ensures { MetParts N.W.Weight.algebra (N.Network.graph (N.Network.means network.now)) entries.now here there result }
{
    let ball = ball_of(entries, here)?;
    let other = ball_of(entries, there)?;
    if there.count > MOST_SITES {
        return None;
    }
    meet(network, ball, other)
}

// Whether the memory fits so many sites, and the two sites exist.
fn fit(sites: u32, hub_places: usize, site_places: usize, rows: usize, s: u32, t: u32) -> bool
    ensures { IsTrue result ↔ AskedRight sites hub_places site_places rows s t }
{
    places_fit(sites, hub_places, site_places, rows) && s < sites && t < sites
}

// The figure of two sites with its manner, by a rule of the project a number: 0 for a site and itself, 1 for a meeting,
// 2 for a hub. None where no walk joins them. No distance is found anew: distances come from the tables, and links are
// asked for only at sites in the ball of the first.
pub fn figure<N: Network>(
    network: &N,
    hub_list: &[Option<u32>],
    site_places: &[SitePlace<N::W>],
    rows: &[RowPlace<N::W>],
    entries: &[Entry<N::W>],
    s: u32,
    t: u32,
) -> Option<(N::W, u32)>
    ensures { Answered N.W.Weight.algebra (N.Network.graph (N.Network.means network.now)) hub_list.now site_places.now rows.now entries.now s t result }
{
    let sites = network.sites();
    if !fit(sites, hub_list.len(), site_places.len(), rows.len(), s, t) {
        return None;
    }
    if s == t {
        return Some((N::W::zero(), 0));
    }
    let here = site_places[s as usize];
    let there = site_places[t as usize];
    let hub_rows = HubRows {
        hub_list,
        rows,
        sites: sites as usize,
    };
    let meeting = meet_balls(network, entries, here, there);
    let hub = hub_rows.total(here, there, s, t);
    lesser(meeting, hub)
}
