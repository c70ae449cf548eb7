// The meeting total of two balls.
ghost use Rattle.query.specs.Meeting.{least_of, MetOver, Met};
ghost use Rattle.network.specs.Graph.{At};
ghost use Rattle.std.specs.Prelude.{◌≡◌, ◌≤◌, length};

use crate::lookup::BallTable;
use filling::places::Entry;
use filling::tables::MOST_SITES;
use network::Network;
use network::link::Link;
use weight::Weight;

// The lesser of the best total so far and another one.
fn lesser_of<W: Weight>(best: Option<W>, total: W) -> Option<W>
    ensures { result ≡ least_of W.Weight.algebra best total }
{
    match best {
        Some(best) if !total.below(best) => Some(best),
        _ => Some(total),
    }
}

// The best total after one link was looked at, from a site at this distance.
fn meet_link<W: Weight>(
    best: Option<W>,
    distance: W,
    link: Link<W>,
    there: &BallTable<W>,
) -> Option<W>
    ensures { MetOver W.Weight.algebra there.now.ball.now distance (λ l. l ≡ link) best result }
{
    match there.distance(link.far) {
        Some(rest) => lesser_of(best, distance.add(link.weight).add(rest)),
        None => best,
    }
}

// The best total after all links at the site of an entry were looked at.
fn meet_site<N: Network>(
    network: &N,
    from: Entry<N::W>,
    there: &BallTable<N::W>,
    mut best: Option<N::W>,
) -> Option<N::W>
    ensures { MetOver N.W.Weight.algebra there.now.ball.now from.distance (At (N.Network.graph (N.Network.means network.now)) from.site) best result }
{
    // Tried as a fold over `Links`: a figure took 10.0 µs and not 8.6 (4,096 sites, 16,384 links, 64 hubs).
    let mut link = network.first_link(from.site);
    while let Some(l) = link {
        best = meet_link(best, from.distance, l, there);
        link = network.next_link(from.site, l.mark);
    }
    best
}

// The best total after the links at all sites of a ball were looked at.
fn meet_sites<N: Network>(
    network: &N,
    ball: &[Entry<N::W>],
    there: &BallTable<N::W>,
) -> Option<N::W>
    ensures { Met N.W.Weight.algebra (N.Network.graph (N.Network.means network.now)) ball.now there.now.ball.now result }
{
    let mut best = None;
    for entry in ball {
        best = meet_site(network, *entry, there, best);
    }
    best
}

// The least total over an entry of the one ball, a link at its site, and the entry of its far site in the other ball.
pub(crate) fn meet<N: Network>(
    network: &N,
    ball: &[Entry<N::W>],
    other: &[Entry<N::W>],
) -> Option<N::W>
    requires { length other.now ≤ 4096 }
    ensures { Met N.W.Weight.algebra (N.Network.graph (N.Network.means network.now)) ball.now other.now result }
{
    let mut places = [0; MOST_SITES as usize];
    let there = BallTable::new(other, &mut places);
    meet_sites(network, ball, &there)
}
