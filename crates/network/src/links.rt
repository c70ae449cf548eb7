// The links at a site, told one by one.
ghost use Rattle.network.specs.Links.{first, left_at};
ghost use Rattle.std.specs.Coded.{Coded-set};
ghost use Rattle.std.specs.Prelude.{◌≡◌};

use crate::Network;
use crate::link::Link;

// A round of the links at a site; `next` is the first link that is still to be told.
#[derive(Drop)]
pub struct Links<'n, N: Network> {
    network: &'n N,
    site: u32,
    next: Option<Link<N::W>>,
    // Known to the logic of every round, so that `next` asks nothing of its caller.
    ghost ready: { next ≡ first (left_at ((N.Network.graph (N.Network.means network.now)).links site) next) } by { Coded-set next-code next (first (left_at ((N.Network.graph (N.Network.means network.now)).links site) next)) },
}

impl<'n, N: Network> Links<'n, N> {
    ghost use Rattle.network.specs.Rounds.{untold, Ready};
    ghost use Rattle.std.specs.Prelude.{◌≡◌};

    // A round of all links at the site, in the network's order; of none where the site does not exist.
    pub fn at(network: &'n N, site: u32) -> Links<'n, N>
        ensures all { untold (λ net u. (N.Network.graph (N.Network.means net)).links u) result ≡ (N.Network.graph (N.Network.means network.now)).links site }
        ensures ready { Ready (λ net u. (N.Network.graph (N.Network.means net)).links u) result }
    {
        Links {
            network,
            site,
            next: network.first_link(site),
        }
    }
}

impl<'n, N: Network> Iterator for Links<'n, N> {
    ghost use Rattle.network.specs.Rounds.{untold};
    ghost use Rattle.std.specs.Iterator.{YieldsFirst, item_count};

    type Item = Link<N::W>;

    ghost next_gives = { YieldsFirst (untold (λ net u. (N.Network.graph (N.Network.means net)).links u)) };

    ghost remaining = { item_count (untold (λ net u. (N.Network.graph (N.Network.means net)).links u)) };

    fn next(&mut self) -> Option<Link<N::W>> {
        let link = self.next?;
        self.next = self.network.next_link(self.site, link.mark);
        Some(link)
    }
}
