// The search as its user calls it, over memory that the user lends: one place for each site.
ghost use Rattle.shortest.specs.Searches.{SearchDone, label_in_order, order_of};
ghost use Rattle.std.specs.Prelude.{◌≡◌};

use crate::queue::Queue;
use crate::search::search;
use crate::waiting::{Label, Waiting};
use network::Network;
use weight::Weight;

// Finds the distances from the source that are below the limit, all of them without one, and answers how many.
// None where the source does not exist, or where there is not a place for each site.
pub fn search_from<N: Network>(
    network: &N,
    waiting: &mut [Waiting<N::W>],
    source: u32,
    cut: Option<N::W>,
) -> Option<u32>
    ensures { SearchDone N.W.Weight.algebra (N.Network.graph (N.Network.means network.now)) source cut waiting.old result waiting.new }
{
    let sites = network.sites();
    if source >= sites || waiting.len() < sites as usize {
        return None;
    }
    let mut queue = Queue {
        places: waiting,
        sites,
        count: 0,
        settled: 0,
    };
    search(network, &mut queue, source, cut);
    Some(queue.settled)
}

// The label that the latest search settled after so many others.
pub fn settled_label<W: Copy>(waiting: &[Waiting<W>], sites: u32, order: u32) -> Option<Label<W>>
    ensures { result ≡ label_in_order waiting.now sites order }
{
    if order >= sites {
        return None;
    }
    waiting.get((sites - 1 - order) as usize)?.label
}

// After how many others the latest search settled the site.
pub fn settled_order<W: Copy>(waiting: &[Waiting<W>], sites: u32, site: u32) -> Option<u32>
    ensures { result ≡ order_of waiting.now sites site }
{
    let place = waiting.get(site as usize)?.at?;
    (place < sites).then(|| sites - 1 - place)
}
