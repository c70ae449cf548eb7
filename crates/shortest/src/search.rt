// The shortest-distance search.
ghost use Rattle.network.specs.Walks.{Below};
ghost use Rattle.shortest.specs.Progress.{led};
ghost use Rattle.shortest.specs.Searches.{OfferedBelow, Relaxed, Searched};
ghost use Rattle.shortest.specs.States.{state};
ghost use Rattle.std.specs.Prelude.{◌≡◌, ◌<◌, true, false};

use crate::queue::Queue;
use crate::waiting::Label;
use network::Network;
use network::link::Link;
use network::links::Links;
use weight::Weight;

// Whether the distance is below the limit; every distance is below no limit.
fn is_below<W: Weight>(distance: W, cut: Option<W>) -> bool
    ensures yes { result ≡ true → Below W.Weight.algebra distance cut }
    ensures not { result ≡ false → Below W.Weight.algebra distance cut → ⊥ }
{
    cut.is_none_or(|limit| distance.below(limit))
}

// Offers a label to the queue where its distance is below the limit. That its site is one of the queue's is asked for, since
// the label's type does not know the queue.
fn offer_below<'a, W: Weight>(queue: &mut Queue<'a, W>, label: Label<W>, cut: Option<W>)
    requires there { label.site < queue.old.sites }
    ensures lender { queue.new.places.ghost_name ≡ queue.old.places.ghost_name }
    ensures offered { OfferedBelow W.Weight.algebra cut (state queue.old) label (state queue.new) }
{
    if is_below(label.distance, cut) {
        queue.offer(label);
    }
}

// Looks at one link at the site of a settled label: the label that it leads to is offered.
fn relax_link<'a, W: Weight>(
    queue: &mut Queue<'a, W>,
    from: Label<W>,
    link: Link<W>,
    cut: Option<W>,
)
    requires there { link.far < queue.old.sites }
    ensures lender { queue.new.places.ghost_name ≡ queue.old.places.ghost_name }
    ensures offered { OfferedBelow W.Weight.algebra cut (state queue.old) (led W.Weight.algebra from link) (state queue.new) }
{
    let distance = from.distance.add(link.weight);
    offer_below(
        queue,
        Label {
            site: link.far,
            distance,
            before: from.site,
            mark: link.mark,
        },
        cut,
    );
}

// Looks at every link at the site of a settled label.
fn relax<'a, N: Network>(
    network: &N,
    queue: &mut Queue<'a, N::W>,
    from: Label<N::W>,
    cut: Option<N::W>,
)
    requires sites { queue.old.sites ≡ (N.Network.graph (N.Network.means network.now)).sites }
    ensures lender { queue.new.places.ghost_name ≡ queue.old.places.ghost_name }
    ensures relaxed { Relaxed N.W.Weight.algebra (N.Network.graph (N.Network.means network.now)) cut (state queue.old) from (state queue.new) }
{
    for link in Links::at(network, from.site) {
        relax_link(queue, from, link, cut);
    }
}

// Settles every site that a walk from the source reaches with a total below the limit, nearest first.
pub(crate) fn search<'a, N: Network>(
    network: &N,
    queue: &mut Queue<'a, N::W>,
    source: u32,
    cut: Option<N::W>,
)
    requires empty { (queue.old.count ≡ 0) × (queue.old.settled ≡ 0) }
    requires sites { queue.old.sites ≡ (N.Network.graph (N.Network.means network.now)).sites }
    requires there { source < queue.old.sites }
    ensures lender { queue.new.places.ghost_name ≡ queue.old.places.ghost_name }
    ensures searched { Searched N.W.Weight.algebra (N.Network.graph (N.Network.means network.now)) source cut (state queue.old) (state queue.new) }
{
    let start = Label {
        site: source,
        distance: N::W::zero(),
        before: source,
        mark: 0,
    };
    offer_below(queue, start, cut);
    while let Some(label) = queue.settle() {
        relax(network, queue, label, cut);
    }
}
