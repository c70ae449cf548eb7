// The queue of a search: labels wait in it by distance, and are settled one by one.
ghost use Rattle.shortest.specs.Order.{Ordered};
ghost use Rattle.shortest.specs.Queues.{InUse, Linked, Spared, Unlabelled, NamedUsed, of_site, Farther, beats, Offering, SettledOne};
ghost use Rattle.std.proofs.Props.{props};
ghost use Rattle.std.specs.Prelude.{◌≡◌, ◌+◌, ◌<◌, ◌≤◌, length, true, false};

use crate::sifting::{sift_down, sift_up};
use crate::steps::{point, swap_labels, write_label};
use crate::waiting::{Label, Waiting};
use weight::Weight;

// A heap of its own and not the library's, which allocates and lowers no label (no heap memory). Functions on the queue
// ensure `lender`: without it, whoever lent the slice knows nothing of it afterwards.
//
// The places below `count` hold the labels that wait, as a heap. The settled labels lie from the last site's place
// downwards, in the order of settling. There is a place for each site, and a site with a label names the label's place.
#[derive(Drop)]
pub struct Queue<'a, W: Weight> {
    pub places: &'a mut [Waiting<W>],
    pub sites: u32,
    pub count: u32,
    pub settled: u32,
    ghost fits: { sites ≤ length places.now },
    ghost room: { count + settled ≤ sites },
    ghost linked: { Linked places.now sites (InUse sites count settled) } by { Prim.hlevel props },
    ghost ordered: { Ordered W.Weight.algebra places.now count },
}

// Whether the distance is below that of the label; not where there is none.
fn nearer<W: Weight>(distance: W, label: Option<Label<W>>) -> bool
    ensures { result ≡ beats W.Weight.algebra distance label }
{
    label.is_some_and(|label| distance.below(label.distance))
}

// Whether there is a label and it is of this site.
fn is_of<W: Weight>(label: Option<Label<W>>, site: u32) -> bool
    ensures { result ≡ of_site site label }
{
    label.is_some_and(|label| label.site == site)
}

impl<'a, W: Weight> Queue<'a, W> {
    ghost use Rattle.shortest.specs.States.{state};

    // Whether the place is in use: its label waits, or is settled.
    fn in_use(&self, at: u32) -> bool
        ensures yes { result ≡ true → InUse self.now.sites self.now.count self.now.settled at }
        ensures not { result ≡ false → InUse self.now.sites self.now.count self.now.settled at → ⊥ }
    {
        at < self.count || (at < self.sites && at >= self.sites - self.settled)
    }

    // The place, if one is named and it is in use.
    fn used(&self, named: Option<u32>) -> Option<u32>
        ensures { NamedUsed self.now.sites self.now.count self.now.settled named result }
    {
        let at = named?;
        self.in_use(at).then_some(at)
    }

    // Puts in the label of a site that has none.
    fn enter(&mut self, label: Label<W>)
        requires there { label.site < self.old.sites }
        requires new { Unlabelled self.old.places.now (InUse self.old.sites self.old.count self.old.settled) label.site }
        ensures lender { self.new.places.ghost_name ≡ self.old.places.ghost_name }
        ensures offered { Offering W.Weight.algebra (state self.old) label (state self.new) }
    {
        let at = self.count;
        // The places are written on their own: what the type says of them holds again once the count is set.
        let places = &mut *self.places;
        write_label(places, at, Some(label));
        point(places, Some(label), Some(at));
        sift_up(places, at);
        self.count = at + 1;
    }

    // Puts the label in the place of one of its site that waits at a larger distance.
    fn lower(&mut self, at: u32, label: Label<W>)
        requires waits { at < self.old.count }
        requires farther { Farther W.Weight.algebra self.old.places.now at label }
        ensures lender { self.new.places.ghost_name ≡ self.old.places.ghost_name }
        ensures offered { Offering W.Weight.algebra (state self.old) label (state self.new) }
    {
        let places = &mut *self.places;
        write_label(places, at, Some(label));
        sift_up(places, at);
    }

    // Puts the label in where its site has none, or in the place of one that waits at a larger distance; else nothing changes.
    // The place that a site names counts only where it is in use and has a label of that site: so places need not be
    // blank before a search.
    pub(crate) fn offer(&mut self, label: Label<W>)
        requires there { label.site < self.old.sites }
        ensures lender { self.new.places.ghost_name ≡ self.old.places.ghost_name }
        ensures offered { Offering W.Weight.algebra (state self.old) label (state self.new) }
    {
        let named = self.places[label.site as usize].at;
        let Some(at) = self.used(named) else {
            self.enter(label);
            return;
        };
        let held = self.places[at as usize].label;
        if !is_of(held, label.site) {
            self.enter(label);
            return;
        }
        if at < self.count && nearer(label.distance, held) {
            self.lower(at, label);
        }
    }

    // Settles the label that comes first of those that wait, and answers it; none where none waits.
    pub(crate) fn settle(&mut self) -> Option<Label<W>>
        ensures lender { self.new.places.ghost_name ≡ self.old.places.ghost_name }
        ensures spared { Spared (state self.old) (state self.new) }
        ensures one { SettledOne W.Weight.algebra (state self.old) result (state self.new) }
    {
        if self.count == 0 {
            return None;
        }
        let last = self.count - 1;
        let end = self.sites - 1 - self.settled;
        let places = &mut *self.places;
        let least = places[0].label;
        swap_labels(places, 0, last);
        write_label(places, end, least);
        point(places, least, Some(end));
        sift_down(places, last);
        self.count = last;
        self.settled += 1;
        least
    }
}
