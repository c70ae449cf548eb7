// How a label finds its place in the heap.
ghost use Rattle.shortest.specs.Places.{Inside, Moves};
ghost use Rattle.shortest.specs.Order.{Ordered, OrderedBut, OrderedUnder, LeastChild};
ghost use Rattle.std.specs.Prelude.{ℕ, ◌+◌, ◌/◌, ◌<◌, ◌≤◌, length};

use crate::steps::{comes_before, swap_labels};
use crate::waiting::Waiting;
use weight::Weight;

// Moves the label at `at` up until the one over it is not after it.
pub(crate) fn sift_up<W: Weight>(places: &mut [Waiting<W>], at: u32)
    requires there { at < length places.old }
    requires inside { Inside places.old (at + 1) }
    ensures ordered { (n : ℕ) → at < n → OrderedBut W.Weight.algebra places.old n at → Ordered W.Weight.algebra places.new n }
    ensures moves { Moves (at + 1) places.old places.new }
{
    let mut i = at;
    while i > 0 {
        let over = (i - 1) / 2;
        if !comes_before(places, i, over) {
            return;
        }
        swap_labels(places, i, over);
        i = over;
    }
}

// The place under `i` that no other one under it comes before.
fn least_child<W: Weight>(places: &[Waiting<W>], i: u32, count: u32) -> u32
    requires { (i < count / 2) × (count ≤ length places.now) }
    ensures { LeastChild W.Weight.algebra places.now count i result }
{
    let left = 2 * i + 1;
    let right = left + 1;
    if right < count && comes_before(places, right, left) {
        return right;
    }
    left
}

// Moves the label at the front down until none under it comes before it.
pub(crate) fn sift_down<W: Weight>(places: &mut [Waiting<W>], count: u32)
    requires there { count ≤ length places.old }
    requires inside { Inside places.old count }
    requires near { OrderedUnder W.Weight.algebra places.old count 0 }
    ensures ordered { Ordered W.Weight.algebra places.new count }
    ensures moves { Moves count places.old places.new }
{
    let mut i = 0;
    while i < count / 2 {
        let child = least_child(places, i, count);
        if !comes_before(places, child, i) {
            return;
        }
        swap_labels(places, i, child);
        i = child;
    }
}
