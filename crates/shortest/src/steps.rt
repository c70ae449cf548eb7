// Single steps on the waiting places.
ghost use Rattle.shortest.specs.Places.{label_at, pointed, put_label, swapped};
ghost use Rattle.shortest.specs.Order.{earlier};
ghost use Rattle.std.specs.Prelude.{◌≡◌, ◌<◌, length, Some};

use crate::waiting::{Label, Waiting};
use weight::Weight;

// Whether the one label comes before the other: by distance, then by site. A place without a label comes last. It is
// no `Ord`, since a kind of weight has only `below`.
fn earlier<W: Weight>(one: Option<Label<W>>, other: Option<Label<W>>) -> bool
    ensures { result ≡ earlier W.Weight.algebra one other }
{
    match (one, other) {
        (None, _) => false,
        (Some(_), None) => true,
        (Some(one), Some(other)) => {
            one.distance.below(other.distance)
                || (!other.distance.below(one.distance) && one.site < other.site)
        }
    }
}

// Whether the label at the one place comes before that at the other.
pub(crate) fn comes_before<W: Weight>(places: &[Waiting<W>], i: u32, j: u32) -> bool
    requires { (i < length places.now) × (j < length places.now) }
    ensures { result ≡ earlier W.Weight.algebra (label_at places.now i) (label_at places.now j) }
{
    earlier(places[i as usize].label, places[j as usize].label)
}

// Writes the label of a place, in place.
pub(crate) fn write_label<W: Copy>(places: &mut [Waiting<W>], at: u32, label: Option<Label<W>>)
    requires { at < length places.old }
    ensures { places.new ≡ put_label places.old at label }
{
    places[at as usize].label = label;
}

// Writes where the label of its site is; nothing where there is no label.
pub(crate) fn point<W: Copy>(places: &mut [Waiting<W>], label: Option<Label<W>>, at: Option<u32>)
    requires { (x : Label W) → label ≡ Some x → x.site < length places.old }
    ensures { places.new ≡ pointed label at places.old }
{
    if let Some(label) = label {
        places[label.site as usize].at = at;
    }
}

// Lets two places trade their labels.
pub(crate) fn swap_labels<W: Copy>(places: &mut [Waiting<W>], i: u32, j: u32)
    requires within { (i < length places.old) × (j < length places.old) }
    requires one { (x : Label W) → label_at places.old i ≡ Some x → x.site < length places.old }
    requires other { (x : Label W) → label_at places.old j ≡ Some x → x.site < length places.old }
    ensures { places.new ≡ swapped places.old i j }
{
    let one = places[i as usize].label;
    let other = places[j as usize].label;
    write_label(places, i, other);
    write_label(places, j, one);
    point(places, other, Some(i));
    point(places, one, Some(j));
}
