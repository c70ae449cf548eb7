// The rule of a figure, as far as it is about totals.
ghost use Rattle.oracle.specs.Rule.{lesser, no_wider};
ghost use Rattle.std.specs.Prelude.{◌≡◌};

use weight::Weight;

// Whether the one radius is at most the other; an unbounded one is above every other. By hand, since a kind has only `below`.
pub fn no_wider<W: Weight>(one: Option<W>, other: Option<W>) -> bool
    ensures { result ≡ no_wider W.Weight.algebra one other }
{
    match (one, other) {
        (_, None) => true,
        (None, Some(_)) => false,
        (Some(one), Some(other)) => !other.below(one),
    }
}

// The lesser of a meeting total and a hub total, with its manner: 1 for a meeting, which wins ties, 2 for a hub. A rule of
// the project has manners as numbers, beside the value.
// A total that does not exist is left out.
pub fn lesser<W: Weight>(meeting: Option<W>, hub: Option<W>) -> Option<(W, u32)>
    ensures { result ≡ lesser W.Weight.algebra meeting hub }
{
    match (meeting, hub) {
        (Some(meeting), Some(hub)) if hub.below(meeting) => Some((hub, 2)),
        (Some(meeting), _) => Some((meeting, 1)),
        (None, Some(hub)) => Some((hub, 2)),
        (None, None) => None,
    }
}
