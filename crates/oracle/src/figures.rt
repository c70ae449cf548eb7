// What a figure tells of the walks that join its sites. Each function answers by the numbers alone; what its answer
// means stands in its contract, for every network, whatever its hubs are.
ghost use Rattle.oracle.specs.Laws.{together, is_below, MeetsBelowRadii, ExactBelowRadii, NoFigure, OfAWalk, OnlyJoined, OnlyUnjoined, NotBoth};
ghost use Rattle.oracle.specs.Rule.{lesser};
ghost use Rattle.std.specs.Prelude.{◌≡◌, ℕ, true, false, not, is_some, ◌≢◌};

use crate::rule::lesser;
use weight::Weight;

// Two radii together; with an unbounded one, unbounded.
fn together<W: Weight>(one: Option<W>, other: Option<W>) -> Option<W>
    ensures { result ≡ together W.Weight.algebra one other }
{
    let one = one?;
    let other = other?;
    Some(one.add(other))
}

// Whether the total is below two radii together. Two laws rest on this test; each stands on a function of its own, a rule of
// the project.
fn below_radii<W: Weight>(total: W, radius: Option<W>, other: Option<W>) -> bool
    ensures { result ≡ is_below W.Weight.algebra total (together W.Weight.algebra radius other) }
{
    together(radius, other).is_none_or(|sum| total.below(sum))
}

// Whether the total is below the two radii together. If so, every walk of this total between two different sites with these
// radii has a meeting total that is at most its own.
pub fn walk_meets_below_radii<W: Weight>(total: W, radius: Option<W>, other: Option<W>) -> bool
    ensures value { result ≡ is_below W.Weight.algebra total (together W.Weight.algebra radius other) }
    ensures meets { result ≡ true → MeetsBelowRadii W.Weight.algebra total radius other }
{
    below_radii(total, radius, other)
}

// Whether the total is below the two radii together. If so, and if a walk of this total joins two sites with these radii, no
// walk that joins them totals less than their figure.
pub fn figure_exact_below_radii<W: Weight>(total: W, radius: Option<W>, other: Option<W>) -> bool
    ensures value { result ≡ is_below W.Weight.algebra total (together W.Weight.algebra radius other) }
    ensures exact { result ≡ true → (figure : W) → ExactBelowRadii W.Weight.algebra figure total radius other }
{
    below_radii(total, radius, other)
}

// Whether the figure is at most the total added to itself. It is, for every figure and the total of every walk that joins
// its sites; and the figure is the total of such a walk.
pub fn figure_at_most_twice_a_walk<W: Weight>(figure: W, total: W) -> bool
    ensures value { result ≡ not (W.Weight.algebra.less (W.Weight.algebra.plus total total) figure) }
    ensures twice { result ≡ false → NoFigure W.Weight.algebra figure total }
    ensures walk { (manner : ℕ) → OfAWalk W.Weight.algebra figure manner }
{
    !total.add(total).below(figure)
}

// Whether two different sites with these totals have a figure: just where a walk joins them.
pub fn figure_where_joined<W: Weight>(meeting: Option<W>, hub: Option<W>) -> bool
    ensures value { result ≡ is_some (lesser W.Weight.algebra meeting hub) }
    ensures joined { result ≡ true → OnlyJoined W.Weight.algebra meeting hub }
    ensures unjoined { result ≡ false → OnlyUnjoined W.Weight.algebra meeting hub }
{
    lesser(meeting, hub).is_some()
}

// Whether two figures with their manners (numbers, by a rule of the project) are the same: neither value is below the other
// then, which is all that a kind tells. They are the same, if both
// are of the same two sites.
pub fn figure_is_one<W: Weight>(one: (W, u32), other: (W, u32)) -> bool
    ensures same { result ≡ true → one ≡ other }
    ensures apart { result ≡ false → one ≢ other }
    ensures differ { result ≡ false → NotBoth W.Weight.algebra one other }
{
    let (value, manner) = one;
    let (other_value, other_manner) = other;
    !value.below(other_value) && !other_value.below(value) && manner == other_manner
}
