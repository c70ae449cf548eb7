// Kinds of weight: what a link costs, how costs compare and how they add up.
#![tactic(auto)]

ghost use Rattle.weight.specs.Algebra.{Algebra};
ghost use Rattle.std.specs.Prelude.{◌≡◌};

pub mod delay;
pub mod repair;

// A kind of weight, by its values. `algebra` holds the four operations as the logic has them,
// together with the laws that they keep; code over a `Weight` rests on these laws alone.
pub trait Weight: Copy {
    ghost algebra: { Algebra Self };

    // The total of no link at all.
    fn zero() -> Self
        ensures { result ≡ algebra.zero };

    // The total of two parts.
    fn add(self, other: Self) -> Self
        ensures { result ≡ algebra.plus self other };

    // Whether this value is below the other. A bound `Ord` in its place would ask more of whoever brings a kind.
    fn below(self, other: Self) -> bool
        ensures { result ≡ algebra.less self other };

    // The value that a weight number stands for.
    fn of_number(number: u32) -> Self
        ensures { result ≡ algebra.value number };
}
