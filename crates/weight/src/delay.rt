// The delay kind.
ghost use Rattle.std.specs.Prelude.{◌^◌, ◌<◌};

use crate::Weight;

// A delay in microseconds, up to 2^64 - 1.
#[derive(Clone, Copy, Debug, PartialEq, Eq, PartialOrd, Ord)]
pub struct Delay {
    pub micros: u64,
    // Known to the logic too: adding zero changes no value only below the limit.
    ghost fits: { micros < 2 ^ 64 },
}

// The delay of so many microseconds.
impl From<u64> for Delay {
    ghost use Rattle.std.specs.Prelude.{◌≡◌, ℕ, ◌-◌, ◌^◌, min};
    ghost use Rattle.weight.specs.Numbers.{micros_of};

    ghost from_gives = { λ micros result. (n : ℕ) → micros ≡ min n (2 ^ 64 - 1) → result ≡ micros_of n };

    fn from(micros: u64) -> Delay {
        Delay { micros }
    }
}

// Delays add up, and a sum stops at the largest value.
impl Weight for Delay {
    ghost use Rattle.weight.specs.Numbers.{delay};

    ghost algebra = { delay };

    fn zero() -> Delay {
        Delay::from(0)
    }

    fn add(self, other: Delay) -> Delay {
        Delay::from(self.micros.saturating_add(other.micros))
    }

    fn below(self, other: Delay) -> bool {
        self < other
    }

    fn of_number(number: u32) -> Delay {
        Delay::from(u64::from(number))
    }
}
