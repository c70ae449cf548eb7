// The repair kind.
ghost use Rattle.weight.specs.Numbers.{repair};

use crate::Weight;

// A repair time in hours, up to 2^64 - 1.
#[derive(Clone, Copy, Debug, PartialEq, Eq, PartialOrd, Ord)]
pub struct Repair {
    pub hours: u64,
}

// Of two repair times the larger counts.
impl Weight for Repair {
    ghost algebra = { repair };

    fn zero() -> Repair {
        Repair { hours: 0 }
    }

    fn add(self, other: Repair) -> Repair {
        self.max(other)
    }

    fn below(self, other: Repair) -> bool {
        self < other
    }

    fn of_number(number: u32) -> Repair {
        Repair {
            hours: u64::from(number),
        }
    }
}
