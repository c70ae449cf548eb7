// The lines that a call file prints.
ghost use Rattle.callfile.specs.Lines.{text, closing};
ghost use Rattle.std.specs.Prelude.{◌≡◌, Some};

use crate::fault::ReaderFault;
use std::fmt;

// What a granted record answers: a value, and for a figure or a walk its manner, else 0; by a rule of the project a number.
#[derive(Clone, Copy, Debug, PartialEq, Eq)]
pub struct Answer {
    pub value: u64,
    pub second: u32,
}

// What a call answers that answers one number.
impl From<u32> for Answer {
    ghost use Rattle.callfile.specs.Lines.{answer_of};

    ghost from_gives = { λ number answer. answer ≡ answer_of number };

    fn from(number: u32) -> Answer {
        Answer {
            value: u64::from(number),
            second: 0,
        }
    }
}

// The line of one record: its number, and what it answers or why it is refused.
#[derive(Clone, Copy, Debug, PartialEq, Eq)]
pub struct Line {
    pub number: u64,
    pub result: Result<Answer, ReaderFault>,
}

impl fmt::Display for Line {
    ghost output = { λ l. Some (text l) };

    fn fmt<W: fmt::Write>(&self, f: &mut fmt::Formatter<W>) -> fmt::Result {
        let record = self.number;
        match self.result {
            Ok(answer) => {
                let value = answer.value;
                let second = answer.second;
                write!(f, "{record} ok {value} {second}")
            }
            Err(fault) => {
                let layer = fault.layer();
                let number = fault.number();
                let detail = fault.detail();
                write!(f, "{record} refused {layer} {number} {detail}")
            }
        }
    }
}

// The line at the end of a file, after so many whole records: none where no byte is left over.
pub fn closing_line(records: u64, left: u32) -> Option<Line>
    ensures { result ≡ closing records left }
{
    if left == 0 {
        return None;
    }
    Some(Line {
        number: records,
        result: Err(ReaderFault::Partial(left)),
    })
}
