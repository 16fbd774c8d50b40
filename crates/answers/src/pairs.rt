// An answer as two numbers, for callers that take no enum: "the numbers a caller may get", and the value beside it.

ghost use Rattle.std.specs.Prelude.{◌≡◌};
ghost use Rattle.machine.specs.Results.{refused as barred};
ghost use Rattle.answers.specs.Answers.{change_of};
ghost use Rattle.answers.specs.Pairs.{said_of, refusal_of, itself};

use crate::Refusal;

// The number of an answer, 0 when accepted, and its value; a refusal's value is its table number, else 0.
#[derive(Clone, Copy)]
pub struct Said {
    pub number: u64,
    pub value: u64,
}

// A refusal: its number, and its table number or 0.
impl From<Refusal> for Said {
    ghost from_gives = { λ why s. s ≡ refusal_of why };

    fn from(why: Refusal) -> Said {
        match why {
            Refusal::WrongLength => pair(1, 0),
            Refusal::LengthsDiffer => pair(2, 0),
            Refusal::Unsound(table) => pair(3, table),
            Refusal::Full => pair(4, 0),
            Refusal::Absent => pair(5, 0),
            Refusal::PastEnd => pair(6, 0),
            Refusal::NoRoom => pair(7, 0),
            Refusal::Early(table) => pair(8, table),
            Refusal::Descending => pair(10, 0),
            Refusal::BadTail => pair(11, 0),
            Refusal::Miscounted => pair(12, 0),
            Refusal::Spent => pair(13, 0),
            Refusal::Changed => pair(14, 0),
        }
    }
}

// A number with a value.
fn pair(number: u64, value: usize) -> Said
    ensures { result ≡ said_of itself (barred number value) }
{
    Said {
        number,
        value: value as u64,
    }
}

// What an insert or a delete gives: its answer, or its refusal.
impl From<Result<usize, Refusal>> for Said {
    ghost from_gives = { λ given s. s ≡ said_of itself (change_of given) };

    fn from(given: Result<usize, Refusal>) -> Said {
        match given {
            Ok(answer) => Said {
                number: 0,
                value: answer as u64,
            },
            Err(why) => Said::from(why),
        }
    }
}
