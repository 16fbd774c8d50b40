// An entry in its turn, and the state before, between and after the three times that a row is gone through.

ghost use Rattle.std.specs.Prelude.{◌≡◌, ◌≤◌, length};
ghost use Rattle.std.proofs.Math.Option.{some};
ghost use Rattle.crumbmap.specs.Layouts.{layout1, known};
ghost use Rattle.form.specs.Tails.{body};
ghost use Rattle.answers.specs.Rows.{rowed_of};
ghost use Rattle.grouping.specs.Steps.Grouping.{turned, Ready, started_at, begun, resumed, result_of};

use crate::fetch::fetch;
use crate::share::test;
use crate::tell::tell;
use crate::{State, Turned};
use answers::{Entry, Refusal};
use tails::open::{form_size, tail_at};

// The state before the first entry, by the image's length and its tail: a wrong length is refused at once, a bad tail once the order was tested.
pub fn begin(image: &[u8]) -> State
    ensures { result ≡ begun known image.now }
{
    let Some(size) = form_size(image.len()) else {
        return started(3, 0, 1);
    };
    match tail_at(image, size) {
        Some(_) => started(0, size, 0),
        None => started(0, size, 11),
    }
}

// The state before the first entry in a phase, with nothing read, and the number that stands already, 0 where none does.
fn started(phase: u32, size: usize, number: u32) -> State
    ensures { result ≡ started_at phase (some size) number }
{
    State {
        phase,
        number,
        reads: 0,
        bound: 0,
        size,
        table: 0,
        front: 0,
        total: 0,
    }
}

// The body of an image, all but the 64 bytes of its tail: what every step of a turn works on.
fn body_of(image: &[u8]) -> &[u8]
    requires { 64 ≤ length image.now }
    ensures { result.now ≡ body image.now }
{
    &image[..image.len() - 64]
}

// One entry, with the state before it. The phase is the sweep's and comes apart from the state, so that it is seen to stay along a row.
pub fn turn(image: &[u8], phase: u32, s: State, e: Entry) -> Turned
    requires { Ready layout1 (body image.now) phase s e.hash }
    ensures { result ≡ turned layout1 (body image.now) phase s e }
{
    match phase {
        0 => Turned {
            state: fetch(body_of(image), s, e.hash),
            entry: e,
        },
        1 => Turned {
            state: test(body_of(image), s, e.hash),
            entry: e,
        },
        2 => Turned {
            state: s,
            entry: tell(body_of(image), s.size, e),
        },
        _ => Turned { state: s, entry: e },
    }
}

// After a sweep: what was fetched is tested, and what was tested receives its answers or is refused.
pub fn resume(s: State) -> State
    ensures { result ≡ resumed s }
{
    if s.phase == 0 {
        return started(1, s.size, s.number);
    }
    let phase = if s.number == 0 { 2 } else { 3 };
    State { phase, ..s }
}

// What the row gives.
pub fn outcome(s: State) -> Result<usize, Refusal>
    ensures { rowed_of result ≡ result_of s }
{
    match s.number {
        0 => Ok(s.total),
        1 => Err(Refusal::WrongLength),
        10 => Err(Refusal::Descending),
        11 => Err(Refusal::BadTail),
        _ => Err(Refusal::Unsound(s.table)),
    }
}
