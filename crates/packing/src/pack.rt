// Answers as numbers for C, and a number with its value packed.

ghost use Rattle.std.specs.Prelude.{◌≡◌, ◌^◌, ◌<◌, length, Ok};
ghost use Rattle.machine.specs.OccupancyPages.{printed};
ghost use Rattle.answers.specs.Answers.{outcome_of, place_of, asked_of, counted_of, paged_of, tailed_of};
ghost use Rattle.answers.specs.Pairs.{said_of, itself};
ghost use Rattle.answers.specs.Rows.{rowed_of};
ghost use Rattle.packing.specs.Packing.{pack, Packs, Within, nothing, place_word, ask_word, count_word, extent_word};
ghost use Rattle.packing.specs.Totals.{told_into};

use answers::pairs::Said;
use answers::{Asked, Counted, Paged, Place, Refusal, Tail};

// Number × 2^56 + value.
pub fn packed(said: Said) -> u64
    requires { Packs said }
    ensures { result ≡ pack said }
{
    said.number * 72057594037927936 + said.value
}

// An accepted call, with the value of its answer.
fn accepted(value: u64) -> Said
    ensures number { result.number ≡ 0 }
    ensures value { result.value ≡ value }
{
    Said { number: 0, value }
}

// What a fresh, a check, a merge, a move or an occupancy page gives.
pub fn done(given: Result<(), Refusal>) -> Said
    ensures { result ≡ said_of nothing (outcome_of given) }
{
    given.map_or_else(Said::from, |_| accepted(0))
}

// What an ask gives.
pub fn asked(given: Result<Asked, Refusal>) -> Said
    requires { Within ask_word (2 ^ 56) (asked_of given) }
    ensures { result ≡ said_of ask_word (asked_of given) }
{
    given.map_or_else(Said::from, |found| accepted(ask_word(found)))
}

// The reads, the place, the slot and the copies of an ask beside each other.
fn ask_word(found: Asked) -> u64
    requires { Within ask_word (2 ^ 56) (asked_of (Ok found)) }
    ensures { result ≡ (said_of ask_word (asked_of (Ok found))).value }
{
    (found.reads as u64) + place_word(found.place) + 65536 * (found.copies as u64)
}

// 16 × place + 256 × slot.
fn place_word(place: Place) -> u64
    requires { place_word (place_of place) < 2 ^ 56 }
    ensures { result ≡ place_word (place_of place) }
{
    match place {
        Place::Nowhere => 0,
        Place::Front(slot) => 16 + 256 * (slot as u64),
        Place::First(slot) => 32 + 256 * (slot as u64),
        Place::Second(slot) => 48 + 256 * (slot as u64),
    }
}

// What a count gives.
pub fn counted(given: Result<Counted, Refusal>) -> Said
    requires { Within count_word (2 ^ 56) (counted_of given) }
    ensures { result ≡ said_of count_word (counted_of given) }
{
    given.map_or_else(
        Said::from,
        |count| accepted((count.copies as u64) + 4294967296 * (count.reads as u64)),
    )
}

// What a page gives.
pub fn paged(given: Result<Paged, Refusal>) -> Said
    requires { Within extent_word (2 ^ 56) (paged_of given) }
    ensures { result ≡ said_of extent_word (paged_of given) }
{
    given.map_or_else(
        Said::from,
        |page| accepted((page.entries as u64) + 4294967296 * (page.next as u64)),
    )
}

// What a row of asks gives.
pub fn rowed(given: Result<usize, Refusal>) -> Said
    ensures { result ≡ said_of itself (rowed_of given) }
{
    given.map_or_else(Said::from, |total| accepted(total as u64))
}

// What a tail gives; the total, then the change count, go into `out`.
pub fn tailed(given: Result<Tail, Refusal>, out: &mut [u64]) -> Said
    ensures value { result ≡ said_of nothing (told_into (tailed_of given) (length out.old)) }
    ensures out_after { out.new ≡ printed (told_into (tailed_of given) (length out.old)) out.old }
{
    match given {
        Ok(told) => {
            if out.len() < 2 {
                return Said::from(Refusal::NoRoom);
            }
            out[0] = told.total;
            out[1] = told.changes;
            accepted(0)
        }
        Err(why) => Said::from(why),
    }
}
