// The 64 bytes of a tail: "the total (bytes 0 to 7) and a change count (8 to 15), both little-endian, and layout 1 (byte 16); the rest is 0".

ghost use Rattle.std.specs.Prelude.{◌≡◌, ◌+◌, ◌≤◌, ◌++◌, length, take, drop};
ghost use Rattle.multiset.specs.Multisets.{all_zero};
ghost use Rattle.multiset.specs.Digits.{digits, value};
ghost use Rattle.crumbmap.specs.Layouts.{layout1};
ghost use Rattle.form.specs.Tails.{slots, started, tail_bytes};
ghost use Rattle.tails.specs.Steps.Openings.{tail_reading_of};

use answers::Tail;
use crumbmap::layout::{BACK_SLOTS, FRONT_SLOTS};
use words::word::{put_word, word_of};

// "The top change count 2^64 − 1."
pub const TOP: u64 = 18446744073709551615;

// The little-endian number in the eight bytes from `at` on.
fn word_at(b: &[u8], at: usize) -> u64
    requires { at + 8 ≤ length b.now }
    ensures { result ≡ value 256 (take 8 (drop at b.now)) }
{
    word_of(&b[at..])
}

// "The rest is 0": eight bytes at a time from byte 24 on.
fn rest_zero(b: &[u8]) -> bool
    requires { length b.now ≡ 64 }
    ensures { result ≡ all_zero (drop 24 b.now) }
{
    for i in 3..8 {
        if word_at(b, 8 * i) != 0 {
            return false;
        }
    }
    true
}

// A tail of an image that has `most` slots, none where it is bad. Layout 1 in byte 16 and noughts behind it are the number 1 in bytes 16 to 23.
pub fn read_tail(b: &[u8], most: u64) -> Option<Tail>
    requires { length b.now ≡ 64 }
    ensures { result ≡ tail_reading_of most b.now }
{
    let total = word_at(b, 0);
    if most < total {
        return None;
    }
    if word_at(b, 16) != 1 {
        return None;
    }
    if !rest_zero(b) {
        return None;
    }
    Some(Tail {
        total,
        changes: word_at(b, 8),
    })
}

// "The image's slots, front and backyard together."
pub fn slots_of(size: usize) -> u64
    requires { size ≤ 65536 }
    ensures { result ≡ slots layout1 size }
{
    (8 * size * FRONT_SLOTS + (size + 7) * BACK_SLOTS) as u64
}

// New numbers in a tail; its layout and its rest stay.
pub fn write_tail(b: &mut [u8], total: u64, changes: u64)
    requires { length b.old ≡ 64 }
    ensures { b.new ≡ digits 256 8 total ++ (digits 256 8 changes ++ drop 16 b.old) }
{
    put_word(b, total);
    put_word(&mut b[8..64], changes);
}

// A tail of layout 1 with a total and the change count 0, whatever its bytes were.
pub fn start_tail(b: &mut [u8], total: u64)
    requires { length b.old ≡ 64 }
    ensures { b.new ≡ tail_bytes 1 (started total) }
{
    b.fill(0);
    put_word(b, total);
    b[16] = 1;
}
