// Words of lanes: the lowest lanes of one word under the others of another.

ghost use Rattle.std.specs.Prelude.{◌≡◌, ◌+◌, ◌-◌, ◌*◌, ◌/◌, ◌%◌, ◌^◌, ◌<◌, ◌≤◌, min, [], ◌∷◌, ◌++◌, length, take, drop};
ghost use Rattle.multiset.specs.Digits.{digits};
ghost use Rattle.shifts.specs.Steps.Shifts.{inserted, mixed};

use std::num::{wrapping_add_u64, wrapping_sub_u64};
use words::word;

// The bits below 4^half: all 64 where half is 32, though no number of 64 bits is 4^32.
fn mask(half: u32) -> u64
    requires { half ≤ 32 }
    ensures { result ≡ 4 ^ half - 1 }
{
    let unit: u64 = 1 << half;
    wrapping_sub_u64(unit << half, 1)
}

// The bits of x below 4^half, and those of y from there on.
pub fn blend(x: u64, y: u64, half: u32) -> u64
    requires { half ≤ 32 }
    ensures { result ≡ x % 4 ^ half + y / 4 ^ half * 4 ^ half }
{
    let keep = mask(half);
    (x & keep) + (y - (y & keep))
}

// How many of the 8 bytes from byte `from` on are below byte `at`.
fn bytes_below(at: usize, from: usize) -> u32
    ensures { result ≡ min (at - from) 8 }
{
    at.saturating_sub(from).min(8) as u32
}

// The word x that starts at byte `from`, where the bytes from byte `at` on are those of y.
pub fn from_byte(x: u64, y: u64, from: usize, at: usize) -> u64
    ensures { digits 256 8 result ≡ mixed (at - from) (digits 256 8 x) (digits 256 8 y) }
{
    blend(x, y, 4 * bytes_below(at, from))
}

// The 8 bytes at byte `from`, as a word.
pub fn word_at(s: &[u8], from: usize) -> u64
    requires { from + 8 ≤ length s.now }
    ensures { digits 256 8 result ≡ take 8 (drop from s.now) }
{
    word::word_of(&s[from..])
}

pub fn put_at(s: &mut [u8], from: usize, word: u64)
    requires { from + 8 ≤ length s.old }
    ensures { s.new ≡ take from s.old ++ (digits 256 8 word ++ drop (from + 8) s.old) }
{
    word::put_word(&mut s[from..], word);
}

// The 8 bytes at byte `from`, where those from byte `at` on are the ones at byte `moved` and after it.
pub fn moved_word(s: &[u8], from: usize, moved: usize, at: usize) -> u64
    requires { (from + 8 ≤ length s.now) × (moved + 8 ≤ length s.now) }
    ensures { digits 256 8 result ≡ mixed (at - from) (take 8 (drop from s.now)) (take 8 (drop moved s.now)) }
{
    from_byte(word_at(s, from), word_at(s, moved), from, at)
}

// A word of 16 lanes of four bits with a number put in at a lane, the last falling off.
pub fn open_lane(x: u64, put: u64, lane: u32) -> u64
    requires { (lane ≤ 16) × (put < 16) }
    ensures { digits 16 16 result ≡ take 16 (inserted lane (put ∷ []) (digits 16 16 x)) }
{
    let keep = mask(2 * lane);
    let below = x & keep;
    let unit = wrapping_add_u64(keep, 1);
    wrapping_add_u64(below + put * unit, (x - below) << 4)
}
