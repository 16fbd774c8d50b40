// A bucket's word: read, write, its member count, the slots of a mini-bucket, and a bit put in or taken out.

ghost use Rattle.std.specs.Prelude.{◌≡◌, suc, ◌+◌, ◌-◌, ◌/◌, ◌%◌, ◌^◌, ◌<◌, ◌≤◌, ◌&&◌, ◌++◌, length, take, drop, eqb};
ghost use Rattle.std.specs.Int.Count.{ones, ones_in};
ghost use Rattle.multiset.specs.Multisets.{below};
ghost use Rattle.multiset.specs.Digits.{digits, value};
ghost use Rattle.crumbmap.specs.Layouts.{layout1};
ghost use Rattle.buckets.specs.Words.{opened_at, closed_at, minis_in};
ghost use Rattle.words.specs.Steps.Wide.{word_bytes1, SlotOf1, EndBefore1};

use crate::Bounds;
use crumbmap::layout::MINIS;

// The bits of a word that are no mini-bucket's end.
const ZEROS: u32 = 64 - MINIS;

// The word of an empty bucket, 2^36 − 1.
pub const EMPTY: u64 = (1 << MINIS) - 1;

// "Bytes 0 to 7: a little-endian word."
pub fn word_of(b: &[u8]) -> u64
    requires { word_bytes1 ≤ length b.now }
    ensures { result ≡ value 256 (take word_bytes1 b.now) }
{
    u64::from_le_bytes([b[0], b[1], b[2], b[3], b[4], b[5], b[6], b[7]])
}

pub fn put_word(b: &mut [u8], word: u64)
    requires { word_bytes1 ≤ length b.old }
    ensures { b.new ≡ digits 256 word_bytes1 word ++ drop word_bytes1 b.old }
{
    b[..8].copy_from_slice(&word.to_le_bytes());
}

// "The members in a sound bucket are 28 minus the word's leading zeros."
pub fn occupancy(word: u64) -> usize
    requires { ones word ≡ layout1.minis }
    ensures { (result ≡ length (minis_in 64 layout1.minis word)) × (result ≤ layout1.front_slots) }
{
    (ZEROS - word.leading_zeros()) as usize
}

// The rank of the one that ends the mini-bucket before `mini`; that of mini-bucket 0 itself where there is none before it.
pub fn rank_before(mini: u32) -> u32
    ensures { result ≡ mini - 1 }
{
    mini.saturating_sub(1)
}

// The place of mini-bucket `mini`'s first bit: behind the end of the one before it.
fn first_place(word: u64, mini: u32, end: u32) -> u32
    requires { EndBefore1 word mini end }
    ensures { result ≡ mini + below mini (minis_in 64 layout1.minis word) }
{
    if mini == 0 {
        return 0;
    }
    end + 1
}

// The slots of mini-bucket `mini`, by the end of the one before it: as many as the zeros from its first bit.
pub fn bounds(word: u64, mini: u32, end: u32) -> Bounds
    requires { EndBefore1 word mini end }
    ensures { (result.from ≡ below mini (minis_in 64 layout1.minis word)) × (result.past ≡ below (suc mini) (minis_in 64 layout1.minis word)) }
{
    let place = first_place(word, mini, end);
    let from = place - mini;
    let past = from + (word >> place).trailing_zeros();
    Bounds {
        from: from as usize,
        past: past as usize,
    }
}

// How many slots mini-bucket `mini` has from `slot` on, which is one of its own or the one past them.
pub fn rest(word: u64, mini: u32, slot: usize) -> usize
    requires { SlotOf1 word mini slot }
    ensures { slot + result ≡ below (suc mini) (minis_in 64 layout1.minis word) }
{
    (word >> (mini + (slot as u32))).trailing_zeros() as usize
}

// Whether a slot is one of mini-bucket `mini`'s: at its place stands a zero, behind as many ones as mini-buckets before it.
pub fn is_slot_of(word: u64, mini: u32, slot: usize) -> bool
    requires { mini + slot < 64 }
    ensures { result ≡ (eqb (ones_in (mini + slot) word) mini && eqb (word / 2 ^ (mini + slot) % 2) 0) }
{
    let unit: u64 = 1 << (mini + (slot as u32));
    ((word % unit).count_ones() == mini) & (word / unit % 2 == 0)
}

// The word with a zero put in at a place, and with the bit there taken out.
pub fn open_bit(word: u64, place: u32) -> u64
    requires { (place < 63) × (word < 2 ^ 63) }
    ensures { result ≡ opened_at place word }
{
    let unit: u64 = 1 << place;
    word % unit + word / unit * unit * 2
}

pub fn close_bit(word: u64, place: u32) -> u64
    requires { place < 64 }
    ensures { result ≡ closed_at place word }
{
    let unit: u64 = 1 << place;
    word % unit + word / unit / 2 * unit
}
