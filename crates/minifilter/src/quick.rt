// A quick test of a bucket: what passes it is sound; what does not is left to the reader. Hardly a sound bucket fails it.

ghost use Rattle.std.specs.Prelude.{◌≡◌, true, false, ◌*◌, ◌-◌, ◌^◌, ◌<◌, ◌≤◌, length, drop};
ghost use Rattle.multiset.specs.Multisets.{all_zero};
ghost use Rattle.crumbmap.specs.Layouts.{layout1};
ghost use Rattle.minifilter.specs.Steps.Marks.{marks_of, fall_at, rise_at, Rising};
ghost use Rattle.minifilter.specs.Steps.Slots.{Ordered, BackOrdered, Passed, Bordered1, slot_crumbs};

use crate::slots;
use borders::border::borders;
use crumbmap::layout::{BACK_SLOTS, FRONT_SLOTS, MINIS};
use words::word;

// A front bucket's last slot.
const LAST: usize = FRONT_SLOTS - 1;

// A backyard bucket's last slot.
const BACK_LAST: usize = BACK_SLOTS - 1;

// Above the marks of all its slots but the last.
const MARKS: u32 = 1 << (BACK_SLOTS as u32);

// The zeros among a word's places 0 to 62, where the last place has one more.
const ZEROS: u32 = 63 - MINIS;

// A mark for each slot of a front bucket whose tag is above the next one's, 2 for the lowest.
fn falls(b: &[u8]) -> u32
    requires { length b.now ≡ 64 }
    ensures { result ≡ 2 * marks_of (fall_at layout1 b.now) 1 0 (layout1.front_slots - 1) }
{
    slots::marks(
        LAST,
        |slot| slots::tag_of(b, slot + 1) < slots::tag_of(b, slot),
    )
}

// The word has as many zeros as a front bucket has slots, and the bucket's slots pass. One function for both kinds, so that `borders` has one caller
// and becomes part of it.
pub(crate) fn passes(b: &[u8], word: u64, crumbs: bool) -> bool
    requires { length b.now ≡ 64 }
    ensures { result ≡ true → Passed layout1 crumbs word b.now }
{
    let bits = borders(word);
    let top = (word >> 63) as u32;
    if bits >> (ZEROS + top) != 1 {
        return false;
    }
    if crumbs {
        return passes_back(b, word, bits);
    }
    passes_front(b, word, bits)
}

// Tags fall at the end of a mini-bucket alone, and the last slot is in use or 0.
fn passes_front(b: &[u8], word: u64, bits: u64) -> bool
    requires { (length b.now ≡ 64) × Bordered1 word bits }
    ensures { result ≡ true → Ordered layout1 false word b.now }
{
    if falls(b) & !((2 * bits) as u32) != 0 {
        return false;
    }
    if word >> 63 == 1 {
        return true;
    }
    slots::tag_of(b, LAST) == 0
}

// A mark for each slot of a backyard bucket whose tag is below the next one's, as in `falls`.
fn rises(b: &[u8]) -> u32
    requires { length b.now ≡ 64 }
    ensures { result ≡ 2 * marks_of (rise_at layout1 b.now) 1 0 (layout1.back_slots - 1) }
{
    slots::marks(
        BACK_LAST,
        |slot| slots::tag_of(b, slot) < slots::tag_of(b, slot + 1),
    )
}

// Tags rise from each member but the last of a mini-bucket, so that no crumbs need be compared. Those past the members are 0: the first is, and
// none rises.
fn tags_rise(b: &[u8], bits: u64, members: usize) -> bool
    requires { (length b.now ≡ 64) × (bits < 2 ^ 29) × (members ≤ layout1.back_slots) }
    ensures { result ≡ true → Rising layout1 bits members b.now }
{
    let rising = (rises(b) | ((2 * bits) as u32)) % MARKS;
    if members == BACK_SLOTS {
        return rising + 2 == MARKS;
    }
    if slots::tag_of(b, members) != 0 {
        return false;
    }
    rising + 2 == 2 << (members as u32)
}

// The crumbs past the members and byte 63 are 0. Bytes 52 to 59 hold the crumbs of slots 0 to 15, bytes 56 to 63 all from slot 8 on.
fn rest_zero(b: &[u8], members: usize) -> bool
    requires { (length b.now ≡ 64) × (members ≤ layout1.back_slots) }
    ensures { result ≡ true → all_zero (drop members (slot_crumbs layout1 true b.now)) ≡ true }
{
    let high = word::word_of(&b[slots::CRUMBS_AT + 4..]);
    if 8 <= members {
        return high >> (4 * (members as u32 - 8)) == 0;
    }
    if high >> 32 != 0 {
        return false;
    }
    word::word_of(&b[slots::CRUMBS_AT..]) >> (4 * (members as u32)) == 0
}

// The members fit a backyard bucket, what is past them is 0, and no two of one mini-bucket have the same tag; a bucket where they do is rare, and the
// reader's.
fn passes_back(b: &[u8], word: u64, bits: u64) -> bool
    requires { (length b.now ≡ 64) × Bordered1 word bits }
    ensures { result ≡ true → BackOrdered layout1 word b.now }
{
    let members = word::occupancy(word);
    if BACK_SLOTS < members {
        return false;
    }
    if rest_zero(b, members) {
        return tags_rise(b, bits, members);
    }
    false
}
