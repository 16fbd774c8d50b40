// What stands at a slot: its tag, and in a backyard bucket its crumb; where tags and crumbs begin.

ghost use Rattle.std.specs.Prelude.{◌≡◌, ℕ, ◌*◌, ◌<◌, false, length};
ghost use Rattle.crumbmap.specs.Layouts.{layout1, tags};
ghost use Rattle.minifilter.specs.Steps.Slots.{tag_at, crumb_at};
ghost use Rattle.minifilter.specs.Steps.Marks.{marks_of, Tells};

use crumbmap::layout::{BACK_SLOTS, KEYS, TAGS};

// "Bytes 8 up: tags"; in a backyard bucket "bytes 52 to 62 hold crumbs".
pub const TAGS_AT: usize = 8;

pub const CRUMBS_AT: usize = TAGS_AT + 2 * BACK_SLOTS;

// Backyard members, key × 16 + crumb: how many there are of one mini-bucket, and how many in all.
pub const BACK_SPAN: u32 = TAGS * 16;

pub const BACK_KEYS: u32 = KEYS * 16;

// "Tags, two bytes each, little-endian, in member order": at the same bytes in a front bucket and in a backyard bucket.
pub fn tag_of(b: &[u8], slot: usize) -> u32
    requires { (length b.now ≡ 64) × (slot < layout1.front_slots) }
    ensures { (result ≡ tag_at layout1 false b.now slot) × (result < tags layout1) }
{
    let at = TAGS_AT + 2 * slot;
    (b[at] as u32) + 256 * (b[at + 1] as u32)
}

// "Crumbs of 4 bits, slot i in byte 52 + floor(i / 2), even slots in the low half."
pub fn crumb_of(b: &[u8], slot: usize) -> u32
    requires { (length b.now ≡ 64) × (slot < layout1.back_slots) }
    ensures { (result ≡ crumb_at layout1 b.now slot) × (result < 16) }
{
    let shift = slot % 2 * 4;
    (b[CRUMBS_AT + slot / 2] as u32 >> shift) % 16
}

// A mark for each of the first slots of which `marked` says so, 2 for the lowest. No slot ends the loop, and the marks are from 2 on and alike, so that
// many slots are compared at once.
pub fn marks<F: Fn(usize) -> bool>(slots: usize, marked: F) -> u32
    requires room { slots < 32 }
    requires each { (slot : ℕ) → slot < slots → F.pre marked slot }
    ensures { (f : ℕ → ℕ) (t : ℕ) → Tells (F.post marked) f t slots → result ≡ 2 * marks_of f t 0 slots }
{
    let mut marks: u32 = 0;
    for slot in 0..slots {
        if marked(slot) {
            marks |= 2 << (slot as u32);
        }
    }
    marks
}
