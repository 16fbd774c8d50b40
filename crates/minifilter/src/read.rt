// The reader: a bucket is first read whole, and is its member count, or none where it is unsound. `crumbs` is true of a backyard bucket; as a const
// parameter, here and in a search, it makes a delete take 1.02 to 1.035 of its time.

ghost use Rattle.std.specs.Prelude.{◌≡◌, ◌+◌, ◌*◌, ◌%◌, ◌<◌, ◌≤◌, true, ◌⊎◌, length, take, get_or, None};
ghost use Rattle.std.specs.Int.Count.{ones};
ghost use Rattle.crumbmap.specs.Layouts.{layout1, tags, keys};
ghost use Rattle.buckets.specs.Buckets.{front_members, back_members};
ghost use Rattle.minifilter.specs.Steps.Readings.{reading_of, BackAsked};
ghost use Rattle.minifilter.specs.Steps.Slots.{slots_of, slot_crumbs, member_of, end_of, tag_at, slot_members, in_order, order_of, slot_list, marked};

use crate::quick::passes;
use crate::{Reading, slots};
use crumbmap::layout::{BACK_SLOTS, FRONT_SLOTS, KEYS, MINIS, TAGS};
use crumbmap::{Backyard, valid};
use words::word;

// A front bucket.
pub fn read_front(b: &[u8], key: u32) -> Option<Reading>
    requires { (length b.now ≡ 64) × (key < keys layout1) }
    ensures { result ≡ reading_of key (front_members layout1 b.now) }
{
    read_slots(b, FRONT_SLOTS, false, key)
}

// A front bucket's member count alone.
pub fn sound_front(b: &[u8]) -> Option<Reading>
    requires { length b.now ≡ 64 }
    ensures { result ≡ reading_of 0 (front_members layout1 b.now) }
{
    let w = word::word_of(b);
    if passes(b, w, false) {
        return Some(Reading {
            members: word::occupancy(w),
            below: 0,
        });
    }
    read_front(b, 0)
}

// Backyard bucket `bucket` of an image of size `size`.
pub fn read_back(b: &[u8], size: usize, bucket: Backyard, member: u32) -> Option<Reading>
    requires { BackAsked layout1 b.now size bucket.0 member }
    ensures { result ≡ reading_of member (back_members layout1 size bucket.0 b.now) }
{
    let reading = read_slots(b, BACK_SLOTS, true, member)?;
    if b[63] != 0 {
        return None;
    }
    let marks = valid::valid_crumbs(size, bucket);
    if crumbs_marked(b, reading.members, marks) {
        return Some(reading);
    }
    None
}

// A backyard bucket's member count alone, where the quick test tells it; `None` says nothing. The caller has the reader behind it: another
// call of it here would keep it from becoming part of `read_back_at`, which a full insert feels.
pub fn quick_back(b: &[u8], size: usize, bucket: Backyard) -> Option<Reading>
    requires { BackAsked layout1 b.now size bucket.0 0 }
    ensures { (result ≡ None) ⊎ (result ≡ reading_of 0 (back_members layout1 size bucket.0 b.now)) }
{
    let w = word::word_of(b);
    if passes(b, w, true) {
        let members = word::occupancy(w);
        let marks = valid::valid_crumbs(size, bucket);
        if crumbs_marked(b, members, marks) {
            return Some(Reading { members, below: 0 });
        }
    }
    None
}

// A bucket's word and slots: "its word has exactly 36 ones, members fit the slots and ascend, unused bytes and halves are 0".
fn read_slots(b: &[u8], slots: usize, crumbs: bool, sought: u32) -> Option<Reading>
    requires { (length b.now ≡ 64) × (slots ≡ slots_of layout1 crumbs) × (sought < end_of layout1 crumbs) }
    ensures { result ≡ reading_of sought (slot_list layout1 crumbs b.now) }
{
    let w = word::word_of(b);
    if u64::count_ones(w) != MINIS {
        return None;
    }
    let members = word::occupancy(w);
    if slots < members {
        return None;
    }
    let below = ascends(b, w, slots, crumbs, sought)?;
    Some(Reading { members, below })
}

// All slots, used or not, ascend, none above the end; how many are below the one sought. The zeros of the word are taken in turn,
// the lowest first, two a turn: one byte of crumbs serves both.
fn ascends(b: &[u8], w: u64, slots: usize, crumbs: bool, sought: u32) -> Option<usize>
    requires { (length b.now ≡ 64) × (ones w ≡ layout1.minis) × (slots ≡ slots_of layout1 crumbs) }
    ensures { result ≡ order_of (in_order layout1 crumbs w b.now) sought (slot_members layout1 crumbs w b.now) }
{
    let mut zeros = !w;
    let mut last: u32 = 0;
    let mut below: usize = 0;
    for pair in 0..slots / 2 {
        let slot = 2 * pair;
        let even = member_at(b, u64::trailing_zeros(zeros) - (slot as u32), slot, crumbs);
        if even < last {
            return None;
        }
        zeros = zeros & (zeros - 1);
        let odd = member_at(
            b,
            u64::trailing_zeros(zeros) - (slot as u32) - 1,
            slot + 1,
            crumbs,
        );
        if odd < even {
            return None;
        }
        zeros = zeros & (zeros - 1);
        if even < sought {
            below += 1;
        }
        if odd < sought {
            below += 1;
        }
        last = odd;
    }
    if last <= end_of(crumbs) {
        return Some(below);
    }
    None
}

// Mini-bucket 36, tag 0, crumb 0: what the slots past the members hold.
fn end_of(crumbs: bool) -> u32
    ensures { result ≡ end_of layout1 crumbs }
{
    if crumbs {
        return slots::BACK_KEYS;
    }
    KEYS
}

// What a slot over mini-bucket `mini` holds: mini-bucket and tag, in a backyard bucket the crumb too, as one number.
fn member_at(b: &[u8], mini: u32, slot: usize, crumbs: bool) -> u32
    requires { (length b.now ≡ 64) × (mini ≤ layout1.minis) × (slot < slots_of layout1 crumbs) }
    ensures { result ≡ member_of crumbs (mini * tags layout1 + tag_at layout1 crumbs b.now slot)
        (get_or (slot_crumbs layout1 crumbs b.now) slot 0) }
{
    let key = mini * TAGS + slots::tag_of(b, slot);
    if crumbs {
        return key * 16 + slots::crumb_of(b, slot);
    }
    key
}

// "Each crumb is valid": those of the first `members` slots, by their bits in `marks`.
fn crumbs_marked(b: &[u8], members: usize, marks: u32) -> bool
    requires { (length b.now ≡ 64) × (members ≤ layout1.back_slots) }
    ensures { result ≡ marked marks (take members (slot_crumbs layout1 true b.now)) }
{
    if marks == 65_535 {
        return true;
    }
    for slot in 0..members {
        let crumb = slots::crumb_of(b, slot);
        if (marks >> crumb) % 2 == 0 {
            return false;
        }
    }
    true
}
