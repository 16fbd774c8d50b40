// Where a member stands in a sound bucket and how often, how many members there are, and the largest.

ghost use Rattle.std.specs.Prelude.{◌≡◌, ℕ, suc, ◌+◌, ◌*◌, ◌%◌, ◌<◌, ◌≤◌, false, length, Some};
ghost use Rattle.multiset.specs.Multisets.{below, copies, found_in, largest};
ghost use Rattle.multiset.specs.Digits.{highs};
ghost use Rattle.crumbmap.specs.Layouts.{layout1, tags, keys};
ghost use Rattle.buckets.specs.Buckets.{front_list, back_list};
ghost use Rattle.words.specs.Select.{select_table};
ghost use Rattle.minifilter.specs.Steps.Readings.{SoundFront, SoundBack, members_of};
ghost use Rattle.minifilter.specs.Steps.Slots.{slots_of, span_of, low_at, tag_at};
ghost use Rattle.minifilter.specs.Steps.Marks.{marks_of};
ghost use Rattle.search.specs.Steps.Searches.{Scanned, RankOf, Seekable, Standing, Lowest, Marked, search_of, slot_else, many_in, end_of1};

use crate::Found;
use crumbmap::layout::{FRONT_SLOTS, MINIS, TAGS};
use minifilter::slots;
use words::{select, word};

// A front bucket's last slot.
const LAST: usize = FRONT_SLOTS - 1;

// What the bytes hold of a slot.
fn low_of(b: &[u8], crumbs: bool, slot: usize) -> u32
    requires { (length b.now ≡ 64) × (slot < slots_of layout1 crumbs) }
    ensures { result ≡ low_at layout1 crumbs b.now slot }
{
    let tag = slots::tag_of(b, slot);
    if crumbs {
        return tag * 16 + slots::crumb_of(b, slot);
    }
    tag
}

// The first slot that holds `low` or more, among those of one mini-bucket.
fn scan(b: &[u8], crumbs: bool, from: usize, past: usize, low: u32) -> usize
    requires { (length b.now ≡ 64) × (from ≤ past) × (past ≤ slots_of layout1 crumbs) }
    ensures { Scanned layout1 crumbs b.now from past low result }
{
    for slot in from..past {
        if low <= low_of(b, crumbs, slot) {
            return slot;
        }
    }
    past
}

// How many members are below one: those of the mini-buckets before its own, by the end of the last of these, and in its own up to the first slot
// that holds as much.
fn rank_in(b: &[u8], crumbs: bool, mini: u32, low: u32, end: u32) -> usize
    requires { Seekable layout1 crumbs b.now mini low × (end ≡ end_of1 b.now mini) }
    ensures { result ≡ below (mini * span_of layout1 crumbs + low) (members_of layout1 crumbs b.now) }
{
    let slots = word::bounds(word::word_of(b), mini, end);
    scan(b, crumbs, slots.from, slots.past, low)
}

// The same of a member of a backyard bucket, key × 16 + crumb, with the select table.
pub fn rank_back(table: &[u8], b: &[u8], member: u32) -> usize
    requires { (table.now ≡ select_table) × SoundBack layout1 b.now × (member < keys layout1 * 16) }
    ensures { result ≡ below member (back_list layout1 b.now) }
{
    let mini = member / slots::BACK_SPAN;
    let end = select::select(table, word::word_of(b), word::rank_before(mini));
    rank_in(b, true, mini, member % slots::BACK_SPAN, end)
}

// The slot past the last of a member's mini-bucket, from the slot where the member's copies begin: the zeros of the word from that place on.
fn past_of(b: &[u8], crumbs: bool, slot: usize, mini: u32, low: u32) -> usize
    requires { RankOf layout1 crumbs b.now slot mini low }
    ensures { (result ≡ below (suc mini) (highs (span_of layout1 crumbs) (members_of layout1 crumbs b.now))) × (slot ≤ result) × (result ≤ slots_of layout1 crumbs) }
{
    slot + word::rest(word::word_of(b), mini, slot)
}

// Where a member stands, by how many are below it: at that slot, if it is one of the mini-bucket's and holds no more, and at those behind it up to the
// first that holds more.
fn find_in(b: &[u8], crumbs: bool, slot: usize, mini: u32, low: u32) -> Option<Found>
    requires { RankOf layout1 crumbs b.now slot mini low }
    ensures { result ≡ search_of (found_in (mini * span_of layout1 crumbs + low) (members_of layout1 crumbs b.now)) }
{
    let past = past_of(b, crumbs, slot, mini, low);
    if past == slot {
        return None;
    }
    if low < low_of(b, crumbs, slot) {
        return None;
    }
    let copies = scan(b, crumbs, slot + 1, past, low + 1) - slot;
    Some(Found { slot, copies })
}

// The same for a member of a backyard bucket: the reader gave the slot.
pub fn find_back(b: &[u8], slot: usize, member: u32) -> Option<Found>
    requires { SoundBack layout1 b.now × (member < keys layout1 * 16) × (slot ≡ below member (back_list layout1 b.now)) }
    ensures { result ≡ search_of (found_in member (back_list layout1 b.now)) }
{
    find_in(
        b,
        true,
        slot,
        member / slots::BACK_SPAN,
        member % slots::BACK_SPAN,
    )
}

// The same search where the reader gave no slot: select finds it, without the table.
fn seek_in(b: &[u8], crumbs: bool, mini: u32, low: u32) -> Option<Found>
    requires { Seekable layout1 crumbs b.now mini low }
    ensures { result ≡ search_of (found_in (mini * span_of layout1 crumbs + low) (members_of layout1 crumbs b.now)) }
{
    let end = select::place_of(word::word_of(b), word::rank_before(mini));
    let slot = rank_in(b, crumbs, mini, low, end);
    find_in(b, crumbs, slot, mini, low)
}

// A mark for each of the first slots of a front bucket that holds a tag, in use or not: 2 for the lowest.
fn marks_of(b: &[u8], slots: usize, tag: u32) -> u32
    requires { (length b.now ≡ 64) × (slots ≤ layout1.front_slots) }
    ensures { result ≡ 2 * marks_of (tag_at layout1 false b.now) tag 0 slots }
{
    slots::marks(slots, |slot| slots::tag_of(b, slot) == tag)
}

// The first slot that is marked, where it is one of the key's mini-bucket. Tags of other mini-buckets seldom are the same.
fn first_marked(b: &[u8], key: u32, marks: u32) -> Option<usize>
    requires { SoundFront layout1 b.now × (key < keys layout1) × (0 < marks) × (marks ≡ 2 * marks_of (tag_at layout1 false b.now) (key % tags layout1) 0 layout1.front_slots) }
    ensures { (slot : ℕ) → result ≡ Some slot → Lowest layout1 b.now key marks slot }
{
    let slot = (u32::trailing_zeros(marks) - 1) as usize;
    if word::is_slot_of(word::word_of(b), key / TAGS, slot) {
        return Some(slot);
    }
    None
}

// The lowest slot of a key in a front bucket, 28 where it is absent: the first slot with its tag, if that is one of its mini-bucket's, else select finds
// it. It is a number alone, which a register hands over.
fn slot_front(b: &[u8], key: u32) -> usize
    requires { SoundFront layout1 b.now × (key < keys layout1) }
    ensures { result ≡ slot_else layout1.front_slots (found_in key (front_list layout1 b.now)) }
{
    let marks = marks_of(b, FRONT_SLOTS, key % TAGS);
    if marks == 0 {
        return FRONT_SLOTS;
    }
    if let Some(slot) = first_marked(b, key, marks) {
        return slot;
    }
    match seek_in(b, false, key / TAGS, key % TAGS) {
        Some(found) => found.slot,
        None => FRONT_SLOTS,
    }
}

// The copies of a key from its lowest slot on: mostly one, as the next slot's tag says.
fn copies_front(b: &[u8], slot: usize, mini: u32, tag: u32) -> usize
    requires { Standing layout1 b.now slot mini tag }
    ensures { result ≡ copies (mini * tags layout1 + tag) (front_list layout1 b.now) }
{
    if slot < LAST {
        if slots::tag_of(b, slot + 1) == tag {
            let past = past_of(b, false, slot, mini, tag);
            return scan(b, false, slot + 1, past, tag + 1) - slot;
        }
    }
    1
}

// Where a key stands in a front bucket.
pub fn find_front(b: &[u8], key: u32) -> Option<Found>
    requires { SoundFront layout1 b.now × (key < keys layout1) }
    ensures { result ≡ search_of (found_in key (front_list layout1 b.now)) }
{
    let slot = slot_front(b, key);
    if slot == FRONT_SLOTS {
        return None;
    }
    Some(Found {
        slot,
        copies: copies_front(b, slot, key / TAGS, key % TAGS),
    })
}

// The copies of a key, by the marks of its tag from its lowest slot on: those in a row, as far as they are its mini-bucket's. Mostly there is one.
fn copies_marked(b: &[u8], slot: usize, mini: u32, tag: u32, marks: u32) -> usize
    requires { Marked layout1 b.now slot mini tag marks }
    ensures { result ≡ copies (mini * tags layout1 + tag) (front_list layout1 b.now) }
{
    if marks / 2 % 2 == 0 {
        return 1;
    }
    let rest = past_of(b, false, slot, mini, tag) - slot;
    let run = u32::trailing_zeros(marks + 1) as usize;
    if rest < run { rest } else { run }
}

// The same search for many keys in turn. It has one caller, and the slots are told by the bucket's length: so all of it becomes part of that caller's
// loop, which a row feels.
pub fn seek_front(b: &[u8], key: u32) -> Option<Found>
    requires { SoundFront layout1 b.now × (key < keys layout1) }
    ensures { result ≡ search_of (found_in key (front_list layout1 b.now)) }
{
    let mini = key / TAGS;
    let tag = key % TAGS;
    let marks = marks_of(b, (b.len() - slots::TAGS_AT) / 2, tag);
    if marks == 0 {
        return None;
    }
    if let Some(slot) = first_marked(b, key, marks) {
        return Some(Found {
            slot,
            copies: copies_marked(b, slot, mini, tag, marks >> (slot as u32 + 1)),
        });
    }
    seek_in(b, false, mini, tag)
}

// Where a member stands in a backyard bucket that the reader gave no slot of.
pub fn seek_back(b: &[u8], member: u32) -> Option<Found>
    requires { SoundBack layout1 b.now × (member < keys layout1 * 16) }
    ensures { result ≡ search_of (found_in member (back_list layout1 b.now)) }
{
    seek_in(
        b,
        true,
        member / slots::BACK_SPAN,
        member % slots::BACK_SPAN,
    )
}

// The copies that a search found.
pub fn copies_of(found: Option<Found>) -> usize
    ensures { result ≡ many_in found }
{
    match found {
        Some(found) => found.copies,
        None => 0,
    }
}

// How many members a bucket holds, front or backyard.
pub fn count_front(b: &[u8]) -> usize
    requires { SoundFront layout1 b.now }
    ensures { result ≡ length (front_list layout1 b.now) }
{
    word::occupancy(word::word_of(b))
}

pub fn count_back(b: &[u8]) -> usize
    requires { SoundBack layout1 b.now }
    ensures { result ≡ length (back_list layout1 b.now) }
{
    word::occupancy(word::word_of(b))
}

// The largest key of a front bucket whose slots are all in use: above its zero the word has ones alone, one for each mini-bucket from its own on.
pub fn largest_front(b: &[u8]) -> u32
    requires { SoundFront layout1 b.now × (length (front_list layout1 b.now) ≡ layout1.front_slots) }
    ensures { result ≡ largest (front_list layout1 b.now) }
{
    let ones = u64::leading_zeros(!word::word_of(b));
    (MINIS - ones) * TAGS + slots::tag_of(b, LAST)
}
