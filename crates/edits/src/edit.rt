// Insert and remove of one member in place, and the empty bucket.

ghost use Rattle.std.specs.Prelude.{◌≡◌, ◌<◌, [], length, get_or};
ghost use Rattle.multiset.specs.Multisets.{added, removed};
ghost use Rattle.crumbmap.specs.Layouts.{layout1};
ghost use Rattle.buckets.specs.Buckets.{front_bytes, back_bytes, front_list, back_list};
ghost use Rattle.words.specs.Steps.Wide.{word_bytes1};
ghost use Rattle.minifilter.specs.Steps.Readings.{SoundFront, SoundBack};
ghost use Rattle.edits.specs.Steps.Edits.{slot_inserted, slot_removed, FrontInsert, BackInsert, FrontSwap, TagRoom1, InsertRoom1};

use crumbmap::layout::TAGS;
use minifilter::slots;
use shifts::crumbs::{insert_crumb, remove_crumb};
use shifts::tags::{insert_tag, remove_tag};
use words::word;

// Word and tags of a bucket whose tags end at byte `end`: a key is put in at a slot.
fn insert_slot(b: &mut [u8], end: usize, slot: usize, key: u32)
    requires { InsertRoom1 b.old end slot key }
    ensures { b.new ≡ slot_inserted layout1 word_bytes1 end slot key b.old }
{
    let word = word::word_of(b);
    insert_tag(&mut b[slots::TAGS_AT..end], slot, key % TAGS);
    word::put_word(b, word::open_bit(word, key / TAGS + (slot as u32)));
}

// The key at a slot, of mini-bucket `mini`, is taken out.
fn remove_slot(b: &mut [u8], end: usize, slot: usize, mini: u32)
    requires { TagRoom1 b.old end slot × (mini < layout1.minis) }
    ensures { b.new ≡ slot_removed layout1 word_bytes1 end slot mini b.old }
{
    let word = word::word_of(b);
    remove_tag(&mut b[slots::TAGS_AT..end], slot);
    word::put_word(b, word::close_bit(word, mini + (slot as u32)));
}

// A key joins a front bucket that has a free slot, behind the members below it.
pub fn insert_front(b: &mut [u8], slot: usize, key: u32)
    requires { FrontInsert layout1 b.old slot key }
    ensures { b.new ≡ front_bytes layout1 (added key (front_list layout1 b.old)) }
{
    insert_slot(b, 64, slot, key);
}

// The key at a slot leaves a front bucket.
pub fn remove_front(b: &mut [u8], slot: usize, key: u32)
    requires { SoundFront layout1 b.old × (slot < length (front_list layout1 b.old)) × (get_or (front_list layout1 b.old) slot 0 ≡ key) }
    ensures { b.new ≡ front_bytes layout1 (removed key (front_list layout1 b.old)) }
{
    remove_slot(b, 64, slot, key / TAGS);
}

// The key at slot `at` leaves a front bucket, and another joins behind `slot` of those that are left.
pub fn swap_front(b: &mut [u8], at: usize, from: u32, slot: usize, to: u32)
    requires { FrontSwap layout1 b.old at from slot to }
    ensures { b.new ≡ front_bytes layout1 (added to (removed from (front_list layout1 b.old))) }
{
    remove_front(b, at, from);
    insert_front(b, slot, to);
}

// A member, key × 16 + crumb, joins a backyard bucket that has a free slot, behind the members below it.
pub fn insert_back(b: &mut [u8], slot: usize, member: u32)
    requires { BackInsert layout1 b.old slot member }
    ensures { b.new ≡ back_bytes layout1 (added member (back_list layout1 b.old)) }
{
    insert_slot(b, slots::CRUMBS_AT, slot, member / 16);
    insert_crumb(&mut b[slots::CRUMBS_AT..64], slot, member % 16);
}

// The member at a slot leaves a backyard bucket.
pub fn remove_back(b: &mut [u8], slot: usize, member: u32)
    requires { SoundBack layout1 b.old × (slot < length (back_list layout1 b.old)) × (get_or (back_list layout1 b.old) slot 0 ≡ member) }
    ensures { b.new ≡ back_bytes layout1 (removed member (back_list layout1 b.old)) }
{
    remove_slot(b, slots::CRUMBS_AT, slot, member / slots::BACK_SPAN);
    remove_crumb(&mut b[slots::CRUMBS_AT..64], slot);
}

// "Every bucket empty (word 2^36 − 1, else 0)."
pub fn clear(b: &mut [u8])
    requires { length b.old ≡ 64 }
    ensures { b.new ≡ front_bytes layout1 [] }
{
    b[slots::TAGS_AT..64].fill(0);
    word::put_word(b, word::EMPTY);
}
