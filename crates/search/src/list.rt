// The members of a sound bucket in order: all keys of a front bucket, those that carry a crumb, the first that does, and one by one.

ghost use Rattle.std.specs.Prelude.{◌≡◌, ◌+◌, ◌*◌, ◌-◌, ◌<◌, ◌≤◌, false, ◌++◌, length, take, drop, get_or};
ghost use Rattle.std.specs.Int.Count.{count_trailing_zeros};
ghost use Rattle.multiset.specs.Multisets.{copies};
ghost use Rattle.multiset.specs.Digits.{digits};
ghost use Rattle.crumbmap.specs.Layouts.{layout1, tags};
ghost use Rattle.buckets.specs.Buckets.{carrying, front_list, back_list};
ghost use Rattle.minifilter.specs.Steps.Readings.{SoundFront, SoundBack, Sound, members_of};
ghost use Rattle.minifilter.specs.Steps.Slots.{slots_of, tag_at};
ghost use Rattle.search.specs.Steps.Searches.{wanted_at, chosen, first_of, OnSlot, half_marks};

use crate::{Carried, Cursor, Passed};
use crumbmap::layout::TAGS;
use minifilter::slots;
use words::word;

// Crumbs are compared as two numbers of eight bytes: that of the first slots, and that of the others, which ends with the bucket.
const NEAR: usize = 8;

const FAR_AT: usize = slots::CRUMBS_AT + NEAR / 2;

// A one at the lowest bit of each half.
const ONES: u64 = 0x1111111111111111;

// The key of the slot whose zero is the lowest of `zeros`.
fn key_at(b: &[u8], zeros: u64, slot: usize) -> u32
    requires { (length b.now ≡ 64) × (slot < layout1.front_slots) × (slot ≤ count_trailing_zeros 64 zeros) }
    ensures { result ≡ (count_trailing_zeros 64 zeros - slot) * tags layout1 + tag_at layout1 false b.now slot }
{
    let mini = u64::trailing_zeros(zeros) - (slot as u32);
    mini * TAGS + slots::tag_of(b, slot)
}

// Whether a slot is among those asked for.
fn wanted(b: &[u8], crumbs: bool, slot: usize, crumb: u32) -> bool
    requires { (length b.now ≡ 64) × (slot < slots_of layout1 crumbs) }
    ensures { result ≡ wanted_at layout1 crumbs crumb b.now slot }
{
    if crumbs {
        return slots::crumb_of(b, slot) == crumb;
    }
    true
}

// The keys asked for, in order, into the start of `out`; how many. The zeros of the word are taken in turn, the lowest first.
fn list_in(b: &[u8], crumbs: bool, crumb: u32, out: &mut [u32]) -> usize
    requires { Sound layout1 crumbs b.now × (length out.old ≡ slots_of layout1 crumbs) }
    ensures { (result ≡ length (chosen crumbs crumb (members_of layout1 crumbs b.now)))
        × (out.new ≡ chosen crumbs crumb (members_of layout1 crumbs b.now) ++ drop result out.old) }
{
    let word = word::word_of(b);
    let members = word::occupancy(word);
    let mut zeros = !word;
    let mut n: usize = 0;
    for slot in 0..members {
        let key = key_at(b, zeros, slot);
        if wanted(b, crumbs, slot, crumb) {
            out[n] = key;
            n += 1;
        }
        zeros = zeros & (zeros - 1);
    }
    n
}

// All keys of a front bucket, in order, into the start of `out`; how many.
pub fn list_front(b: &[u8], out: &mut [u32]) -> usize
    requires { SoundFront layout1 b.now × (length out.old ≡ layout1.front_slots) }
    ensures { (result ≡ length (front_list layout1 b.now)) × (out.new ≡ front_list layout1 b.now ++ drop result out.old) }
{
    list_in(b, false, 0, out)
}

// The keys that carry a crumb in a backyard bucket, in order, into the start of `out`; how many.
pub fn list_carrying(b: &[u8], crumb: u32, out: &mut [u32]) -> usize
    requires { SoundBack layout1 b.now × (crumb < 16) × (length out.old ≡ layout1.back_slots) }
    ensures { (result ≡ length (carrying crumb (back_list layout1 b.now)))
        × (out.new ≡ carrying crumb (back_list layout1 b.now) ++ drop result out.old) }
{
    list_in(b, true, crumb, out)
}

// The place of a backyard bucket's first member.
pub fn first_back(b: &[u8]) -> Cursor
    requires { SoundBack layout1 b.now }
    ensures { (result.slot ≡ 0) × OnSlot b.now result }
{
    Cursor {
        slot: 0,
        zeros: !word::word_of(b),
    }
}

// The member at a place, and the place behind it.
pub fn next_back(b: &[u8], at: Cursor) -> Passed
    requires { SoundBack layout1 b.now × OnSlot b.now at × (at.slot < length (back_list layout1 b.now)) }
    ensures { (result.member ≡ get_or (back_list layout1 b.now) at.slot 0) × (result.next.slot ≡ at.slot + 1) × OnSlot b.now result.next }
{
    let slot = at.slot;
    let zeros = at.zeros;
    Passed {
        member: key_at(b, zeros, slot) * 16 + slots::crumb_of(b, slot),
        next: Cursor {
            slot: slot + 1,
            zeros: zeros & (zeros - 1),
        },
    }
}

// The lowest of the keys that carry a crumb, and its slot: the first that holds the crumb.
pub fn first_carrying(b: &[u8], crumb: u32) -> Option<Carried>
    requires { SoundBack layout1 b.now × (crumb < 16) }
    ensures { result ≡ first_of crumb (back_list layout1 b.now) (carrying crumb (back_list layout1 b.now)) }
{
    let word = word::word_of(b);
    let members = word::occupancy(word);
    let mut zeros = !word;
    for slot in 0..members {
        let here = slots::crumb_of(b, slot);
        if here == crumb {
            return Some(Carried {
                key: key_at(b, zeros, slot),
                slot,
            });
        }
        zeros = zeros & (zeros - 1);
    }
    None
}

// How many keys carry a crumb in a backyard bucket.
pub fn count_carrying(b: &[u8], crumb: u32) -> usize
    requires { SoundBack layout1 b.now × (crumb < 16) }
    ensures { result ≡ length (carrying crumb (back_list layout1 b.now)) }
{
    let members = word::occupancy(word::word_of(b));
    let near = near_of(members);
    let low = word::word_of(&b[slots::CRUMBS_AT..]);
    let high = word::word_of(&b[FAR_AT..]);
    copies_in(low, crumb, near) + copies_in(high, crumb, members - near)
}

// How many slots in use have their crumbs in the first number.
fn near_of(members: usize) -> usize
    ensures { (result ≤ 8) × (result ≤ members) × (members < 8 → result ≡ members) × (8 ≤ members → result ≡ 8) }
{
    if members < NEAR { members } else { NEAR }
}

// How many of the n lowest halves of a number are a crumb.
fn copies_in(halves: u64, crumb: u32, n: usize) -> usize
    requires { (crumb < 16) × (n < 16) }
    ensures { result ≡ copies crumb (take n (digits 16 16 halves)) }
{
    let same = zero_halves(halves ^ ((crumb as u64) * ONES));
    u64::count_ones(same & ((1u64 << (4 * n)) - 1)) as usize
}

// A one at the lowest bit of each half that is 0: the bits of a half are gathered in its lowest.
fn zero_halves(x: u64) -> u64
    ensures { result ≡ half_marks 0 (digits 16 16 x) }
{
    let pairs = x | (x >> 2);
    !(pairs | (pairs >> 1)) & ONES
}
