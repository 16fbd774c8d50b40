// The crumbs' bytes, half a byte a slot: 16 slots in the first word, 8 in the four bytes after it. No branch depends on the slot.

ghost use Rattle.std.specs.Prelude.{◌≡◌, ◌<◌, ◌≤◌, min, [], ◌∷◌, length, drop};
ghost use Rattle.multiset.specs.Digits.{digits};
ghost use Rattle.shifts.specs.Steps.Shifts.{inserted, crumb_inserted, crumb_removed};

use crate::lanes::{blend, open_lane, put_at, word_at};

// How many of the first word's 16 slots are below a slot.
fn low_lanes(slot: usize) -> u32
    ensures { result ≡ min slot 16 }
{
    slot.min(16) as u32
}

// The crumb that falls off the first word, or the new one where all of the word's slots are below it.
fn carried(low: u64, n: u32, crumb: u32) -> u64
    requires { (n ≤ 16) × (crumb < 16) }
    ensures { (result < 16) × (drop 16 (inserted n (crumb ∷ []) (digits 16 16 low)) ≡ result ∷ []) }
{
    if n < 16 {
        return low >> 60;
    }
    crumb as u64
}

// A crumb is put in at a slot of the crumbs' bytes: "even slots in the low half".
pub fn insert_crumb(s: &mut [u8], slot: usize, crumb: u32)
    requires { (length s.old ≡ 12) × (slot < 24) × (crumb < 16) }
    ensures { s.new ≡ crumb_inserted slot crumb s.old }
{
    let low = word_at(s, 0);
    let high = word_at(s, 4) >> 32;
    let n = low_lanes(slot);
    let new_high = open_lane(high, carried(low, n, crumb), (slot as u32) - n);
    let new_low = open_lane(low, crumb as u64, n);
    put_at(s, 4, new_high << 32);
    put_at(s, 0, new_low);
}

// The crumb at a slot is taken out.
pub fn remove_crumb(s: &mut [u8], slot: usize)
    requires { (length s.old ≡ 12) × (slot < 24) }
    ensures { s.new ≡ crumb_removed slot s.old }
{
    let low = word_at(s, 0);
    let high = word_at(s, 4) >> 32;
    let n = low_lanes(slot);
    let new_high = blend(high, high >> 4, 2 * ((slot as u32) - n));
    let new_low = blend(low, (low >> 4) + (high << 60), 2 * n);
    put_at(s, 4, new_high << 32);
    put_at(s, 0, new_low);
}
