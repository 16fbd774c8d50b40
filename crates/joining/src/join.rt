// One front bucket of two images into a third: "Where just one of the two front buckets has members, its 64 bytes serve as the merged front bucket."
// Where both have, what inserting their members leaves in front is written once, and what it sends behind goes there in that order.

ghost use Rattle.std.specs.Prelude.{◌≡◌, ◌<◌, length};
ghost use Rattle.crumbmap.specs.Layouts.{layout1, most_members};
ghost use Rattle.words.specs.Select.{select_table};
ghost use Rattle.machine.specs.Images.{in_front};
ghost use Rattle.machine.specs.Steps.Spills.{push_all};
ghost use Rattle.listing.specs.Steps.Listings.{behind_in, BackyardRead};
ghost use Rattle.spill.specs.Steps.Settling.{reached};
ghost use Rattle.joining.specs.Steps.Joins.{Checked, Merging, Joining, Scratch, joined, both_inserted};

use crumbmap::Front;
use crumbmap::layout::{FRONT_SLOTS, MOST_MEMBERS};
use image::front::{occupied_front, write_front_at};
use image::place::bucket;
use listing::members::list_members;
use search::find::count_front;
use spill::fill::{fill_both, in_front};
use spill::push::push_all;

// One front bucket of both into a target whose own is empty. Three lists are lent to work in.
pub fn merge_front<'a>(
    table: &[u8],
    first: &'a [u8],
    second: &'a [u8],
    size: usize,
    front: Front,
    target: &mut [u8],
    a: &mut [u32],
    b: &mut [u32],
    over: &mut [u32],
) -> bool
    requires { (table.now ≡ select_table) × Merging layout1 size front.0 first.now second.now target.old × Scratch layout1 a.old b.old over.old }
    ensures { reached result target.new
        ≡ both_inserted layout1 size front.0 first.now second.now target.old }
{
    if count_front(bucket(first, front.0)) == 0 || count_front(bucket(second, front.0)) == 0 {
        return take_over(table, first, second, size, front, target);
    }
    merge_both(table, first, second, size, front, target, a, b, over)
}

// The same where at most one of the two front buckets has members: its bytes serve.
fn take_over<'a>(
    table: &[u8],
    first: &'a [u8],
    second: &'a [u8],
    size: usize,
    front: Front,
    target: &mut [u8],
) -> bool
    requires { (table.now ≡ select_table) × Merging layout1 size front.0 first.now second.now target.old
        × (0 < length (in_front layout1 front.0 first.now) → length (in_front layout1 front.0 second.now) ≡ 0) }
    ensures { reached result target.new
        ≡ both_inserted layout1 size front.0 first.now second.now target.old }
{
    let served = occupied_front(first, second, front);
    write_front_at(target, front, served);
    if add_behind(table, first, size, front, target) {
        return add_behind(table, second, size, front, target);
    }
    false
}

// Those behind a source's front bucket, behind the target's.
fn add_behind(table: &[u8], source: &[u8], size: usize, front: Front, target: &mut [u8]) -> bool
    requires { (table.now ≡ select_table) × Checked layout1 size source.now × BackyardRead layout1 size front.0 target.old }
    ensures { (reached result target.new
        ≡ push_all layout1 size front.0 (behind_in layout1 size front.0 source.now) target.old)
        × BackyardRead layout1 size front.0 target.new }
{
    if count_front(bucket(source, front.0)) < FRONT_SLOTS {
        return true;
    }
    let mut keys = [0u32; MOST_MEMBERS];
    let n = list_members(source, size, front, &mut keys);
    push_all(table, &keys[FRONT_SLOTS..n], size, front, target)
}

// The same where both have members: the two lists of them, made in `a` and `b`, are put in.
fn merge_both<'a>(
    table: &[u8],
    first: &'a [u8],
    second: &'a [u8],
    size: usize,
    front: Front,
    target: &mut [u8],
    a: &mut [u32],
    b: &mut [u32],
    over: &mut [u32],
) -> bool
    requires { (table.now ≡ select_table) × Merging layout1 size front.0 first.now second.now target.old × Scratch layout1 a.old b.old over.old }
    ensures { reached result target.new
        ≡ both_inserted layout1 size front.0 first.now second.now target.old }
{
    let n = list_members(first, size, front, a);
    let m = list_members(second, size, front, b);
    join(table, &a[..n], &b[..m], size, front, target, over)
}

// Two ascending lists of keys into a front bucket that is empty: what stays is written, then what leaves goes behind it, by way of `over`.
fn join(
    table: &[u8],
    a: &[u32],
    b: &[u32],
    size: usize,
    front: Front,
    target: &mut [u8],
    over: &mut [u32],
) -> bool
    requires { (table.now ≡ select_table) × Joining layout1 size front.0 a.now b.now target.old × (length over.old ≡ most_members layout1) }
    ensures { reached result target.new ≡ joined layout1 size front.0 a.now b.now target.old }
{
    let own = in_front(a.len());
    let gone = fill_both(&a[..own], b, front, over, target);
    if push_all(table, &a[own..], size, front, target) {
        return push_all(table, &over[..gone], size, front, target);
    }
    false
}
