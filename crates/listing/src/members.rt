// All members of a front bucket, those behind it too: how many, and the list. "b0 and b1 are read where Front holds 28;
// elsewhere the members are those of Front alone."

ghost use Rattle.std.specs.Prelude.{◌≡◌, ◌≤◌, length};
ghost use Rattle.crumbmap.specs.Layouts.{layout1, most_behind, most_members};
ghost use Rattle.machine.specs.Images.{in_front};
ghost use Rattle.machine.specs.Machine.{overflow_in};
ghost use Rattle.image.specs.Steps.ImageReads.{FrontIn, BagRead};
ghost use Rattle.image.specs.Steps.Listed.{Listed};
ghost use Rattle.listing.specs.Steps.Listings.{bag_at, members_in, BackyardRead, MembersRead, CountSays};

use crate::lists::merge_parts;
use answers::UnsoundBucket;
use crumbmap::layout::{BACK_SLOTS, FRONT_SLOTS};
use crumbmap::map::{first_of, second_of, ways_of};
use crumbmap::{Front, Overflow};
use image::back::read_backyard;
use image::front::sound_front_at;
use image::place::{back_bucket, bucket};
use search::find::count_front;
use search::list::{count_carrying, list_carrying, list_front};

// How many members a front bucket has.
pub fn count_members(image: &[u8], size: usize, front: Front) -> Result<usize, UnsoundBucket>
    requires { FrontIn size front.0 image.now }
    ensures { CountSays layout1 size front.0 image.now result }
{
    let reading = sound_front_at(image, front)?;
    if reading.members < FRONT_SLOTS {
        return Ok(reading.members);
    }
    let (a, b) = read_backyard(image, size, front, ways_of(front, size), 0)?;
    let first = count_bag(image, size, a.way);
    let second = count_bag(image, size, b.way);
    Ok(reading.members + first + second)
}

// How many First(f) and Second(f) have together.
pub fn count_overflow(image: &[u8], size: usize, front: Front) -> usize
    requires { BackyardRead layout1 size front.0 image.now }
    ensures { result ≡ length (overflow_in layout1 size front.0 image.now) }
{
    let first = count_bag(image, size, first_of(front, size));
    let second = count_bag(image, size, second_of(front, size));
    first + second
}

// The keys that carry a crumb in a backyard bucket that was read: how many.
fn count_bag(image: &[u8], size: usize, way: Overflow) -> usize
    requires { BagRead layout1 size way image.now }
    ensures { (result ≡ length (bag_at layout1 size way image.now)) × (result ≤ layout1.back_slots) }
{
    count_carrying(back_bucket(image, size, way.bucket), way.crumb)
}

// The members of a front bucket, ascending, into the start of `out`; how many.
pub fn list_members(image: &[u8], size: usize, front: Front, out: &mut [u32]) -> usize
    requires { MembersRead layout1 size front.0 image.now × (length out.old ≡ most_members layout1) }
    ensures { Listed (members_in layout1 size front.0 image.now) out.old result out.new }
{
    let mine = bucket(image, front.0);
    if count_front(mine) < FRONT_SLOTS {
        return list_front(mine, &mut out[..FRONT_SLOTS]);
    }
    list_full(image, size, front, out)
}

// The same where the front bucket holds 28: those behind it count too.
fn list_full(image: &[u8], size: usize, front: Front, out: &mut [u32]) -> usize
    requires { MembersRead layout1 size front.0 image.now × (layout1.front_slots ≤ length (in_front layout1 front.0 image.now))
        × (length out.old ≡ most_members layout1) }
    ensures { Listed (members_in layout1 size front.0 image.now) out.old result out.new }
{
    let n = list_front(bucket(image, front.0), &mut out[..FRONT_SLOTS]);
    let m = list_overflow(image, size, front, &mut out[n..]);
    merge_parts(out, n, n + m);
    n + m
}

// First(f) and Second(f), ascending, into the start of `out`; how many.
fn list_overflow(image: &[u8], size: usize, front: Front, out: &mut [u32]) -> usize
    requires { BackyardRead layout1 size front.0 image.now × (most_behind layout1 ≤ length out.old) }
    ensures { Listed (overflow_in layout1 size front.0 image.now) out.old result out.new }
{
    let n = list_bag(image, size, first_of(front, size), out);
    let m = list_bag(image, size, second_of(front, size), &mut out[n..]);
    merge_parts(out, n, n + m);
    n + m
}

// The keys that carry a crumb in a backyard bucket that was read, ascending, into the start of `out`; how many.
fn list_bag(image: &[u8], size: usize, way: Overflow, out: &mut [u32]) -> usize
    requires { BagRead layout1 size way image.now × (layout1.back_slots ≤ length out.old) }
    ensures { Listed (bag_at layout1 size way image.now) out.old result out.new }
{
    list_carrying(
        back_bucket(image, size, way.bucket),
        way.crumb,
        &mut out[..BACK_SLOTS],
    )
}
