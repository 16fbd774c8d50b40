// One front bucket of an image: read whole and written in place.

ghost use Rattle.std.specs.Prelude.{◌≡◌, ◌+◌, ◌*◌, ◌<◌, ◌≤◌, length};
ghost use Rattle.multiset.specs.Multisets.{added, removed};
ghost use Rattle.crumbmap.specs.Layouts.{layout1, keys};
ghost use Rattle.buckets.specs.Buckets.{FrontList};
ghost use Rattle.machine.specs.Images.{put, in_front, put_front};
ghost use Rattle.image.specs.Steps.ImageReads.{At, FrontRead, FrontSays, FrontJoin, FrontSwapAt, occupied};

use crate::place::bucket;
use answers::UnsoundBucket;
use crumbmap::Front;
use edits::edit::{insert_front, remove_front, swap_front};
use edits::write::write_front;
use minifilter::Reading;
use minifilter::read::{read_front, sound_front};
use search::find::count_front;

// A front bucket, read whole, and how many of its members are below a key.
pub fn read_front_at(image: &[u8], front: Front, key: u32) -> Result<Reading, UnsoundBucket>
    requires { (64 * front.0 + 64 ≤ length image.now) × (key < keys layout1) }
    ensures { FrontSays layout1 front.0 key image.now result }
{
    let Some(reading) = read_front(bucket(image, front.0), key) else {
        return Err(UnsoundBucket(front.0));
    };
    Ok(reading)
}

// The same where nobody asks for a key.
pub fn sound_front_at(image: &[u8], front: Front) -> Result<Reading, UnsoundBucket>
    requires { 64 * front.0 + 64 ≤ length image.now }
    ensures { FrontSays layout1 front.0 0 image.now result }
{
    let Some(reading) = sound_front(bucket(image, front.0)) else {
        return Err(UnsoundBucket(front.0));
    };
    Ok(reading)
}

// A key joins a front bucket that has a free slot, behind the members below it.
pub fn insert_front_at(image: &mut [u8], front: Front, slot: usize, key: u32)
    requires { FrontJoin layout1 front.0 slot key image.old }
    ensures { image.new ≡ put_front layout1 front.0 (added key (in_front layout1 front.0 image.old)) image.old }
{
    let f = front.0;
    let at = 64 * f;
    let end = at + 64;
    insert_front(&mut image[at..end], slot, key);
}

// The key at a slot leaves a front bucket.
pub fn remove_front_at(image: &mut [u8], front: Front, slot: usize, key: u32)
    requires { FrontRead layout1 front.0 image.old × At key slot (in_front layout1 front.0 image.old) }
    ensures { image.new ≡ put_front layout1 front.0 (removed key (in_front layout1 front.0 image.old)) image.old }
{
    let f = front.0;
    let at = 64 * f;
    let end = at + 64;
    remove_front(&mut image[at..end], slot, key);
}

// The key at slot `at` leaves a front bucket, and another one joins it, behind `slot` of the others.
pub fn swap_front_at(image: &mut [u8], front: Front, at: usize, from: u32, slot: usize, to: u32)
    requires { FrontSwapAt layout1 front.0 at from slot to image.old }
    ensures { image.new ≡ put_front layout1 front.0 (added to (removed from (in_front layout1 front.0 image.old))) image.old }
{
    let f = front.0;
    let start = 64 * f;
    let end = start + 64;
    swap_front(&mut image[start..end], at, from, slot, to);
}

// A front bucket takes keys, whatever its bytes were.
pub fn fill_front_at(image: &mut [u8], front: Front, keys: &[u32])
    requires { (64 * front.0 + 64 ≤ length image.old) × FrontList layout1 keys.now }
    ensures { image.new ≡ put_front layout1 front.0 keys.now image.old }
{
    let f = front.0;
    let at = 64 * f;
    let end = at + 64;
    write_front(&mut image[at..end], keys);
}

// The bytes of whichever of two sound front buckets has members, the first's where it has any.
pub fn occupied_front<'a>(first: &'a [u8], second: &'a [u8], front: Front) -> &'a [u8]
    requires { FrontRead layout1 front.0 first.now × FrontRead layout1 front.0 second.now }
    ensures { (result.now ≡ occupied layout1 front.0 first.now second.now) × (length result.now ≡ 64) }
{
    let mine = bucket(first, front.0);
    if count_front(mine) == 0 {
        bucket(second, front.0)
    } else {
        mine
    }
}

// A front bucket takes 64 bytes.
pub fn write_front_at(image: &mut [u8], front: Front, bytes: &[u8])
    requires { (64 * front.0 + 64 ≤ length image.old) × (length bytes.now ≡ 64) }
    ensures { image.new ≡ put front.0 bytes.now image.old }
{
    let f = front.0;
    let at = 64 * f;
    let end = at + 64;
    image[at..end].copy_from_slice(bytes);
}
