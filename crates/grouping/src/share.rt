// Reading on for one more key of a group: "neighbours with the same front bucket share their reads". A bucket that was read is only searched.

ghost use Rattle.std.specs.Prelude.{◌≡◌, ◌<◌, ◌≤◌, false};
ghost use Rattle.crumbmap.specs.Layouts.{layout1, keys};
ghost use Rattle.crumbmap.specs.CrumbMap.{first_bucket, coincide as coinciding};
ghost use Rattle.image.specs.Steps.ImageReads.{FrontIn, FrontRead, BackRead, Exceeds};
ghost use Rattle.grouping.specs.Steps.Grouping.{reach_at, bound_at, GroupRead, shared_of, PastFirst, sharing, advanced, tested_at, tested, Known, Extends};

use crate::State;
use answers::UnsoundBucket;
use crumbmap::Front;
use crumbmap::fingerprint::{front_of, key_of};
use crumbmap::layout::{FRONT_SLOTS, KEYS};
use crumbmap::map::{coincide, first_of, second_of};
use image::back::{find_at, read_back_at, read_way, seek_at};
use image::front::read_front_at;
use image::place::bucket;
use search::find::{count_front, largest_front};

// The keys below this one are settled by a front bucket that was read.
pub fn reach(image: &[u8], front: Front) -> u32
    requires { FrontRead layout1 front.0 image.now }
    ensures { (result ≡ reach_at layout1 front.0 image.now) × (result ≤ keys layout1) }
{
    let b = bucket(image, front.0);
    if count_front(b) < FRONT_SLOTS {
        return KEYS;
    }
    largest_front(b) + 1
}

// The state after one more ask of a row that is tested.
pub fn test(image: &[u8], s: State, hash: u64) -> State
    requires { Known layout1 image.now s }
    ensures { result ≡ tested layout1 image.now s hash }
{
    let front = front_of(hash, s.size);
    let f = front.0;
    let key = key_of(hash);
    if f == s.front {
        if key < s.bound {
            return s;
        }
    }
    advance(image, s, front, key)
}

// The same where the buckets that were read may not do.
fn advance(image: &[u8], s: State, front: Front, key: u32) -> State
    requires { Known layout1 image.now s × FrontIn s.size front.0 image.now × (key < keys layout1) }
    ensures { result ≡ tested_at layout1 image.now s front.0 key }
{
    let f = front.0;
    if f < s.front {
        return State {
            number: 10,
            table: 0,
            front: f,
            ..s
        };
    }
    if s.number != 0 {
        return State { front: f, ..s };
    }
    let held = if s.front < f { 0 } else { s.reads };
    extend(image, s, front, key, held)
}

// The same before any refusal, for an entry in its order whose group has had `held` buckets read.
fn extend(image: &[u8], s: State, front: Front, key: u32, held: u32) -> State
    requires { Extends layout1 image.now s front.0 key held }
    ensures { result ≡ advanced layout1 image.now s front.0 (sharing layout1 s.size front.0 key image.now held) }
{
    match share(image, s.size, front, key, held) {
        Ok(reads) => State {
            number: 0,
            reads,
            bound: bound_of(image, front, reads),
            table: 0,
            front: front.0,
            total: s.total + ((reads - held) as usize),
            ..s
        },
        Err(unsound) => State {
            number: 3,
            table: unsound.0,
            front: front.0,
            ..s
        },
    }
}

// The keys below this one need no more of a group's buckets than those that were read.
fn bound_of(image: &[u8], front: Front, reads: u32) -> u32
    requires { FrontRead layout1 front.0 image.now × (0 < reads) }
    ensures { result ≡ bound_at layout1 front.0 image.now reads }
{
    if 2 < reads {
        return KEYS;
    }
    reach(image, front)
}

// How many of a group's buckets are read once a key is asked for, where `reads` were.
fn share(
    image: &[u8],
    size: usize,
    front: Front,
    key: u32,
    reads: u32,
) -> Result<u32, UnsoundBucket>
    requires { FrontIn size front.0 image.now × (key < keys layout1) × GroupRead layout1 size front.0 image.now reads }
    ensures { shared_of result ≡ sharing layout1 size front.0 key image.now reads }
{
    if reads == 0 {
        read_front_at(image, front, key)?;
        return share_front(image, size, front, key, 1);
    }
    share_front(image, size, front, key, reads)
}

// The same where the front bucket was read.
fn share_front(
    image: &[u8],
    size: usize,
    front: Front,
    key: u32,
    reads: u32,
) -> Result<u32, UnsoundBucket>
    requires { FrontIn size front.0 image.now × (key < keys layout1) × GroupRead layout1 size front.0 image.now reads × (0 < reads) }
    ensures { shared_of result ≡ sharing layout1 size front.0 key image.now reads }
{
    if key < reach(image, front) {
        return Ok(reads);
    }
    match reads {
        1 => share_first(image, size, front, key),
        2 => share_again(image, size, front, key),
        _ => Ok(reads),
    }
}

// b0 is read; where it is b1 too, no more is to be read.
fn share_first(image: &[u8], size: usize, front: Front, key: u32) -> Result<u32, UnsoundBucket>
    requires { FrontIn size front.0 image.now × (key < keys layout1) × Exceeds layout1 front.0 key image.now }
    ensures { shared_of result ≡ sharing layout1 size front.0 key image.now 1 }
{
    let first = read_way(image, size, first_of(front, size), key)?;
    if coincide(front, size) {
        return Ok(2);
    }
    if find_at(image, size, first, key).is_some() {
        return Ok(2);
    }
    share_second(image, size, front, key, 1)
}

// The same where b0 was read.
fn share_again(image: &[u8], size: usize, front: Front, key: u32) -> Result<u32, UnsoundBucket>
    requires { FrontIn size front.0 image.now × (key < keys layout1) × Exceeds layout1 front.0 key image.now
        × BackRead layout1 size (first_bucket front.0) image.now }
    ensures { shared_of result ≡ sharing layout1 size front.0 key image.now 2 }
{
    if coincide(front, size) {
        return Ok(2);
    }
    if seek_at(image, size, first_of(front, size), key).is_some() {
        return Ok(2);
    }
    share_second(image, size, front, key, 2)
}

// b1 is read, which is not b0, for a key that is not in b0; whether it is there makes no difference to the reads.
fn share_second(
    image: &[u8],
    size: usize,
    front: Front,
    key: u32,
    reads: u32,
) -> Result<u32, UnsoundBucket>
    requires { FrontIn size front.0 image.now × (key < keys layout1) × PastFirst layout1 size front.0 key image.now × (reads < 3)
        × (coinciding size front.0 ≡ false) }
    ensures { shared_of result ≡ sharing layout1 size front.0 key image.now reads }
{
    let way = second_of(front, size);
    read_back_at(image, size, way.bucket, key * 16 + way.crumb)?;
    Ok(3)
}
