// The answer to one ask of a row whose buckets were all read and are sound: they are only searched.

ghost use Rattle.std.specs.Prelude.{◌≡◌, ◌^◌, ◌<◌, ◌≤◌};
ghost use Rattle.crumbmap.specs.Layouts.{layout1, keys, fronts};
ghost use Rattle.machine.specs.Results.{number};
ghost use Rattle.machine.specs.Machine.{reads_behind, ask_at};
ghost use Rattle.machine.specs.Calls.{ask_of};
ghost use Rattle.image.specs.Steps.ImageReads.{Whole, FrontIn, Exceeds};
ghost use Rattle.grouping.specs.Steps.Grouping.{told, told_by, filled};

use crate::share::reach;
use answers::Entry;
use crumbmap::Front;
use crumbmap::fingerprint::{front_of, key_of};
use crumbmap::map::{coincide, first_of, second_of};
use image::back::seek_at;
use image::place::bucket;
use search::find::seek_front;

// An entry whose ask is accepted, with its answer.
pub fn tell(image: &[u8], size: usize, e: Entry) -> Entry
    requires { Whole size image.now × (number (ask_of layout1 image.now e.hash) ≡ 0) }
    ensures { result ≡ told layout1 image.now e }
{
    let front = front_of(e.hash, size);
    let key = key_of(e.hash);
    if let Some(found) = seek_front(bucket(image, front.0), key) {
        return answered(e, 1, 1, found.slot, found.copies);
    }
    if key < reach(image, front) {
        return answered(e, 1, 0, 0, 0);
    }
    tell_behind(image, size, front, key, e)
}

// The same for a key that exceeds the largest of a full front bucket.
fn tell_behind(image: &[u8], size: usize, front: Front, key: u32, e: Entry) -> Entry
    requires { FrontIn size front.0 image.now × (key < keys layout1) × Exceeds layout1 front.0 key image.now
        × (number (ask_at layout1 size front.0 key image.now) ≡ 0) }
    ensures { result ≡ told_by e (ask_at layout1 size front.0 key image.now) }
{
    if let Some(found) = seek_at(image, size, first_of(front, size), key) {
        return answered(e, 2, 2, found.slot, found.copies);
    }
    let reads = reads_behind(front, size);
    match seek_at(image, size, second_of(front, size), key) {
        Some(found) => answered(e, reads, 3, found.slot, found.copies),
        None => answered(e, reads, 0, 0, 0),
    }
}

// How many buckets are read by an ask that comes to b1: where it is b0, it is not read again.
fn reads_behind(front: Front, size: usize) -> u32
    requires { (front.0 < fronts size) × (size ≤ 65536) }
    ensures { result ≡ reads_behind size front.0 }
{
    if coincide(front, size) {
        return 2;
    }
    3
}

// An entry receives its reads, place and slot, and the copies there.
fn answered(e: Entry, reads: u32, place: u32, slot: usize, copies: usize) -> Entry
    requires { (slot < 2 ^ 32) × (copies < 2 ^ 32) }
    ensures { result ≡ filled e reads place slot copies }
{
    Entry {
        reads,
        place,
        slot: slot as u32,
        copies: copies as u32,
        ..e
    }
}
