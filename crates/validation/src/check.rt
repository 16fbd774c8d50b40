// Check: "all buckets sound by table number, then each backyard member's front bucket holds 28, none larger than that member", and the total is
// that of the members, which are counted as the buckets are read.

ghost use Rattle.std.specs.Prelude.{◌≡◌, ◌/◌, ◌%◌, ◌<◌};
ghost use Rattle.crumbmap.specs.Layouts.{layout1, known, backyards};
ghost use Rattle.crumbmap.specs.CrumbMap.{home};
ghost use Rattle.crumbmap.specs.Steps.Places.{Homed};
ghost use Rattle.machine.specs.Images.{in_back};
ghost use Rattle.machine.specs.Checks.{home_in_turn, all_in_turn, early};
ghost use Rattle.form.specs.Calls.{checked_by, check_of};
ghost use Rattle.answers.specs.Answers.{outcome_of};
ghost use Rattle.image.specs.Steps.ImageReads.{Whole};
ghost use Rattle.tails.specs.Steps.Openings.{header_of};
ghost use Rattle.validation.specs.Steps.Passes.{fault_of, AllRead, FrontsSay, BacksSay, checked_of, counted_check};

use answers::{Refusal, UnsoundBucket};
use crumbmap::layout::FRONT_SLOTS;
use crumbmap::map::home_of;
use crumbmap::{Backyard, Front};
use image::back::sound_back_at;
use image::front::sound_front_at;
use image::place::{back_bucket, bucket as bucket_of, table_of};
use search::find::{count_back, count_front, largest_front};
use search::list::{first_back, next_back};
use tails::open::open_image;

// Whether the bytes are a catalogue.
pub fn check(image: &[u8]) -> Result<(), Refusal>
    ensures { outcome_of result ≡ check_of known image.now }
{
    let opened = open_image(image)?;
    check_total(&image[..opened.end], opened.size, opened.total)
}

// A body of a size, and the total that its tail tells: 3, 8, then 12.
pub fn check_total(image: &[u8], size: usize, total: u64) -> Result<(), Refusal>
    requires { Whole size image.now }
    ensures { outcome_of result ≡ checked_by (header_of size total 0) image.now }
{
    let members = check_sized(image, size)?;
    if total == members as u64 {
        Ok(())
    } else {
        Err(Refusal::Miscounted)
    }
}

// How many members a body of a size has: any 3 comes before any 8.
pub fn check_sized(image: &[u8], size: usize) -> Result<usize, Refusal>
    requires { Whole size image.now }
    ensures { checked_of result ≡ counted_check layout1 size image.now }
{
    let front = count_fronts(image, size)?;
    let back = count_backs(image, size)?;
    match first_early(image, size) {
        Some(table) => Err(Refusal::Early(table)),
        None => Ok(front + back),
    }
}

// The members of the front buckets, or the first of them that is unsound. What is added up are the free slots, the leading zeros of a word.
fn count_fronts(image: &[u8], size: usize) -> Result<usize, UnsoundBucket>
    requires { Whole size image.now }
    ensures { FrontsSay layout1 size image.now result }
{
    let end = 8 * size;
    let mut free = 0;
    for f in 0..end {
        let reading = sound_front_at(image, Front(f))?;
        free += FRONT_SLOTS - reading.members;
    }
    Ok(FRONT_SLOTS * end - free)
}

// The members of the backyard buckets, or the first of them that is unsound.
fn count_backs(image: &[u8], size: usize) -> Result<usize, UnsoundBucket>
    requires { Whole size image.now }
    ensures { BacksSay layout1 size image.now result }
{
    let mut members = 0;
    for j in 0..size + 7 {
        let reading = sound_back_at(image, size, Backyard(j))?;
        members += reading.members;
    }
    Ok(members)
}

// The table number of the first backyard bucket with a member before its turn.
fn first_early(image: &[u8], size: usize) -> Option<usize>
    requires { AllRead layout1 size image.now }
    ensures { result ≡ fault_of (early layout1 size (backyards size) 0 image.now) }
{
    for j in 0..size + 7 {
        if !bucket_in_turn(image, size, Backyard(j)) {
            return Some(table_of(size, Backyard(j)));
        }
    }
    None
}

// No member of a backyard bucket stands before its turn: they are looked at where they stand. A turn goes on by a cursor, which holds the word's
// zeros beside the slot, and an iterator of cursors would be a type and five laws more.
fn bucket_in_turn(image: &[u8], size: usize, bucket: Backyard) -> bool
    requires { AllRead layout1 size image.now × (bucket.0 < backyards size) }
    ensures { result ≡ all_in_turn layout1 size bucket.0 image.now (in_back layout1 size bucket.0 image.now) }
{
    let mine = back_bucket(image, size, bucket);
    let members = count_back(mine);
    let mut at = first_back(mine);
    while at.slot < members {
        let passed = next_back(mine, at);
        if !member_in_turn(image, size, bucket, passed.member) {
            return false;
        }
        at = passed.next;
    }
    true
}

// The front bucket of a backyard bucket's member holds 28, none larger than that member.
fn member_in_turn(image: &[u8], size: usize, bucket: Backyard, member: u32) -> bool
    requires { AllRead layout1 size image.now × (bucket.0 < backyards size) × Homed size bucket.0 (member % 16) }
    ensures { result ≡ home_in_turn layout1 (home size bucket.0 (member % 16)) (member / 16) image.now }
{
    let front = home_of(size, bucket, member % 16);
    let mine = bucket_of(image, front.0);
    if count_front(mine) != FRONT_SLOTS {
        return false;
    }
    largest_front(mine) <= member / 16
}
