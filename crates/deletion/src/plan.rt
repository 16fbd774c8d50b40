// What a delete does, found by reading alone: "If g is in Front(f), one copy goes. If Front(f) held 28, b0 and b1 are read and the smallest
// member of First(f) and Second(f), if any, refills it. If g is not in Front(f), and Front(f) holds 28 and g exceeds its largest, b0 and b1
// are read and one copy goes from there; else absent."

ghost use Rattle.std.specs.Prelude.{◌≡◌, ◌<◌};
ghost use Rattle.multiset.specs.Multisets.{removed, below, copies};
ghost use Rattle.crumbmap.specs.Layouts.{layout1, keys};
ghost use Rattle.machine.specs.Images.{in_front};
ghost use Rattle.image.specs.Steps.ImageReads.{Placed, FrontFull, Exceeds};
ghost use Rattle.deletion.specs.Steps.Deletions.{Plans, FullWith, Elsewhere};

use crate::behind::{copy, least};
use crate::{DeletePlan, Refill};
use answers::Refusal;
use crumbmap::Front;
use crumbmap::layout::FRONT_SLOTS;
use crumbmap::map::ways_of;
use image::Target;
use image::back::read_backyard;
use image::front::{read_front_at, sound_front_at};
use image::place::bucket;
use search::find::{find_front, largest_front};

// The copy stands in the front bucket, or not.
pub fn plan(image: &[u8], target: Target) -> Result<DeletePlan, Refusal>
    requires { Placed layout1 target image.now }
    ensures { Plans layout1 target image.now result }
{
    let front = target.front;
    let key = target.key;
    let reading = sound_front_at(image, front)?;
    let Some(found) = find_front(bucket(image, front.0), key) else {
        return plan_other(image, target, reading.members);
    };
    if reading.members < FRONT_SLOTS {
        return Ok(DeletePlan::Leaves(found.slot));
    }
    plan_refill(image, target, found.slot)
}

// The copy at a slot leaves a full front bucket: the smallest member behind takes its room.
fn plan_refill(image: &[u8], target: Target, slot: usize) -> Result<DeletePlan, Refusal>
    requires { FullWith layout1 target slot image.now }
    ensures { Plans layout1 target image.now result }
{
    let size = target.size;
    let front = target.front;
    let key = target.key;
    let (a, b) = read_backyard(image, size, front, ways_of(front, size), key)?;
    match least(image, size, a, b) {
        None => Ok(DeletePlan::Leaves(slot)),
        Some(member) => Ok(DeletePlan::Refills(Refill {
            slot,
            to: rank_without(image, front, key, member.key),
            member,
        })),
    }
}

// How many members of a full front bucket are below a key once a copy of another has left it: all others where the key exceeds them,
// else by reading the bucket, which is sound, for that key.
fn rank_without(image: &[u8], front: Front, gone: u32, key: u32) -> usize
    requires { FrontFull layout1 front.0 image.now × (0 < copies gone (in_front layout1 front.0 image.now)) × (key < keys layout1) }
    ensures { result ≡ below key (removed gone (in_front layout1 front.0 image.now)) }
{
    if largest_front(bucket(image, front.0)) < key {
        return FRONT_SLOTS - 1;
    }
    let Ok(reading) = read_front_at(image, front, key) else {
        return 0;
    };
    if gone < key {
        return reading.below - 1;
    }
    reading.below
}

// No copy in front: one may stand behind a full front bucket, all smaller.
fn plan_other(image: &[u8], target: Target, n: usize) -> Result<DeletePlan, Refusal>
    requires { Elsewhere layout1 target n image.now }
    ensures { Plans layout1 target image.now result }
{
    if n < FRONT_SLOTS || target.key <= largest_front(bucket(image, target.front.0)) {
        return Err(Refusal::Absent);
    }
    plan_behind(image, target)
}

// A copy leaves First(f) or Second(f).
fn plan_behind(image: &[u8], target: Target) -> Result<DeletePlan, Refusal>
    requires { Placed layout1 target image.now × Exceeds layout1 target.front.0 target.key image.now }
    ensures { Plans layout1 target image.now result }
{
    let size = target.size;
    let front = target.front;
    let key = target.key;
    let (a, b) = read_backyard(image, size, front, ways_of(front, size), key)?;
    let member = copy(image, size, a, b, key).ok_or(Refusal::Absent)?;
    Ok(DeletePlan::TakesOut(member))
}
