// What an insert does, found by reading alone: "If Front(f) has fewer than 28, g joins it. Otherwise read b0 and b1. If both hold 22: full.
// Else the largest of Front(f) and g goes to First(f) if n0 < n1, else to Second(f); the rest are Front(f)."

ghost use Rattle.std.specs.Prelude.{◌≡◌, ◌<◌};
ghost use Rattle.multiset.specs.Multisets.{added, largest};
ghost use Rattle.crumbmap.specs.Layouts.{layout1, keys};
ghost use Rattle.machine.specs.Images.{in_front};
ghost use Rattle.image.specs.Steps.ImageReads.{Placed, FrontFull};
ghost use Rattle.insertion.specs.Steps.Insertions.{Plans, FullAt, spilling_to};

use crate::taker::taker;
use crate::{Choice, InsertPlan, Spilling};
use answers::Refusal;
use crumbmap::Front;
use crumbmap::layout::FRONT_SLOTS;
use crumbmap::map::ways_of;
use image::back::read_backyard;
use image::front::read_front_at;
use image::place::bucket;
use image::{BackReading, Target};
use search::find::largest_front;

// The front bucket has a free slot, or its overflow has to go behind it.
pub fn plan(image: &[u8], target: Target) -> Result<InsertPlan, Refusal>
    requires { Placed layout1 target image.now }
    ensures { Plans layout1 target image.now result }
{
    let front = target.front;
    let reading = read_front_at(image, front, target.key)?;
    if reading.members < FRONT_SLOTS {
        return Ok(InsertPlan::Joins(reading.below));
    }
    plan_full(image, target, reading.below)
}

// The front bucket is full: b0 and b1 are read for its overflow.
fn plan_full(image: &[u8], target: Target, slot: usize) -> Result<InsertPlan, Refusal>
    requires { FullAt layout1 target slot image.now }
    ensures { Plans layout1 target image.now result }
{
    let size = target.size;
    let front = target.front;
    let over = overflow_of(image, front, target.key);
    let (a, b) = read_backyard(image, size, front, ways_of(front, size), over)?;
    let choice = taker(a.members, b.members).ok_or(Refusal::Full)?;
    let to = match choice {
        Choice::First => a,
        Choice::Second => b,
    };
    Ok(spills(over, slot, to))
}

// "The largest of Front(f) and g."
fn overflow_of(image: &[u8], front: Front, key: u32) -> u32
    requires { FrontFull layout1 front.0 image.now × (key < keys layout1) }
    ensures { (result ≡ largest (added key (in_front layout1 front.0 image.now))) × (result < keys layout1) }
{
    let largest = largest_front(bucket(image, front.0));
    if key < largest {
        return largest;
    }
    key
}

// The overflow goes to the backyard bucket of a reading, behind the members below it.
fn spills(over: u32, slot: usize, to: BackReading) -> InsertPlan
    ensures { result ≡ spilling_to over slot to }
{
    let way = to.way;
    InsertPlan::Spills(Spilling {
        over,
        slot,
        way,
        to: to.below,
    })
}
