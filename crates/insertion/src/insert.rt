// Insert: planned, then written, body and tail.

ghost use Rattle.std.specs.Prelude.{◌≡◌, ◌+◌};
ghost use Rattle.crumbmap.specs.Layouts.{layout1};
ghost use Rattle.answers.specs.Answers.{Inserts};
ghost use Rattle.image.specs.Steps.ImageReads.{Placed};
ghost use Rattle.tails.specs.Steps.Openings.{Opens};
ghost use Rattle.insertion.specs.Steps.Insertions.{InsertsAt, Spills, spilled};

use crate::plan::plan;
use crate::{InsertPlan, Spilling};
use answers::Refusal;
use crumbmap::layout::FRONT_SLOTS;
use image::Target;
use image::back::insert_back_at;
use image::front::{insert_front_at, swap_front_at};
use image::place::target_of;
use tails::Opened;
use tails::open::open_image;
use tails::tail::{TOP, slots_of, write_tail};

// One more copy of a hash's fingerprint.
pub fn insert(image: &mut [u8], hash: u64) -> Result<usize, Refusal>
    ensures { Inserts image.old hash result image.new }
{
    let opened = open_image(image)?;
    insert_opened(image, opened, hash)
}

// The same on an image that was opened: 13 before the body is read, and its tail once the body is written.
fn insert_opened(image: &mut [u8], opened: Opened, hash: u64) -> Result<usize, Refusal>
    requires { Opens opened image.old }
    ensures { Inserts image.old hash result image.new }
{
    if opened.changes == TOP {
        return Err(Refusal::Spent);
    }
    let end = opened.end;
    let target = target_of(opened.size, hash);
    let room = opened.total < slots_of(opened.size);
    let answer = insert_at(&mut image[..end], target, room)?;
    write_tail(&mut image[end..], opened.total + 1, opened.changes + 1);
    Ok(answer)
}

// What was planned is written, where the total has room for one more: 12 is known before any byte is written.
fn insert_at(image: &mut [u8], target: Target, room: bool) -> Result<usize, Refusal>
    requires { Placed layout1 target image.old }
    ensures { InsertsAt layout1 target room image.old result image.new }
{
    let planned = plan(image, target)?;
    if !room {
        return Err(Refusal::Miscounted);
    }
    match planned {
        InsertPlan::Joins(slot) => {
            insert_front_at(image, target.front, slot, target.key);
            Ok(0)
        }
        InsertPlan::Spills(spilling) => Ok(spill(image, target, spilling)),
    }
}

// The key takes the place of the largest in front, where that is the overflow; the overflow joins its backyard bucket.
fn spill(image: &mut [u8], target: Target, spilling: Spilling) -> usize
    requires { Spills layout1 target spilling image.old }
    ensures { (result ≡ 1 + spilling.way.bucket.0)
        × (image.new ≡ spilled layout1 target spilling.way image.old) }
{
    let front = target.front;
    let key = target.key;
    let over = spilling.over;
    let way = spilling.way;
    let bucket = way.bucket;
    if key < over {
        swap_front_at(image, front, FRONT_SLOTS - 1, over, spilling.slot, key);
    }
    insert_back_at(
        image,
        target.size,
        bucket,
        spilling.to,
        over * 16 + way.crumb,
    );
    1 + bucket.0
}
