// Delete: planned, then written, body and tail.

ghost use Rattle.std.specs.Prelude.{◌≡◌, ◌+◌};
ghost use Rattle.crumbmap.specs.Layouts.{layout1};
ghost use Rattle.answers.specs.Answers.{Deletes};
ghost use Rattle.image.specs.Steps.ImageReads.{Placed};
ghost use Rattle.tails.specs.Steps.Openings.{Opens};
ghost use Rattle.deletion.specs.Steps.Deletions.{DeletesAt, Stands, Refills, without, refilled};

use crate::plan::plan;
use crate::{DeletePlan, Departure, Refill};
use answers::Refusal;
use image::Target;
use image::back::remove_back_at;
use image::front::{remove_front_at, swap_front_at};
use image::place::target_of;
use tails::Opened;
use tails::open::open_image;
use tails::tail::{TOP, write_tail};

// One copy less of a hash's fingerprint.
pub fn delete(image: &mut [u8], hash: u64) -> Result<usize, Refusal>
    ensures { Deletes image.old hash result image.new }
{
    let opened = open_image(image)?;
    delete_opened(image, opened, hash)
}

// The same on an image that was opened: 13 before the body is read, and its tail once the body is written.
fn delete_opened(image: &mut [u8], opened: Opened, hash: u64) -> Result<usize, Refusal>
    requires { Opens opened image.old }
    ensures { Deletes image.old hash result image.new }
{
    if opened.changes == TOP {
        return Err(Refusal::Spent);
    }
    let end = opened.end;
    let target = target_of(opened.size, hash);
    let room = 0 < opened.total;
    let answer = delete_at(&mut image[..end], target, room)?;
    write_tail(&mut image[end..], opened.total - 1, opened.changes + 1);
    Ok(answer)
}

// What was planned is written, where the total has room for one less: 12 is known before any byte is written.
fn delete_at(image: &mut [u8], target: Target, room: bool) -> Result<usize, Refusal>
    requires { Placed layout1 target image.old }
    ensures { DeletesAt layout1 target room image.old result image.new }
{
    let planned = plan(image, target)?;
    if !room {
        return Err(Refusal::Miscounted);
    }
    match planned {
        DeletePlan::Leaves(slot) => {
            remove_front_at(image, target.front, slot, target.key);
            Ok(0)
        }
        DeletePlan::Refills(refill) => Ok(refill_from(image, target, refill)),
        DeletePlan::TakesOut(member) => Ok(take_out(image, target.size, member)),
    }
}

// A member of a backyard bucket takes the room of the copy that leaves in front.
fn refill_from(image: &mut [u8], target: Target, refill: Refill) -> usize
    requires { Refills layout1 target refill image.old }
    ensures { (result ≡ 1 + refill.member.way.bucket.0)
        × (image.new ≡ refilled layout1 target refill.member image.old) }
{
    let member = refill.member;
    swap_front_at(
        image,
        target.front,
        refill.slot,
        target.key,
        refill.to,
        member.key,
    );
    take_out(image, target.size, member)
}

// A member leaves its slot in a backyard bucket.
fn take_out(image: &mut [u8], size: usize, member: Departure) -> usize
    requires { Stands layout1 size member image.old }
    ensures { (result ≡ 1 + member.way.bucket.0) × (image.new ≡ without layout1 size member image.old) }
{
    let way = member.way;
    let bucket = way.bucket;
    remove_back_at(
        image,
        size,
        bucket,
        member.slot,
        member.key * 16 + way.crumb,
    );
    1 + bucket.0
}
