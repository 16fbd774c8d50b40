// "One move checks an old image and writes the new form, change count 0."

ghost use Rattle.std.specs.Prelude.{◌≡◌, ◌+◌, ◌++◌, length};
ghost use Rattle.form.specs.Tails.{body, tail_bytes, started};
ghost use Rattle.answers.specs.Answers.{Starts, Attaches};
ghost use Rattle.image.specs.Steps.ImageReads.{Whole};
ghost use Rattle.moving.specs.Steps.Moves.{attach_at};

use crate::share::shared_size;
use answers::Refusal;
use image::copy::copy_bytes;
use image::place::size_of;
use tails::open::form_size;
use tails::tail::start_tail;
use validation::check::check_sized;

// An image of document 01's form into a target of the form with a tail.
pub fn attach(old: &[u8], target: &mut [u8]) -> Result<(), Refusal>
    ensures { Attaches old.now target.old result target.new }
{
    let size = shared_size(size_of(old.len()), form_size(target.len()))?;
    attach_sized(old, size, target)
}

// Both of one size: 3, then 8.
fn attach_sized(old: &[u8], size: usize, target: &mut [u8]) -> Result<(), Refusal>
    requires { Whole size old.now × Whole size (body target.old) }
    ensures { Starts (attach_at size old.now) target.old result target.new }
{
    let members = check_sized(old, size)?;
    write_form(old, members as u64, target);
    Ok(())
}

// A body, and a tail that begins anew behind it.
fn write_form(b: &[u8], total: u64, target: &mut [u8])
    requires { length target.old ≡ length b.now + 64 }
    ensures { target.new ≡ b.now ++ tail_bytes 1 (started total) }
{
    let end = b.len();
    copy_bytes(b, &mut target[..end]);
    start_tail(&mut target[end..], total);
}
