// "The other checks a new one and writes the old bytes again, dropping the tail."

ghost use Rattle.form.specs.Tails.{body};
ghost use Rattle.answers.specs.Answers.{Starts, Detaches};
ghost use Rattle.image.specs.Steps.ImageReads.{Whole};
ghost use Rattle.tails.specs.Steps.Openings.{header_of};
ghost use Rattle.moving.specs.Steps.Moves.{detach_at, body_checked};

use crate::share::shared_size;
use answers::Refusal;
use image::copy::copy_bytes;
use image::place::size_of;
use tails::open::{form_size, tail_at};
use validation::check::check_total;

// An image of the form with a tail into a target of document 01's form.
pub fn detach(image: &[u8], target: &mut [u8]) -> Result<(), Refusal>
    ensures { Detaches image.now target.old result target.new }
{
    let size = shared_size(form_size(image.len()), size_of(target.len()))?;
    detach_sized(image, size, target)
}

// Both of one size: 11.
fn detach_sized(image: &[u8], size: usize, target: &mut [u8]) -> Result<(), Refusal>
    requires { Whole size (body image.now) × Whole size target.old }
    ensures { Starts (detach_at size image.now) target.old result target.new }
{
    let tail = tail_at(image, size).ok_or(Refusal::BadTail)?;
    let end = image.len() - 64;
    detach_told(&image[..end], size, tail.total, target)
}

// A body, and the total that its tail tells: 3, 8, then 12.
fn detach_told(b: &[u8], size: usize, total: u64, target: &mut [u8]) -> Result<(), Refusal>
    requires { Whole size b.now × Whole size target.old }
    ensures { Starts (body_checked (header_of size total 0) b.now) target.old result target.new }
{
    check_total(b, size, total)?;
    copy_bytes(b, target);
    Ok(())
}
