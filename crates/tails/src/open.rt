// An image opened: its size by its length, then its tail.

ghost use Rattle.std.specs.Prelude.{◌≡◌, ◌-◌};
ghost use Rattle.crumbmap.specs.Layouts.{known};
ghost use Rattle.machine.specs.Images.{size_of};
ghost use Rattle.form.specs.Tails.{body};
ghost use Rattle.form.specs.Calls.{tail_of};
ghost use Rattle.answers.specs.Answers.{tailed_of};
ghost use Rattle.image.specs.Steps.ImageReads.{sizing, Whole};
ghost use Rattle.tails.specs.Steps.Openings.{TailSays, OpenSays};

use crate::Opened;
use crate::tail::{read_tail, slots_of};
use answers::{Refusal, Tail};
use image::place::size_of;

// "The new form is 64 bytes longer": the size of an image of so many bytes, none where no image has this length.
pub fn form_size(len: usize) -> Option<usize>
    ensures { result ≡ sizing (size_of (len - 64)) }
{
    if len < 64 {
        return None;
    }
    size_of(len - 64)
}

// What the tail of an image of a size tells, none where it is bad.
pub fn tail_at(image: &[u8], size: usize) -> Option<Tail>
    requires { Whole size (body image.now) }
    ensures { TailSays size image.now result }
{
    let end = image.len() - 64;
    read_tail(&image[end..], slots_of(size))
}

// The size of an image and what its tail tells: 1, then 11.
pub fn open_image(image: &[u8]) -> Result<Opened, Refusal>
    ensures { OpenSays image.now result }
{
    let size = form_size(image.len()).ok_or(Refusal::WrongLength)?;
    let tail = tail_at(image, size).ok_or(Refusal::BadTail)?;
    Ok(Opened {
        size,
        end: image.len() - 64,
        total: tail.total,
        changes: tail.changes,
    })
}

// What the tail of an image tells: "stock lists need the member total without a walk".
pub fn tail(image: &[u8]) -> Result<Tail, Refusal>
    ensures { tailed_of result ≡ tail_of known image.now }
{
    let opened = open_image(image)?;
    Ok(Tail {
        total: opened.total,
        changes: opened.changes,
    })
}
