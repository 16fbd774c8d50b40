// Fresh: "every bucket empty (word 2^36 − 1, else 0)", and a tail that begins anew.

ghost use Rattle.std.specs.Prelude.{◌≡◌};
ghost use Rattle.answers.specs.Answers.{Freshens};

use crate::open::form_size;
use crate::tail::start_tail;
use answers::Refusal;
use image::fresh::clear_all;

// The image becomes an empty catalogue, whatever its bytes were.
pub fn fresh(image: &mut [u8]) -> Result<(), Refusal>
    ensures { Freshens image.old result image.new }
{
    let size = form_size(image.len()).ok_or(Refusal::WrongLength)?;
    let end = image.len() - 64;
    clear_all(&mut image[..end], 9 * size + 7);
    start_tail(&mut image[end..], 0);
    Ok(())
}
