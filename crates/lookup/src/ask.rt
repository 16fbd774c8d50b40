// Ask: "reads the front bucket; if g is not there, and Front(f) holds 28 and g exceeds its largest, b0, then, if not found, b1".

ghost use Rattle.std.specs.Prelude.{◌≡◌, Ok};
ghost use Rattle.crumbmap.specs.Layouts.{layout1, known};
ghost use Rattle.machine.specs.Machine.{reads_behind, ask_second, ask_at, denied};
ghost use Rattle.form.specs.Calls.{ask_of};
ghost use Rattle.answers.specs.Answers.{asked_of};
ghost use Rattle.image.specs.Steps.ImageReads.{Placed, Exceeds};

use crate::seek::seek;
use answers::{Asked, Place, Refusal};
use crumbmap::layout::FRONT_SLOTS;
use crumbmap::map::{coincide, first_of, second_of};
use image::Target;
use image::front::sound_front_at;
use image::place::{bucket, target_of};
use search::find::{find_front, largest_front};
use tails::open::open_image;

// Where the fingerprint of a hash stands and how often there, and how many buckets were read to tell.
pub fn ask(image: &[u8], hash: u64) -> Result<Asked, Refusal>
    ensures { asked_of result ≡ ask_of known image.now hash }
{
    let opened = open_image(image)?;
    ask_at(&image[..opened.end], target_of(opened.size, hash))
}

// What a hash names: the front bucket, then those behind it.
fn ask_at(image: &[u8], target: Target) -> Result<Asked, Refusal>
    requires { Placed layout1 target image.now }
    ensures { asked_of result ≡ ask_at layout1 target.size target.front.0 target.key image.now }
{
    let front = target.front;
    let key = target.key;
    let reading = sound_front_at(image, front)?;
    let b = bucket(image, front.0);
    if let Some(found) = find_front(b, key) {
        return Ok(Asked {
            reads: 1,
            place: Place::Front(found.slot),
            copies: found.copies,
        });
    }
    if reading.members < FRONT_SLOTS || key <= largest_front(b) {
        return Ok(none_in(1));
    }
    ask_behind(image, target)
}

// The backyard buckets of a front bucket that holds 28, all smaller. Where they are one, none of its members carries choice 0, and it is read once.
fn ask_behind(image: &[u8], target: Target) -> Result<Asked, Refusal>
    requires { Placed layout1 target image.now × Exceeds layout1 target.front.0 target.key image.now }
    ensures { asked_of result ≡ ask_at layout1 target.size target.front.0 target.key image.now }
{
    let size = target.size;
    let front = target.front;
    let key = target.key;
    if coincide(front, size) {
        return ask_second(image, target, 2);
    }
    match seek(image, size, first_of(front, size), key)? {
        Some(found) => Ok(Asked {
            reads: 2,
            place: Place::First(found.slot),
            copies: found.copies,
        }),
        None => ask_second(image, target, 3),
    }
}

// b1, the last of them: so many are read with it.
fn ask_second(image: &[u8], target: Target, reads: u32) -> Result<Asked, Refusal>
    requires { Placed layout1 target image.now × (reads ≡ reads_behind target.size target.front.0) }
    ensures { asked_of result ≡ ask_second layout1 target.size target.front.0 target.key image.now }
{
    let size = target.size;
    let front = target.front;
    let key = target.key;
    match seek(image, size, second_of(front, size), key)? {
        Some(found) => Ok(Asked {
            reads,
            place: Place::Second(found.slot),
            copies: found.copies,
        }),
        None => Ok(none_in(reads)),
    }
}

// Nothing was found in so many reads.
fn none_in(reads: u32) -> Asked
    ensures { asked_of (Ok result) ≡ denied reads }
{
    Asked {
        reads,
        place: Place::Nowhere,
        copies: 0,
    }
}
