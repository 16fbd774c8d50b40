// Count: "those in Front(f), 1 read; if Front(f) holds 28 and g is not below its largest, those in First(f) and Second(f) too, 3 reads", and 2 where
// b0 = b1.

ghost use Rattle.std.specs.Prelude.{◌≡◌, true};
ghost use Rattle.crumbmap.specs.Layouts.{layout1, known};
ghost use Rattle.crumbmap.specs.CrumbMap.{coincide as coinciding};
ghost use Rattle.machine.specs.Machine.{count_at};
ghost use Rattle.form.specs.Calls.{count_of};
ghost use Rattle.answers.specs.Answers.{counted_of};
ghost use Rattle.image.specs.Steps.ImageReads.{Placed};
ghost use Rattle.lookup.specs.Steps.Lookups.{Reaches};

use crate::seek::seek;
use answers::{Counted, Refusal};
use crumbmap::layout::FRONT_SLOTS;
use crumbmap::map::{coincide, second_of, ways_of};
use image::Target;
use image::back::{find_at, read_backyard};
use image::front::sound_front_at;
use image::place::{bucket, target_of};
use search::find::{copies_of, find_front, largest_front};
use tails::open::open_image;

// How many copies of a hash's fingerprint there are, and how many buckets were read to tell.
pub fn count(image: &[u8], hash: u64) -> Result<Counted, Refusal>
    ensures { counted_of result ≡ count_of known image.now hash }
{
    let opened = open_image(image)?;
    count_at(&image[..opened.end], target_of(opened.size, hash))
}

// What a hash names: the front bucket, then those behind it.
fn count_at(image: &[u8], target: Target) -> Result<Counted, Refusal>
    requires { Placed layout1 target image.now }
    ensures { counted_of result ≡ count_at layout1 target.size target.front.0 target.key image.now }
{
    let front = target.front;
    let key = target.key;
    let reading = sound_front_at(image, front)?;
    let b = bucket(image, front.0);
    let copies = copies_of(find_front(b, key));
    if reading.members < FRONT_SLOTS || key < largest_front(b) {
        return Ok(Counted { copies, reads: 1 });
    }
    count_behind(image, target, copies)
}

// The backyard buckets of a front bucket that holds 28, none larger; `here` copies stand in front.
fn count_behind(image: &[u8], target: Target, here: usize) -> Result<Counted, Refusal>
    requires { Reaches layout1 target here image.now }
    ensures { counted_of result ≡ count_at layout1 target.size target.front.0 target.key image.now }
{
    let size = target.size;
    let front = target.front;
    let key = target.key;
    if coincide(front, size) {
        return count_second(image, target, here);
    }
    let (a, b) = read_backyard(image, size, front, ways_of(front, size), key)?;
    let first = copies_of(find_at(image, size, a, key));
    let second = copies_of(find_at(image, size, b, key));
    Ok(Counted {
        copies: here + first + second,
        reads: 3,
    })
}

// The same where they are one, which is read once: none of the front bucket's members carries choice 0.
fn count_second(image: &[u8], target: Target, here: usize) -> Result<Counted, Refusal>
    requires { Reaches layout1 target here image.now × (coinciding target.size target.front.0 ≡ true) }
    ensures { counted_of result ≡ count_at layout1 target.size target.front.0 target.key image.now }
{
    let size = target.size;
    let front = target.front;
    let key = target.key;
    let second = copies_of(seek(image, size, second_of(front, size), key)?);
    Ok(Counted {
        copies: here + second,
        reads: 2,
    })
}
