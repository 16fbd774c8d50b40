// Which member leaves the backyard: the smallest of First(f) and Second(f), or a copy of a key.

ghost use Rattle.std.specs.Prelude.{◌≡◌};
ghost use Rattle.crumbmap.specs.Layouts.{layout1};
ghost use Rattle.image.specs.Steps.ImageReads.{BagRead, ReadFor};
ghost use Rattle.deletion.specs.Steps.Deletions.{least_in, copy_in, pick_of};

use crate::Departure;
use image::BackReading;
use image::back::find_at;
use image::place::back_bucket;
use search::list::first_carrying;

// The smallest member of First(f) and Second(f), if any, whose buckets were read.
pub(crate) fn least(image: &[u8], size: usize, a: BackReading, b: BackReading) -> Option<Departure>
    requires { BagRead layout1 size a.way image.now × BagRead layout1 size b.way image.now }
    ensures { result ≡ pick_of (least_in layout1 size a.way image.now) (least_in layout1 size b.way image.now) a.members b.members }
{
    let first = least_in(image, size, a);
    let second = least_in(image, size, b);
    pick(first, second, a.members, b.members)
}

// A copy of a key in First(f) or Second(f), if any, whose buckets were read for it.
pub(crate) fn copy(
    image: &[u8],
    size: usize,
    a: BackReading,
    b: BackReading,
    key: u32,
) -> Option<Departure>
    requires { ReadFor layout1 size key a image.now × ReadFor layout1 size key b image.now }
    ensures { result ≡ pick_of (copy_in layout1 size key a.way image.now) (copy_in layout1 size key b.way image.now) a.members b.members }
{
    let first = copy_in(image, size, a, key);
    let second = copy_in(image, size, b, key);
    pick(first, second, a.members, b.members)
}

// Of two members the smaller. "A value standing in both First and Second is taken from First if n0 > n1, else from Second."
fn pick(
    first: Option<Departure>,
    second: Option<Departure>,
    n0: usize,
    n1: usize,
) -> Option<Departure>
    ensures { result ≡ pick_of first second n0 n1 }
{
    let Some(a) = first else {
        return second;
    };
    let Some(b) = second else {
        return first;
    };
    if a.key < b.key {
        return first;
    }
    if b.key < a.key {
        return second;
    }
    if n1 < n0 { first } else { second }
}

// The smallest member of one of them: the first in its bucket that carries the crumb.
fn least_in(image: &[u8], size: usize, reading: BackReading) -> Option<Departure>
    requires { BagRead layout1 size reading.way image.now }
    ensures { result ≡ least_in layout1 size reading.way image.now }
{
    let way = reading.way;
    let carried = first_carrying(back_bucket(image, size, way.bucket), way.crumb)?;
    Some(Departure {
        way,
        slot: carried.slot,
        key: carried.key,
    })
}

// A copy of a key in one of them, the lowest.
fn copy_in(image: &[u8], size: usize, reading: BackReading, key: u32) -> Option<Departure>
    requires { ReadFor layout1 size key reading image.now }
    ensures { result ≡ copy_in layout1 size key reading.way image.now }
{
    let way = reading.way;
    let found = find_at(image, size, reading, key)?;
    Some(Departure {
        way,
        slot: found.slot,
        key,
    })
}
