// A key sought behind its front bucket, in one of the two backyard buckets.

ghost use Rattle.std.specs.Prelude.{◌≡◌, ◌+◌, ◌*◌, ◌<◌};
ghost use Rattle.crumbmap.specs.Layouts.{layout1, keys};
ghost use Rattle.machine.specs.Images.{back_at};
ghost use Rattle.image.specs.Steps.ImageReads.{BackIn};
ghost use Rattle.lookup.specs.Steps.Lookups.{Sought};

use answers::UnsoundBucket;
use crumbmap::Overflow;
use image::back::read_back_at;
use image::place::back_bucket;
use search::Found;
use search::find::find_back;

// One backyard bucket is read, and the key sought with the crumb that it carries there.
pub fn seek(
    image: &[u8],
    size: usize,
    way: Overflow,
    key: u32,
) -> Result<Option<Found>, UnsoundBucket>
    requires { BackIn size way.bucket.0 image.now × (way.crumb < 16) × (key < keys layout1) }
    ensures { Sought (key * 16 + way.crumb) (back_at layout1 size way.bucket.0 image.now) result }
{
    let bucket = way.bucket;
    let member = key * 16 + way.crumb;
    let reading = read_back_at(image, size, bucket, member)?;
    Ok(find_back(back_bucket(image, size, bucket), reading.below, member))
}
