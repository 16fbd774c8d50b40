// One backyard bucket of an image, and the two of a front bucket: read whole and written in place.

ghost use Rattle.std.specs.Prelude.{◌≡◌, ◌+◌, ◌*◌, ◌<◌};
ghost use Rattle.multiset.specs.Multisets.{found_in, added, removed};
ghost use Rattle.crumbmap.specs.Layouts.{layout1, keys};
ghost use Rattle.crumbmap.specs.Steps.Places.{LeadsBoth};
ghost use Rattle.search.specs.Steps.Searches.{search_of};
ghost use Rattle.machine.specs.Images.{in_back, put_back};
ghost use Rattle.image.specs.Steps.ImageReads.{At, FrontIn, BackIn, BackRead, BackSays, WaySays, BackyardSays, BagRead, ReadFor, BackJoin};

use crate::BackReading;
use crate::place::{back_bucket, table_of};
use answers::UnsoundBucket;
use crumbmap::{Backyard, Front, Overflow, Ways};
use edits::edit::{insert_back, remove_back};
use minifilter::Reading;
use minifilter::read::{quick_back, read_back};
use search::Found;
use search::find::{find_back, seek_back};

// A backyard bucket, read whole, and how many of its members are below one.
pub fn read_back_at(
    image: &[u8],
    size: usize,
    bucket: Backyard,
    member: u32,
) -> Result<Reading, UnsoundBucket>
    requires { BackIn size bucket.0 image.now × (member < keys layout1 * 16) }
    ensures { BackSays layout1 size bucket.0 member image.now result }
{
    let Some(reading) = read_back(back_bucket(image, size, bucket), size, bucket, member) else {
        return Err(UnsoundBucket(table_of(size, bucket)));
    };
    Ok(reading)
}

// The same where nobody asks for a member.
pub fn sound_back_at(image: &[u8], size: usize, bucket: Backyard) -> Result<Reading, UnsoundBucket>
    requires { BackIn size bucket.0 image.now }
    ensures { BackSays layout1 size bucket.0 0 image.now result }
{
    match quick_back(back_bucket(image, size, bucket), size, bucket) {
        Some(reading) => Ok(reading),
        None => read_back_at(image, size, bucket, 0),
    }
}

// A member joins a backyard bucket that has a free slot, behind the members below it.
pub fn insert_back_at(image: &mut [u8], size: usize, bucket: Backyard, slot: usize, member: u32)
    requires { BackJoin layout1 size bucket.0 slot member image.old }
    ensures { image.new ≡ put_back layout1 size bucket.0 (added member (in_back layout1 size bucket.0 image.old)) image.old }
{
    let at = 64 * table_of(size, bucket);
    let end = at + 64;
    insert_back(&mut image[at..end], slot, member);
}

// The member at a slot leaves a backyard bucket.
pub fn remove_back_at(image: &mut [u8], size: usize, bucket: Backyard, slot: usize, member: u32)
    requires { BackRead layout1 size bucket.0 image.old × At member slot (in_back layout1 size bucket.0 image.old) }
    ensures { image.new ≡ put_back layout1 size bucket.0 (removed member (in_back layout1 size bucket.0 image.old)) image.old }
{
    let at = 64 * table_of(size, bucket);
    let end = at + 64;
    remove_back(&mut image[at..end], slot, member);
}

// Both backyard buckets of a front bucket, read whole for a key with the crumb that it carries there. The caller brings the ways to them: so the
// function is small enough to become part of its callers, which a full insert feels.
pub fn read_backyard(
    image: &[u8],
    size: usize,
    front: Front,
    ways: Ways,
    key: u32,
) -> Result<(BackReading, BackReading), UnsoundBucket>
    requires { FrontIn size front.0 image.now × LeadsBoth size front.0 ways × (key < keys layout1) }
    ensures { BackyardSays layout1 size front.0 key image.now result }
{
    let first = read_way(image, size, ways.first, key)?;
    let second = read_way(image, size, ways.second, key)?;
    Ok((first, second))
}

// The backyard bucket at a way, read whole for a key with the crumb that it carries there.
pub fn read_way(
    image: &[u8],
    size: usize,
    way: Overflow,
    key: u32,
) -> Result<BackReading, UnsoundBucket>
    requires { BackIn size way.bucket.0 image.now × (way.crumb < 16) × (key < keys layout1) }
    ensures { WaySays layout1 size way key image.now result }
{
    let reading = read_back_at(image, size, way.bucket, key * 16 + way.crumb)?;
    Ok(BackReading {
        way,
        members: reading.members,
        below: reading.below,
    })
}

// Where a key stands in a backyard bucket that was read for it, with the crumb that it carries there.
pub fn find_at(image: &[u8], size: usize, reading: BackReading, key: u32) -> Option<Found>
    requires { ReadFor layout1 size key reading image.now }
    ensures { result ≡ search_of (found_in (key * 16 + reading.way.crumb) (in_back layout1 size reading.way.bucket.0 image.now)) }
{
    let way = reading.way;
    let b = back_bucket(image, size, way.bucket);
    find_back(b, reading.below, key * 16 + way.crumb)
}

// The same where the bucket was read before, for another key.
pub fn seek_at(image: &[u8], size: usize, way: Overflow, key: u32) -> Option<Found>
    requires { BagRead layout1 size way image.now × (key < keys layout1) }
    ensures { result ≡ search_of (found_in (key * 16 + way.crumb) (in_back layout1 size way.bucket.0 image.now)) }
{
    seek_back(back_bucket(image, size, way.bucket), key * 16 + way.crumb)
}
