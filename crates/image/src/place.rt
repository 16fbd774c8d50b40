// Where a bucket of an image stands: the image's size, what a hash names in it, a backyard bucket's table number, and the 64 bytes of a bucket.
// Whoever reads a bucket gets its bytes here. Whoever writes one lends the part on: of a part from the middle that a function hands out to be written
// nothing is known today.

ghost use Rattle.std.specs.Prelude.{◌≡◌, ◌+◌, ◌*◌, ◌<◌, ◌≤◌, length};
ghost use Rattle.crumbmap.specs.Layouts.{layout1, fronts, backyards};
ghost use Rattle.machine.specs.Images.{size_of, bucket_at};
ghost use Rattle.image.specs.Steps.ImageReads.{sizing, Locates, BackIn};

use crate::Target;
use crumbmap::Backyard;
use crumbmap::fingerprint::{front_of, key_of};

// "A lent byte slice of 576 × B + 448 bytes, B from 1 to 65,536": B, none where no image has this length.
pub fn size_of(len: usize) -> Option<usize>
    ensures { result ≡ sizing (size_of len) }
{
    if len < 1024 {
        return None;
    }
    let size = (len - 448) / 576;
    if 65536 < size {
        return None;
    }
    if len == 576 * size + 448 {
        Some(size)
    } else {
        None
    }
}

// What a hash names in an image of a size.
pub fn target_of(size: usize, hash: u64) -> Target
    requires { (0 < size) × (size ≤ 65536) }
    ensures { Locates layout1 size hash result }
{
    Target {
        size,
        front: front_of(hash, size),
        key: key_of(hash),
    }
}

// "The table number of backyard bucket j is F + j."
pub fn table_of(size: usize, bucket: Backyard) -> usize
    requires { (size ≤ 65536) × (bucket.0 < backyards size) }
    ensures { result ≡ fronts size + bucket.0 }
{
    let j = bucket.0;
    8 * size + j
}

// "Each bucket is worked on as a 64-byte stretch inside the image": the bytes of the bucket of a table number, to be read.
pub fn bucket(image: &[u8], table: usize) -> &[u8]
    requires { 64 * table + 64 ≤ length image.now }
    ensures { (result.now ≡ bucket_at table image.now) × (length result.now ≡ 64) }
{
    let at = 64 * table;
    let end = at + 64;
    &image[at..end]
}

// The bytes of backyard bucket `j`.
pub fn back_bucket(image: &[u8], size: usize, j: Backyard) -> &[u8]
    requires { BackIn size j.0 image.now }
    ensures { (result.now ≡ bucket_at (fronts size + j.0) image.now) × (length result.now ≡ 64) }
{
    bucket(image, table_of(size, j))
}
