// All buckets of an image emptied: "every bucket empty (word 2^36 − 1, else 0)".

ghost use Rattle.std.specs.Prelude.{◌≡◌, ◌*◌, ◌+◌, ◌<◌, ◌≤◌, [], length};
ghost use Rattle.crumbmap.specs.Layouts.{layout1};
ghost use Rattle.buckets.specs.Buckets.{front_bytes};
ghost use Rattle.machine.specs.Images.{repeated, put};

use edits::edit::clear;

// Every bucket in one pass. An empty backyard bucket has the bytes of an empty front bucket.
pub fn clear_all(image: &mut [u8], buckets: usize)
    requires { length image.old ≡ 64 * buckets }
    ensures { image.new ≡ repeated buckets (front_bytes layout1 []) }
{
    for i in 0..buckets {
        clear_at(image, i);
    }
}

// The bucket of a table number becomes empty.
pub(crate) fn clear_at(image: &mut [u8], table: usize)
    requires { 64 * table + 64 ≤ length image.old }
    ensures { image.new ≡ put table (front_bytes layout1 []) image.old }
{
    let at = 64 * table;
    let end = at + 64;
    clear(&mut image[at..end]);
}
