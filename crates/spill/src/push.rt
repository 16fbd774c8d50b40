// Keys behind a front bucket, one after the other.

ghost use Rattle.std.specs.Prelude.{◌≡◌, [], ◌∷◌, ◌+◌, ◌*◌, ◌<◌};
ghost use Rattle.multiset.specs.Multisets.{added, Below};
ghost use Rattle.crumbmap.specs.Layouts.{layout1, keys as allKeys};
ghost use Rattle.words.specs.Select.{select_table};
ghost use Rattle.machine.specs.Images.{in_back, put_back};
ghost use Rattle.machine.specs.Steps.Spills.{push_all};
ghost use Rattle.listing.specs.Steps.Listings.{BackyardRead};
ghost use Rattle.spill.specs.Steps.Settling.{Joinable, reached};

use crumbmap::map::{first_of, second_of};
use crumbmap::{Front, Overflow};
use image::back::insert_back_at;
use image::place::back_bucket;
use insertion::Choice;
use insertion::taker::taker;
use search::find::{count_back, rank_back};

// Keys behind a front bucket, one after the other, until both backyard buckets are full.
pub fn push_all(table: &[u8], keys: &[u32], size: usize, front: Front, target: &mut [u8]) -> bool
    requires { (table.now ≡ select_table) × BackyardRead layout1 size front.0 target.old × Below (allKeys layout1) keys.now }
    ensures { (reached result target.new ≡ push_all layout1 size front.0 keys.now target.old)
        × BackyardRead layout1 size front.0 target.new }
{
    for &key in keys {
        if !push(table, target, size, front, key) {
            return false;
        }
    }
    true
}

// A key behind a front bucket, by the member counts of its two backyard buckets, unless both are full.
fn push(table: &[u8], image: &mut [u8], size: usize, front: Front, key: u32) -> bool
    requires { (table.now ≡ select_table) × BackyardRead layout1 size front.0 image.old × (key < allKeys layout1) }
    ensures { (reached result image.new ≡ push_all layout1 size front.0 (key ∷ []) image.old)
        × BackyardRead layout1 size front.0 image.new }
{
    let first = first_of(front, size);
    let second = second_of(front, size);
    let n0 = count_back(back_bucket(image, size, first.bucket));
    let n1 = count_back(back_bucket(image, size, second.bucket));
    let Some(choice) = taker(n0, n1) else {
        return false;
    };
    let way = match choice {
        Choice::First => first,
        Choice::Second => second,
    };
    put_behind(table, image, size, way, key);
    true
}

// A key joins a sound backyard bucket that has a free slot, with the crumb that it carries there.
fn put_behind(table: &[u8], image: &mut [u8], size: usize, way: Overflow, key: u32)
    requires { (table.now ≡ select_table) × Joinable layout1 size way key image.old }
    ensures { image.new ≡ put_back layout1 size way.bucket.0
        (added (key * 16 + way.crumb) (in_back layout1 size way.bucket.0 image.old)) image.old }
{
    let member = key * 16 + way.crumb;
    let slot = rank_back(table, back_bucket(image, size, way.bucket), member);
    insert_back_at(image, size, way.bucket, slot, member);
}
