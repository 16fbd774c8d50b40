// The valid crumbs of a backyard bucket, all at once.

ghost use Rattle.std.specs.Prelude.{◌≡◌, ◌&&◌, ℕ, ◌+◌, ◌*◌, ◌≤◌, ◌<◌, ltb};
ghost use Rattle.crumbmap.specs.Layouts.{backyards};
ghost use Rattle.crumbmap.specs.CrumbMap.{first_home, second_home, home};
ghost use Rattle.crumbmap.specs.Steps.Places.{Strided};
ghost use Rattle.crumbmap.specs.Steps.Marks.{Marks};

use crate::map::strides_of;
use crate::{Backyard, Strides};

// Bit c is 1 where crumb c is valid in backyard bucket `from` of an image of size `size`.
pub fn valid_crumbs(size: usize, from: Backyard) -> u32
    requires { (size ≤ 65536) × (from.0 < backyards size) }
    ensures { Marks 16 (home size from.0) result }
{
    let strides = strides_of(size, from);
    first_marks(size, from, strides) + 256 * second_marks(size, from, strides)
}

// Choice 0: "valid if j < B", whatever the digit, but for the one whose front bucket has b0 = b1 = j. Where there is one, choice 1 leads back to it
// with d1 = b0 mod 8 as its digit: its d0 is e, and its floor(b0 / 8) is t.
fn first_marks(size: usize, from: Backyard, strides: Strides) -> u32
    requires { (size ≤ 65536) × Strided size from.0 strides }
    ensures { Marks 8 (first_home size from.0) result }
{
    let j = from.0;
    if size <= j {
        return 0;
    }
    if strides.rest == j / 8 {
        return 255 - (1u32 << strides.whole);
    }
    255
}

// Choice 1: the lowest digits.
fn second_marks(size: usize, from: Backyard, strides: Strides) -> u32
    requires { (size ≤ 65536) × Strided size from.0 strides }
    ensures { Marks 8 (second_home size from.0) result }
{
    (1u32 << second_digits(size, strides)) - 1
}

// How many: "valid if e < 8 and 8t + d < B", the lowest B − 8t of eight.
fn second_digits(size: usize, strides: Strides) -> usize
    requires { (size ≤ 65536) × (8 * strides.rest ≤ size) }
    ensures { (result ≤ 8) × ((d : ℕ) → d < 8 → ltb strides.whole 8 && ltb (8 * strides.rest + d) size ≡ ltb d result) }
{
    if 8 <= strides.whole {
        return 0;
    }
    let left = size - 8 * strides.rest;
    if 8 <= left { 8 } else { left }
}
