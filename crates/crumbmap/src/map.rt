// The map (algorithm 1): a front bucket's two backyard buckets with the crumbs kept there, and the way back.

ghost use Rattle.std.specs.Prelude.{◌≡◌, true, false, ◌<◌, ◌≤◌};
ghost use Rattle.std.proofs.Math.Option.{some};
ghost use Rattle.crumbmap.specs.Layouts.{fronts, backyards};
ghost use Rattle.crumbmap.specs.CrumbMap.{stride, coincide as coinciding, home};
ghost use Rattle.crumbmap.specs.Steps.Places.{Leads, LeadsBoth, Strided, Homed};

use crate::crumb::{choice_of, digit_of};
use crate::{Backyard, Front, Overflow, Strides, Ways};

// Choice 0: "b0 = floor(f / 8), d0 = f mod 8".
pub fn first_of(front: Front, size: usize) -> Overflow
    requires { (front.0 < fronts size) × (size ≤ 65536) }
    ensures { Leads true size front.0 result }
{
    let f = front.0;
    Overflow {
        bucket: Backyard(f / 8),
        crumb: (f % 8) as u32,
    }
}

// Choice 1: "d1 = b0 mod 8, K = floor(B / 8) + 1, b1 = floor(b0 / 8) + d0 × K".
pub fn second_of(front: Front, size: usize) -> Overflow
    requires { (front.0 < fronts size) × (size ≤ 65536) }
    ensures { Leads false size front.0 result }
{
    let f = front.0;
    let b0 = f / 8;
    let stride = stride_of(size);
    Overflow {
        bucket: Backyard(b0 / 8 + f % 8 * stride),
        crumb: (8 + b0 % 8) as u32,
    }
}

// Both.
pub fn ways_of(front: Front, size: usize) -> Ways
    requires { (front.0 < fronts size) × (size ≤ 65536) }
    ensures { LeadsBoth size front.0 result }
{
    Ways {
        first: first_of(front, size),
        second: second_of(front, size),
    }
}

// "b0 = b1": whether a front bucket's two backyard buckets coincide.
pub fn coincide(front: Front, size: usize) -> bool
    requires { (front.0 < fronts size) × (size ≤ 65536) }
    ensures { result ≡ coinciding size front.0 }
{
    first_of(front, size).bucket.0 == second_of(front, size).bucket.0
}

// "K = floor(B / 8) + 1."
pub fn stride_of(size: usize) -> usize
    requires { size ≤ 65536 }
    ensures { (result ≡ stride size) × (0 < result) × (result ≤ 8193) }
{
    size / 8 + 1
}

// "e = floor(j / K), t = j mod K": of a front bucket that choice 1 leads back to, d0 and floor(b0 / 8).
pub fn strides_of(size: usize, from: Backyard) -> Strides
    requires { (size ≤ 65536) × (from.0 < backyards size) }
    ensures { Strided size from.0 result }
{
    let j = from.0;
    let stride = stride_of(size);
    Strides {
        whole: j / stride,
        rest: j % stride,
    }
}

// The way back from a backyard bucket and a crumb that is valid there: "choice 0, digit d gives f = 8j + d", "choice 1 .. f = 64t + 8d + e".
pub fn home_of(size: usize, from: Backyard, crumb: u32) -> Front
    requires { (size ≤ 65536) × (from.0 < backyards size) × (crumb < 16) × Homed size from.0 crumb }
    ensures { home size from.0 crumb ≡ some result.0 }
{
    let digit = digit_of(crumb);
    if choice_of(crumb) == 0 {
        let j = from.0;
        return Front(8 * j + digit);
    }
    let strides = strides_of(size, from);
    Front(64 * strides.rest + 8 * digit + strides.whole)
}
