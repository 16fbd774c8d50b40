// A front bucket filled with keys, and those that leave it.

ghost use Rattle.std.specs.Prelude.{◌≡◌, ◌+◌, ◌*◌, ◌<◌, ◌≤◌, length, take};
ghost use Rattle.crumbmap.specs.Layouts.{layout1, most_members};
ghost use Rattle.machine.specs.Images.{put_front};
ghost use Rattle.machine.specs.Steps.Spills.{stays, goes};
ghost use Rattle.spill.specs.Steps.Settling.{Sharing};

use crate::settle::settle;
use crumbmap::Front;
use crumbmap::layout::FRONT_SLOTS;
use image::front::fill_front_at;
use listing::lists::merge_into;

// A front bucket takes the keys of `a` and after them those of `b`, whatever its bytes were; those that leave it go into the start of
// `over`; how many.
pub fn fill_both(a: &[u32], b: &[u32], front: Front, over: &mut [u32], target: &mut [u8]) -> usize
    requires { Sharing layout1 a.now b.now over.old × (64 * front.0 + 64 ≤ length target.old) }
    ensures { (result ≤ most_members layout1)
        × (take result over.new ≡ goes layout1.front_slots b.now a.now)
        × (target.new ≡ put_front layout1 front.0 (stays layout1.front_slots b.now a.now) target.old) }
{
    let mut keys = [0u32; FRONT_SLOTS];
    let split = settle(a, b, over);
    merge_into(&a[..split.kept], &b[..split.taken], &mut keys);
    fill_front_at(target, front, &keys[..split.kept + split.taken]);
    split.gone
}

// How many of n ascending keys an empty front bucket keeps.
pub fn in_front(n: usize) -> usize
    ensures { (result ≤ n) × (result ≤ layout1.front_slots) × (result < layout1.front_slots → n ≤ result) }
{
    if n < FRONT_SLOTS {
        return n;
    }
    FRONT_SLOTS
}
