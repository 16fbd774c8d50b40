// Which keys of two ascending lists share the slots of a front bucket, and which leave it, in the order in which one-by-one insertion sends
// them behind.

ghost use Rattle.std.specs.Prelude.{◌≡◌, ◌≤◌, length, take, ltb};
ghost use Rattle.multiset.specs.Multisets.{largest};
ghost use Rattle.crumbmap.specs.Layouts.{layout1};
ghost use Rattle.spill.specs.Steps.Settling.{Sharing, Settled};

use crate::Split;
use crumbmap::layout::FRONT_SLOTS;

// The keys of `b` put in after those of `a`: what stays is the start of either, what leaves goes into the start of `over`.
pub(crate) fn settle(a: &[u32], b: &[u32], over: &mut [u32]) -> Split
    requires { Sharing layout1 a.now b.now over.old }
    ensures { Settled layout1 a.now b.now result over.new }
{
    let mut kept = a.len();
    let mut taken = 0;
    let mut gone = 0;
    for &key in b {
        if kept + taken < FRONT_SLOTS {
            taken += 1;
        } else if gives_way(a, kept, key) {
            kept -= 1;
            over[gone] = a[kept];
            gone += 1;
            taken += 1;
        } else {
            over[gone] = key;
            gone += 1;
        }
    }
    Split { kept, taken, gone }
}

// The last of a's first `kept` is larger than the key.
fn gives_way(a: &[u32], kept: usize, key: u32) -> bool
    requires { kept ≤ length a.now }
    ensures { result ≡ ltb key (largest (take kept a.now)) }
{
    if kept == 0 {
        return false;
    }
    key < a[kept - 1]
}
