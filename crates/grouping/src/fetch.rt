// A row's front buckets are loaded before any is tested: no load waits for another, so that many buckets are on their way from memory at once.

ghost use Rattle.std.specs.Prelude.{◌≡◌};
ghost use Rattle.image.specs.Steps.ImageReads.{Whole};
ghost use Rattle.grouping.specs.Steps.Grouping.{fetched};

use crate::State;
use crumbmap::fingerprint::front_of;
use image::place::bucket;

// One byte of the hash's front bucket is loaded. The bytes are added up since a load whose value nobody keeps is not made; nobody reads the sum.
pub fn fetch(image: &[u8], s: State, hash: u64) -> State
    requires { Whole s.size image.now }
    ensures { result ≡ fetched image.now s hash }
{
    let front = front_of(hash, s.size);
    let b = bucket(image, front.0);
    State {
        total: s.total.wrapping_add(b[0] as usize),
        ..s
    }
}
