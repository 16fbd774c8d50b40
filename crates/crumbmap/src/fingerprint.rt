// The fingerprint of a 64-bit hash: front bucket, mini-bucket and tag, the key of mini-bucket and tag, and the whole number g.

ghost use Rattle.std.specs.Prelude.{◌≡◌, ◌<◌, ◌≤◌};
ghost use Rattle.crumbmap.specs.Layouts.{layout1, tags, keys, fronts};
ghost use Rattle.crumbmap.specs.Fingerprints.{front_of, mini_of, tag_of, key_of, fingerprint as numbered};

use crate::Front;
use crate::layout::{KEYS, MINIS, TAGS};

// "Front bucket f = floor(k / 2^32) × F / 2^32, rounded down."
pub fn front_of(hash: u64, size: usize) -> Front
    requires { (0 < size) × (size ≤ 65536) }
    ensures { (result.0 ≡ front_of size hash) × (result.0 < fronts size) }
{
    let fronts = 8 * (size as u64);
    let f = hash / 4294967296 * fronts / 4294967296;
    Front(f as usize)
}

// "Mini-bucket m = (floor(k / 65,536) mod 65,536) × 36 / 65,536, rounded down."
pub fn mini_of(hash: u64) -> u32
    ensures { (result ≡ mini_of layout1 hash) × (result < layout1.minis) }
{
    let high = (hash / 65536 % 65536) as u32;
    high * MINIS / 65536
}

// "Tag r = k mod 65,536."
pub fn tag_of(hash: u64) -> u32
    ensures { (result ≡ tag_of layout1 hash) × (result < tags layout1) }
{
    (hash % (TAGS as u64)) as u32
}

// Mini-bucket and tag as one number, in the order of members.
pub fn key_of(hash: u64) -> u32
    ensures { (result ≡ key_of layout1 hash) × (result < keys layout1) }
{
    mini_of(hash) * TAGS + tag_of(hash)
}

// "g = (36 × f + m) × 65,536 + r", of a front bucket and a key.
pub fn number_of(front: Front, key: u32) -> u64
    requires { (front.0 < fronts 65536) × (key < keys layout1) }
    ensures { result ≡ numbered layout1 front.0 key }
{
    let f = front.0;
    (f as u64) * (KEYS as u64) + (key as u64)
}
