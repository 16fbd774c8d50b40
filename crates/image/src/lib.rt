// One lent image: where its buckets stand, and one bucket read, searched and written in place.

#![tactic(auto)]

pub mod back;
pub mod copy;
pub mod fresh;
pub mod front;
pub mod place;

use crumbmap::{Front, Overflow};

// What a hash names in an image: the image's size B, the front bucket f and the key of mini-bucket and tag.
#[derive(Clone, Copy)]
pub struct Target {
    pub size: usize,
    pub front: Front,
    pub key: u32,
}

// A backyard bucket of a front bucket that was read and is sound: where it is and the crumb that is kept there, how many members it holds, and
// how many of them are below the key that is sought.
#[derive(Clone, Copy)]
pub struct BackReading {
    pub way: Overflow,
    pub members: usize,
    pub below: usize,
}
