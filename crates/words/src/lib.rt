// The word of a bucket, and select over 64-bit words.

#![tactic(auto)]

pub mod select;
pub mod word;

// The slots of a mini-bucket in a word: from the first up to, and without, the one past the last.
#[derive(Clone, Copy)]
pub struct Bounds {
    pub from: usize,
    pub past: usize,
}

// A byte of a word, by the place of its first bit, and a rank among its ones.
#[derive(Clone, Copy)]
pub struct Spot {
    pub place: u32,
    pub left: u32,
}
