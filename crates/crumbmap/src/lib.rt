// Fingerprints of hashes, and the map between front and backyard buckets (algorithm 1).
// Sizes are document 01's B. Bucket numbers are types of their own: only the map and its way back turn one into the other.

#![tactic(auto)]

pub mod crumb;
pub mod fingerprint;
pub mod layout;
pub mod map;
pub mod valid;

// The number of a front bucket.
#[derive(Clone, Copy)]
pub struct Front(pub usize);

// The number of a backyard bucket, counted from the first backyard bucket.
#[derive(Clone, Copy)]
pub struct Backyard(pub usize);

// Where a front bucket's overflow goes by one of the two choices, and the crumb that it carries there.
#[derive(Clone, Copy)]
pub struct Overflow {
    pub bucket: Backyard,
    pub crumb: u32,
}

// Both ways of a front bucket's overflow.
#[derive(Clone, Copy)]
pub struct Ways {
    pub first: Overflow,
    pub second: Overflow,
}

// A crumb taken apart: its choice and its digit.
#[derive(Clone, Copy)]
pub struct Split(pub usize, pub usize);

// A backyard bucket's number by the stride K: so many whole strides, and the rest.
#[derive(Clone, Copy)]
pub struct Strides {
    pub whole: usize,
    pub rest: usize,
}
