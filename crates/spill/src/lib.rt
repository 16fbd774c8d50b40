// What a front bucket keeps of the keys that are put in one after the other, and what goes behind it.

#![tactic(auto)]

pub mod fill;
pub mod push;
pub mod settle;

// How many keys of two lists share a front bucket, the first of each, and how many leave it.
#[derive(Clone, Copy)]
pub struct Split {
    pub kept: usize,
    pub taken: usize,
    pub gone: usize,
}
