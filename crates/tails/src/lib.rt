// The tail of an image, read by words and written, and an image opened by its length and its tail.

#![tactic(auto)]

pub mod fresh;
pub mod open;
pub mod tail;

// An image that was opened: its size B, where its tail begins, and what the tail tells.
#[derive(Clone, Copy)]
pub struct Opened {
    pub size: usize,
    pub end: usize,
    pub total: u64,
    pub changes: u64,
}
