// The small program on slices: bytes are taken in as they come, and each line is answered into a lent output as its newline comes.

#![tactic(auto)]

pub mod answer;
pub mod hold;
pub mod piece;

// Bytes up to a newline: how many were used up, and how many of the line are held.
#[derive(Clone, Copy)]
pub struct Held {
    pub used: usize,
    pub held: usize,
}

// How many bytes a step used up, how many of the next line are held, and how many bytes of text stand in the output.
#[derive(Clone, Copy)]
pub struct Step {
    pub used: usize,
    pub held: usize,
    pub text: usize,
}
