// Stored calls: their lines, the images that they are made on, the checksum of bytes, what a line did, and the line that answers one.

#![tactic(auto)]

pub mod images;
pub mod line;
pub mod said;
pub mod sum;

use crate::images::State;
use crate::line::Operation;

// What a call gave: its answer, and the checksum of the bytes that it was lent.
#[derive(Clone, Copy)]
pub struct Answered {
    pub answer: u64,
    pub sum: u64,
}

// What a line did: another state; or a call, and what it gave.
#[derive(Clone, Copy)]
pub enum Outcome {
    State(State),
    Said(Operation, Answered),
}
