// Check: whether the bytes are a catalogue, and how many members it has.

#![tactic(auto)]

pub mod check;
