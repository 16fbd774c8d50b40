// One frame of the small program: a line in, the lines to print out, on slices.

#![tactic(auto)]

pub mod parse;
pub mod perform;

// "Operation (01 insert, 02 delete, 03 ask, 04 count, 05 list), then the hash (zeros for 05)"; any other line is malformed.
#[derive(Clone, Copy)]
pub enum Frame {
    Insert(u64),
    Delete(u64),
    Ask(u64),
    Count(u64),
    List,
}
