// A row of asks on plain numbers, entry by entry: what goes from one to the next says what of their group's buckets has been read, so that
// neighbours with one front bucket share their reads.

#![tactic(auto)]

pub mod fetch;
pub mod share;
pub mod tell;
pub mod turn;

use answers::Entry;

// What goes from entry to entry. The phase is 0 while the row's front buckets are fetched, 1 while it is tested, 2 while its entries receive their
// answers, 3 where it is refused; `number` and `table` are the refusal's, 0 where there is none, and a bad tail's 11 stands from the beginning. Of the
// group at `front`, the front bucket, b0 and b1, `reads` are read, of all groups so far `total`; keys below `bound` need no more of them. While
// fetching, `total` has the bytes that were loaded. The fields are in an order that leaves no gap between them: with the phase as an
// enum, which is one byte, a row takes 1.2 to 1.5 of its time.
#[derive(Clone, Copy)]
pub struct State {
    pub phase: u32,
    pub number: u32,
    pub reads: u32,
    pub bound: u32,
    pub size: usize,
    pub table: usize,
    pub front: usize,
    pub total: usize,
}

// What an entry leaves: the next state, and the entry to stand in its place.
#[derive(Clone, Copy)]
pub struct Turned {
    pub state: State,
    pub entry: Entry,
}
