// Insert: one more copy of a hash's fingerprint. What it does is decided before its first write.

#![tactic(auto)]

pub mod insert;
pub mod plan;
pub mod taker;

use crumbmap::Overflow;

// What an insert does that is not refused: the key joins the front bucket at a slot, or an overflow leaves it.
#[derive(Clone, Copy)]
pub enum InsertPlan {
    Joins(usize),
    Spills(Spilling),
}

// The largest of a full front bucket and the key, `over`, goes to slot `to` of a backyard bucket; the key's own slot in front is `slot`.
#[derive(Clone, Copy)]
pub struct Spilling {
    pub over: u32,
    pub slot: usize,
    pub way: Overflow,
    pub to: usize,
}

// Which backyard bucket takes an overflow.
#[derive(Clone, Copy)]
pub enum Choice {
    First,
    Second,
}
