// Delete: one copy less of a hash's fingerprint. What it does is decided before its first write.

#![tactic(auto)]

pub mod behind;
pub mod delete;
pub mod plan;

use crumbmap::Overflow;

// A member that leaves a backyard bucket: the bucket and the crumb that it carries there, its slot, and its key.
#[derive(Clone, Copy)]
pub struct Departure {
    pub way: Overflow,
    pub slot: usize,
    pub key: u32,
}

// What a delete does that is not refused: the copy at a slot in front leaves, a member from behind takes its room, or a copy behind leaves.
#[derive(Clone, Copy)]
pub enum DeletePlan {
    Leaves(usize),
    Refills(Refill),
    TakesOut(Departure),
}

// The copy at `slot` of a full front bucket leaves, and a member from behind takes its room, at `to` once it has left.
#[derive(Clone, Copy)]
pub struct Refill {
    pub slot: usize,
    pub to: usize,
    pub member: Departure,
}
