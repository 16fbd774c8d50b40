// What a bucket that was read holds: where a member stands and how often, the largest, and the members in order.

#![tactic(auto)]

pub mod find;
pub mod list;

// What a search for a member finds: "the lowest slot and the number of equal copies there".
#[derive(Clone, Copy)]
pub struct Found {
    pub slot: usize,
    pub copies: usize,
}

// The lowest key among a backyard bucket's members that carry a crumb, and its lowest slot.
#[derive(Clone, Copy)]
pub struct Carried {
    pub key: u32,
    pub slot: usize,
}

// A place among the members of a backyard bucket: a slot, and the word's zeros from that slot's on.
#[derive(Clone, Copy)]
pub struct Cursor {
    pub slot: usize,
    pub zeros: u64,
}

// A member that was passed, and the place behind it.
#[derive(Clone, Copy)]
pub struct Passed {
    pub member: u32,
    pub next: Cursor,
}
