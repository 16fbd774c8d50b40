// One 64-byte bucket, written in place: insert, remove, the empty bucket, and a front bucket written whole.

#![tactic(auto)]

pub mod edit;
pub mod write;
