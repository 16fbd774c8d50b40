// All members of a front bucket, those behind it too.

#![tactic(auto)]

pub mod lists;
pub mod members;
