// Ask and count: what an image holds of one hash.

#![tactic(auto)]

pub mod ask;
pub mod count;
pub mod seek;
