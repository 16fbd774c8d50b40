// Tags and crumbs of a bucket moved by a slot: one is put in, or taken out.

#![tactic(auto)]

pub mod crumbs;
pub mod lanes;
pub mod tags;
