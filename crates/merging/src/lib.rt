// Merge: the members of two images in a third.

#![tactic(auto)]

pub mod merge;
