// One front bucket of two images merged into a third.

#![tactic(auto)]

pub mod join;
