// Stored lines performed on three images.

#![tactic(auto)]

pub mod perform;
