// The moves between document 01's form of an image, a body alone, and the form with a tail.

#![tactic(auto)]

pub mod attach;
pub mod detach;
pub mod share;
