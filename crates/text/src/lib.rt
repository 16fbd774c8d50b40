// Text in a lent output: hex digits both ways, and the lines that the small program prints.

#![tactic(auto)]

pub mod hex;
pub mod print;
