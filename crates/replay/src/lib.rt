// The calls of stored lines, made on slices, each with the checksum of what it was lent.

#![tactic(auto)]

pub mod call;
