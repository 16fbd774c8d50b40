// Answers packed into one number each, for callers that take no enum: number × 2^56 + value, number 0 when accepted.

#![tactic(auto)]

pub mod pack;
