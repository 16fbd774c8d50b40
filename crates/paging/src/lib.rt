// Page: the members of a run of whole front buckets.

#![tactic(auto)]

pub mod page;
