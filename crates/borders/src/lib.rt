// Which zeros of a bucket's word stand right below a one: the last slots of mini-buckets.

#![tactic(auto)]

pub mod border;
