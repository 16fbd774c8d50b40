// One 64-byte bucket: its slots, the reader, and the quick test before it.

#![tactic(auto)]

mod quick;
pub mod read;
pub mod slots;

// What reading a sound bucket whole finds: "its member count", and how many members are below the one that is sought.
#[derive(Clone, Copy)]
pub struct Reading {
    pub members: usize,
    pub below: usize,
}
