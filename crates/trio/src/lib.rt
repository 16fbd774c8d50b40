// A row of three asks.

#![tactic(auto)]

use answers::Entry;
use capi::bcf_row;
use stored::Answered;
use stored::sum::of_page;

// The asks of p, p + d and p + 2d, where d comes from q.
pub fn row(image: &[u8], p: u64, q: usize) -> Answered {
    let step = step_of(q as u64);
    let second = p.wrapping_add(step);
    let third = second.wrapping_add(step);
    let mut entries = [entry_of(p), entry_of(second), entry_of(third)];
    let answer = bcf_row(image, &mut entries);
    let numbers = entries.map(numbers_of);
    let sum = of_page(image, numbers.as_flattened());
    Answered { answer, sum }
}

// The low 16 digits of q lead from mini-bucket to mini-bucket, the next 16 from front bucket to front bucket: (q mod 2^16) × 2^16 + (q / 2^16) × 2^48.
fn step_of(q: u64) -> u64 {
    ((q % 65536) << 16).wrapping_add((q / 65536) << 48)
}

// An entry before its ask: all else in it is 7, so that what is kept can be told from what is written.
fn entry_of(hash: u64) -> Entry {
    Entry {
        hash,
        reads: 7,
        place: 7,
        slot: 7,
        copies: 7,
    }
}

// Every field of an entry as a number.
fn numbers_of(entry: Entry) -> [u64; 5] {
    [
        entry.hash,
        entry.reads as u64,
        entry.place as u64,
        entry.slot as u64,
        entry.copies as u64,
    ]
}
