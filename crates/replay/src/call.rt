// A stored line that keeps the state: a call on one image, two or three, a row of asks, or bytes poked.

use capi::{
    bcf_ask, bcf_attach, bcf_check, bcf_count, bcf_delete, bcf_detach, bcf_fresh, bcf_insert,
    bcf_merge, bcf_occupancy, bcf_page, bcf_tail,
};
use stored::Answered;
use stored::images::poke;
use stored::line::Operation;
use stored::sum::{of_image, of_merge, of_output, of_page};
use trio::row;

// An operation on one image, and what it gave; none where it gives nothing. A page brings the change count `changes`.
pub fn within(
    operation: Operation,
    image: &mut [u8],
    changes: u64,
    out: &mut [u64],
) -> Option<Answered> {
    match operation {
        Operation::Insert(hash) => Some(call(bcf_insert(image, hash), image)),
        Operation::Delete(hash) => Some(call(bcf_delete(image, hash), image)),
        Operation::Ask(hash) => Some(call(bcf_ask(image, hash), image)),
        Operation::Count(hash) => Some(call(bcf_count(image, hash), image)),
        Operation::Fresh => Some(call(bcf_fresh(image), image)),
        Operation::Check => Some(call(bcf_check(image), image)),
        Operation::Page { start, room } => page(image, start, changes, out, room),
        Operation::Tail { room } => tail(image, out, room),
        Operation::Row { hash, step } => Some(row(image, hash, step)),
        Operation::Occupancy { page, room } => occupancy(image, page, room),
        Operation::Poke { at, word } => {
            poke(image, at, word);
            None
        }
        _ => None,
    }
}

// What a call on an image gave.
fn call(answer: u64, image: &[u8]) -> Answered {
    Answered {
        answer,
        sum: of_image(image),
    }
}

// A page into the first entries of `out`.
fn page(image: &[u8], start: u64, changes: u64, out: &mut [u64], room: usize) -> Option<Answered> {
    let out = filled(out, room)?;
    let answer = bcf_page(image, start, changes, out);
    let sum = of_page(image, out);
    Some(Answered { answer, sum })
}

// A tail into them.
fn tail(image: &[u8], out: &mut [u64], room: usize) -> Option<Answered> {
    let out = filled(out, room)?;
    let answer = bcf_tail(image, out);
    let sum = of_page(image, out);
    Some(Answered { answer, sum })
}

// The first entries of `out`, if there are so many: entry i becomes 2^64 - 1 - i.
fn filled(out: &mut [u64], room: usize) -> Option<&mut [u64]> {
    let out = out.get_mut(..room)?;
    for (i, entry) in out.iter_mut().enumerate() {
        *entry = u64::MAX - (i as u64);
    }
    Some(out)
}

// An occupancy page into as many bytes, if it is to have room for no more than 1,040.
fn occupancy(image: &[u8], number: u64, room: usize) -> Option<Answered> {
    let mut bytes = [7u8; 1040];
    let out = bytes.get_mut(..room)?;
    let answer = bcf_occupancy(image, number, out);
    let sum = of_output(image, out);
    Some(Answered { answer, sum })
}

// Two images into a third.
pub fn merge<'a>(first: &'a [u8], second: &'a [u8], target: &mut [u8]) -> Answered {
    let answer = bcf_merge(first, second, target);
    let sum = of_merge(first, second, target);
    Answered { answer, sum }
}

// An image of document 01's form into one with a tail.
pub fn attach(old: &[u8], target: &mut [u8]) -> Answered {
    let answer = bcf_attach(old, target);
    let sum = of_output(old, target);
    Answered { answer, sum }
}

// An image without its tail into one of document 01's form.
pub fn detach(image: &[u8], target: &mut [u8]) -> Answered {
    let answer = bcf_detach(image, target);
    let sum = of_output(image, target);
    Answered { answer, sum }
}
