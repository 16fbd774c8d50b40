// A stored line taken apart.

use crate::images::{Image, image_of};
use text::hex::number_of;

// An operation, and the image that it is performed on.
#[derive(Clone, Copy)]
pub struct Line {
    pub target: Image,
    pub operation: Operation,
}

// What a line has done: a call, bytes set up for the calls that follow, or the change count that their pages bring.
#[derive(Clone, Copy)]
pub enum Operation {
    // The image becomes so many zero bytes.
    Length(usize),
    Insert(u64),
    Delete(u64),
    Ask(u64),
    Count(u64),
    Page { start: u64, room: usize },
    Fresh,
    Check,
    Merge { first: Image, second: Image },
    // Eight bytes of the image become a word.
    Poke { at: usize, word: u64 },
    // The image becomes a copy of another.
    Copy(Image),
    Row { hash: u64, step: usize },
    Occupancy { page: u64, room: usize },
    Attach(Image),
    Detach(Image),
    Tail { room: usize },
    // The change count that the pages bring from here on.
    Changes(u64),
    // Any other number: nothing is done.
    Other(u64),
}

impl Operation {
    // The number that lines have for it.
    pub(crate) fn number(self) -> u64 {
        match self {
            Operation::Length(_) => 0,
            Operation::Insert(_) => 1,
            Operation::Delete(_) => 2,
            Operation::Ask(_) => 3,
            Operation::Count(_) => 4,
            Operation::Page { .. } => 5,
            Operation::Fresh => 6,
            Operation::Check => 7,
            Operation::Merge { .. } => 8,
            Operation::Poke { .. } => 9,
            Operation::Copy(_) => 10,
            Operation::Row { .. } => 11,
            Operation::Occupancy { .. } => 12,
            Operation::Attach(_) => 13,
            Operation::Detach(_) => 14,
            Operation::Tail { .. } => 15,
            Operation::Changes(_) => 16,
            Operation::Other(number) => number,
        }
    }
}

// The line of 29 digits and a newline: two for the operation, one for each of three images, 16 for p and eight for q. None for other text.
pub fn parse(text: &[u8]) -> Option<Line> {
    if text.len() != 30 {
        return None;
    }
    if text[29] != b'\n' {
        return None;
    }
    let head = number_of(&text[0..5])?;
    let p = number_of(&text[5..21])?;
    let q = number_of(&text[21..29])? as usize;
    let x = image_of(head / 256 % 16)?;
    let y = image_of(head / 16 % 16)?;
    let z = image_of(head % 16)?;
    match head / 4096 {
        8 => merge_of(x, y, z),
        10 => between(Operation::Copy(x), x, y),
        13 => between(Operation::Attach(x), x, y),
        14 => between(Operation::Detach(x), x, y),
        number => Some(Line {
            target: x,
            operation: operation_of(number, p, q),
        }),
    }
}

// A merge, whose target is none of its sources.
fn merge_of(first: Image, second: Image, target: Image) -> Option<Line> {
    if first == target || second == target {
        return None;
    }
    Some(Line {
        target,
        operation: Operation::Merge { first, second },
    })
}

// A copy or a move, whose target is not its source.
fn between(operation: Operation, from: Image, target: Image) -> Option<Line> {
    if from == target {
        return None;
    }
    Some(Line { target, operation })
}

// The operation on one image of a number, with p and q.
fn operation_of(number: u64, p: u64, q: usize) -> Operation {
    match number {
        0 => Operation::Length(q),
        1 => Operation::Insert(p),
        2 => Operation::Delete(p),
        3 => Operation::Ask(p),
        4 => Operation::Count(p),
        5 => Operation::Page { start: p, room: q },
        6 => Operation::Fresh,
        7 => Operation::Check,
        9 => Operation::Poke { at: q, word: p },
        11 => Operation::Row { hash: p, step: q },
        12 => Operation::Occupancy { page: p, room: q },
        15 => Operation::Tail { room: q },
        16 => Operation::Changes(p),
        _ => Operation::Other(number),
    }
}
