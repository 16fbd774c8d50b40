// A line performed on the images that it names.

use replay::call::{attach, detach, merge, within};
use stored::Outcome;
use stored::images::{Image, State, copied, picked, zeroed};
use stored::line::{Line, Operation, parse};

// One line: the change count of the pages that follow, or what is done on the three images. Any other text does nothing.
pub fn step(
    text: &[u8],
    state: State,
    a: &mut [u8],
    b: &mut [u8],
    c: &mut [u8],
    out: &mut [u64],
) -> Option<Outcome> {
    let line = parse(text)?;
    if let Operation::Changes(changes) = line.operation {
        return Some(Outcome::State(State { changes, ..state }));
    }
    match line.target {
        Image::A => perform(line, state, b, c, a, out),
        Image::B => perform(line, state, a, c, b, out),
        Image::C => perform(line, state, a, b, c, out),
    }
}

// A line on its image, which begins `buffer`; the two others begin `lower` and `upper`.
fn perform<'a>(
    line: Line,
    state: State,
    lower: &'a [u8],
    upper: &'a [u8],
    buffer: &mut [u8],
    out: &mut [u64],
) -> Option<Outcome> {
    let target = line.target;
    let n = state.length_of(target);
    match line.operation {
        Operation::Length(q) => {
            let n = zeroed(buffer, n, q);
            Some(Outcome::State(state.with_length(target, n)))
        }
        Operation::Copy(from) => {
            let from = picked(lower, upper, state, from, target);
            let n = copied(from, buffer, n);
            Some(Outcome::State(state.with_length(target, n)))
        }
        _ => called(line, state, lower, upper, buffer, out),
    }
}

// A line that keeps the length of its image.
fn called<'a>(
    line: Line,
    state: State,
    lower: &'a [u8],
    upper: &'a [u8],
    buffer: &mut [u8],
    out: &mut [u64],
) -> Option<Outcome> {
    let operation = line.operation;
    let target = line.target;
    let n = state.length_of(target);
    if buffer.len() < n {
        return None;
    }
    let image = &mut buffer[..n];
    let given = match operation {
        Operation::Merge { first, second } => {
            let first = picked(lower, upper, state, first, target);
            merge(first, picked(lower, upper, state, second, target), image)
        }
        Operation::Attach(from) => attach(picked(lower, upper, state, from, target), image),
        Operation::Detach(from) => detach(picked(lower, upper, state, from, target), image),
        _ => within(operation, image, state.changes, out)?,
    };
    Some(Outcome::Said(operation, given))
}
