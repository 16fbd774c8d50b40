// Reads the stored calls from standard input, has them performed on three images, and prints each answer with the checksum of the bytes that the call was lent.

#![tactic(auto)]

use reading::fill;
use script::perform::step;
use std::io;
use std::io::{Stdin, Stdout, Write};
use stored::images::State;
use stored::line::Operation;
use stored::said::put_said;
use stored::{Answered, Outcome};

// The answer of a call is printed; the state after what was done, if anything was.
fn told(output: Stdout, done: Option<Outcome>, state: State) -> io::Result<State> {
    match done {
        Some(Outcome::State(next)) => Ok(next),
        Some(Outcome::Said(operation, given)) => {
            print(output, operation, given)?;
            Ok(state)
        }
        None => Ok(state),
    }
}

// The line that answers a call, on standard output.
fn print(mut output: Stdout, operation: Operation, given: Answered) -> io::Result<()> {
    let mut text = [b'\n'; 35];
    put_said(&mut text, operation, given);
    output.write_all(&text)
}

// Line after line. A proved loop has to end, and nothing says that the input does: it has more turns than any run uses up.
fn run(
    mut input: Stdin,
    output: Stdout,
    a: &mut [u8],
    b: &mut [u8],
    c: &mut [u8],
    out: &mut [u64],
) -> io::Result<()> {
    let mut text = [0u8; 30];
    let mut state = State {
        a: 0,
        b: 0,
        c: 0,
        changes: 0,
    };
    for _ in 0..u64::MAX {
        let n = fill(&mut input, &mut text)?;
        if n < 30 {
            return Ok(());
        }
        let done = step(&text, state, a, b, c, out);
        state = told(output, done, state)?;
    }
    Ok(())
}

// A read or a write that fails ends the program with its error.
fn main(rt: HostRuntime) -> io::Result<()> {
    let mut a = [0u8; 12864];
    let mut b = [0u8; 12864];
    let mut c = [0u8; 12864];
    let mut out = [0u64; 512];
    run(rt.stdin(), rt.stdout(), &mut a, &mut b, &mut c, &mut out)
}
