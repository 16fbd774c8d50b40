// The small program: it reads standard input and writes standard output. Lines, frames and text are the crate `lines`'.

#![tactic(auto)]

ghost use Rattle.std.specs.Prelude.{◌≡◌, ◌≤◌, length, take};
ghost use Rattle.lines.specs.Inputs.{start_image};
ghost use Rattle.lines.specs.Steps.Turns.{Room};
ghost use Rattle.frames.specs.Steps.Runs.{Took, Ran};

use lines::answer::finish;
use lines::piece::{start, step};
use std::io::{Read, Stdin, Stdout, Write};

fn main(rt: HostRuntime) {
    let mut image = [0u8; 2240];
    start(&mut image);
    let mut line = [0u8; 19];
    let mut out = [0u8; 29397];
    run(rt.stdin(), rt.stdout(), &mut image, &mut line, &mut out);
}

// Reads to the end of the input. A proved loop has to end, and nothing says that the input does: it has more turns than any run uses up.
#[tactic(auto, using(crate::proofs::RunLaws::taken))]
fn run(mut input: Stdin, output: Stdout, image: &mut [u8], line: &mut [u8], out: &mut [u8])
    requires { Room image.old line.old 0 out.old × (image.old ≡ start_image) }
    ensures { Ran image.new }
{
    let mut held = 0;
    for _ in 0..u64::MAX {
        let mut buffer = [0u8; 4096];
        let n = read_some(&mut input, &mut buffer);
        if n == 0 {
            break;
        }
        held = take_in(output, image, &buffer, n, line, held, out);
    }
    let n = finish(image, line, held, out);
    print(output, out, n);
}

// The next bytes of the input, none where it has ended. A read that fails ends it too.
fn read_some(input: &mut Stdin, buffer: &mut [u8]) -> usize
    ensures { result ≤ length buffer.new }
{
    input.read(buffer).unwrap_or(0)
}

// The first `n` bytes of a buffer are taken in step by step, and what each step answers is printed; how many bytes of the next line are held then.
// A turn goes on by as many bytes as its step uses up, so no range counts the turns.
#[tactic(auto, using(crate::proofs::RunLaws::taken))]
fn take_in(
    output: Stdout,
    image: &mut [u8],
    buffer: &[u8],
    n: usize,
    line: &mut [u8],
    held: usize,
    out: &mut [u8],
) -> usize
    requires { Room image.old line.old held out.old × (n ≤ length buffer.now) }
    ensures { (result ≤ 19) × Took image.old (take held line.old) (take n buffer.now) n image.new (take result line.new) }
{
    let mut h = held;
    let mut at = 0;
    while at < n {
        let s = step(image, buffer, n, at, line, h, out);
        print(output, out, s.text);
        h = s.held;
        at += s.used;
    }
    h
}

// The first `n` bytes of the output. Where a write fails, what was to be printed is lost, and the program goes on.
fn print(mut output: Stdout, out: &[u8], n: usize)
    requires { n ≤ length out.now }
{
    let _ = output.write_all(&out[..n]);
}
