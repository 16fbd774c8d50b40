// Steps over a piece of the input: each takes in bytes up to and including the next newline, and answers at most one line.

ghost use Rattle.std.specs.Prelude.{◌≡◌, ◌≤◌, length, take, drop};
ghost use Rattle.lines.specs.Inputs.{start_image};
ghost use Rattle.lines.specs.Steps.Turns.{Room, Steps};

use crate::Step;
use crate::answer::answer;
use crate::hold::hold;
use breadcrumb::fresh;

// "A fresh image with B = 3."
pub fn start(image: &mut [u8])
    requires { length image.old ≡ 2240 }
    ensures { image.new ≡ start_image }
{
    let _ = fresh(image);
}

// One step: of the buffer's first `n` bytes those from `from` on are to be taken in, after `held` bytes of a line.
#[tactic(auto, using(crate::proofs::TurnLaws::stepped))]
pub fn step(
    image: &mut [u8],
    buffer: &[u8],
    n: usize,
    from: usize,
    line: &mut [u8],
    held: usize,
    out: &mut [u8],
) -> Step
    requires room { Room image.old line.old held out.old }
    requires n_in_bounds { (n ≤ length buffer.now) × (from ≤ n) }
    ensures { Steps image.old (take held line.old) (drop from (take n buffer.now)) result image.new line.new out.new }
{
    take_line(image, &buffer[from..n], line, held, out)
}

// The same on the bytes alone.
#[tactic(auto, using(crate::proofs::TurnLaws::stepped))]
fn take_line(image: &mut [u8], bytes: &[u8], line: &mut [u8], held: usize, out: &mut [u8]) -> Step
    requires { Room image.old line.old held out.old }
    ensures { Steps image.old (take held line.old) bytes.now result image.new line.new out.new }
{
    let h = hold(bytes, line, held);
    let used = h.used;
    let n = h.held;
    if used == bytes.len() {
        return Step {
            used,
            held: n,
            text: 0,
        };
    }
    let text = answer(image, &line[..n], out);
    Step {
        used: used + 1,
        held: 0,
        text,
    }
}
