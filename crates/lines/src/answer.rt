// A line answered, and the last line, into an output with room for the longest answer.

ghost use Rattle.std.specs.Prelude.{◌≡◌, ◌≤◌, length, take};
ghost use Rattle.lines.specs.Steps.Turns.{Room, Replies, Ends};

use frame::perform::frame;

// A line without its newline; how many bytes of text stand in `out`.
pub(crate) fn answer(image: &mut [u8], line: &[u8], out: &mut [u8]) -> usize
    requires { (length image.old ≡ 2240) × (length out.old ≡ 29397) }
    ensures { Replies line.now image.old result image.new out.new }
{
    frame(image, line, out).unwrap_or(0)
}

// The input has ended: "a last line needs no newline".
pub fn finish(image: &mut [u8], line: &[u8], held: usize, out: &mut [u8]) -> usize
    requires { Room image.old line.now held out.old }
    ensures { Ends image.old (take held line.now) result image.new out.new }
{
    if 0 < held {
        return answer(image, &line[..held], out);
    }
    0
}
