// A line taken apart: "a frame is 18 upper-case hex digits".

ghost use Rattle.std.specs.Prelude.{◌≡◌};
ghost use Rattle.frame.specs.Frames.{operation, frame_of};

use crate::Frame;
use text::hex::number_of;

// The frame of a line, without its newline; none where the line is malformed.
#[tactic(auto, unfolding(crate::specs::Frames::frame_of))]
pub fn parse(line: &[u8]) -> Option<Frame>
    ensures { result ≡ frame_of line.now }
{
    if line.len() != 18 {
        return None;
    }
    let number = number_of(&line[0..2])?;
    let hash = number_of(&line[2..18])?;
    frame_of(number, hash)
}

// The frame of an operation and a hash.
#[tactic(auto, unfolding(crate::specs::Frames::operation))]
fn frame_of(number: u64, hash: u64) -> Option<Frame>
    ensures { result ≡ operation number hash }
{
    match number {
        1 => Some(Frame::Insert(hash)),
        2 => Some(Frame::Delete(hash)),
        3 => Some(Frame::Ask(hash)),
        4 => Some(Frame::Count(hash)),
        5 if hash == 0 => Some(Frame::List),
        _ => None,
    }
}
