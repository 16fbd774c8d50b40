// A frame performed on an image, and its answer printed.

ghost use Rattle.std.specs.Prelude.{◌≡◌, ◌≤◌, length};
ghost use Rattle.answers.specs.Answers.{place_of, asked_of, counted_of, Writes};
ghost use Rattle.answers.specs.Pairs.{said_of};
ghost use Rattle.text.specs.Texts.{over};
ghost use Rattle.frame.specs.Frames.{place_number, ask_value, copies_value, list_text, list_of, room, Performs, Answers};

use crate::Frame;
use crate::parse::parse;
use answers::pairs::Said;
use answers::{Asked, Counted, Paged, Place, Refusal};
use breadcrumb::{ask, count, delete, insert, page, tail};
use text::print::{put_entries, put_line, put_malformed};

// A line of input, without its newline, on an image with B = 3: its answer stands at the start of `out`. How many bytes it has, none where image or
// output have not the length that they need.
#[tactic(auto, unfolding(crate::specs::Frames::fit))]
pub fn frame(image: &mut [u8], line: &[u8], out: &mut [u8]) -> Option<usize>
    ensures { Answers line.now image.old out.old result image.new out.new }
{
    if image.len() != 2240 {
        return None;
    }
    if out.len() < 29397 {
        return None;
    }
    Some(perform(image, parse(line), out))
}

// A frame is performed and answered, or a malformed line; how many bytes the answer has.
#[tactic(auto, using(crate::proofs::PerformLaws::printed), unfolding(crate::specs::Frames::text_of, crate::specs::Frames::image_after))]
fn perform(image: &mut [u8], frame: Option<Frame>, out: &mut [u8]) -> usize
    requires { 29397 ≤ length out.old }
    ensures { Performs frame image.old out.old result image.new out.new }
{
    match frame {
        Some(Frame::Insert(hash)) => put_line(out, 1, Said::from(insert(image, hash))),
        Some(Frame::Delete(hash)) => put_line(out, 2, Said::from(delete(image, hash))),
        Some(Frame::Ask(hash)) => put_line(out, 3, asked(ask(image, hash))),
        Some(Frame::Count(hash)) => put_line(out, 4, counted(count(image, hash))),
        Some(Frame::List) => list(image, out),
        None => put_malformed(out),
    }
}

// "For ask, reads + 16 × place (0 none, 1 front, 2 first, 3 second)."
fn asked(given: Result<Asked, Refusal>) -> Said
    ensures { result ≡ said_of ask_value (asked_of given) }
{
    match given {
        Ok(found) => Said {
            number: 0,
            value: (found.reads as u64) + 16 * place_number(found.place),
        },
        Err(why) => Said::from(why),
    }
}

fn place_number(place: Place) -> u64
    ensures { (result ≡ place_number (place_of place)) × (result ≤ 3) }
{
    match place {
        Place::Nowhere => 0,
        Place::Front(_) => 1,
        Place::First(_) => 2,
        Place::Second(_) => 3,
    }
}

// "For count, its copies."
fn counted(given: Result<Counted, Refusal>) -> Said
    ensures { result ≡ said_of copies_value (counted_of given) }
{
    match given {
        Ok(count) => Said {
            number: 0,
            value: count.copies as u64,
        },
        Err(why) => Said::from(why),
    }
}

// "For list, the member count, then a line of 16 digits for each g."
fn list(image: &[u8], out: &mut [u8]) -> usize
    requires { 29397 ≤ length out.old }
    ensures value { result ≡ length (list_text (list_of image.now)) }
    ensures out_after { out.new ≡ over 0 (list_text (list_of image.now)) out.old }
{
    let mut entries = [0u64; 1728];
    list_by(image, &mut entries, out)
}

// A list by way of a slice with room for every member.
#[tactic(auto, using(crate::proofs::PerformLaws::printed))]
fn list_by(image: &[u8], entries: &mut [u64], out: &mut [u8]) -> usize
    requires { (length entries.old ≡ room) × (29397 ≤ length out.old) }
    ensures value { result ≡ length (list_text (list_of image.now)) }
    ensures out_after { out.new ≡ over 0 (list_text (list_of image.now)) out.old }
{
    match page_whole(image, entries) {
        Ok(paged) => {
            let n = paged.entries;
            let said = Said {
                number: 0,
                value: n as u64,
            };
            put_line(out, 5, said);
            put_entries(out, &entries[..n]);
            21 + 17 * n
        }
        Err(why) => put_line(out, 5, Said::from(why)),
    }
}

// The page of a list, whose walk begins with the change count that the tail tells.
#[tactic(auto, unfolding(crate::specs::Frames::list_of))]
fn page_whole(image: &[u8], entries: &mut [u64]) -> Result<Paged, Refusal>
    requires { length entries.old ≡ room }
    ensures { Writes (list_of image.now) entries.old result entries.new }
{
    let told = tail(image)?;
    page(image, 0, told.changes, entries)
}
