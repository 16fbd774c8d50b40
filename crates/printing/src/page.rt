// The occupancy page. One pass reads its buckets, a second prints without reading again: nothing is written before all is read.

ghost use Rattle.std.specs.Prelude.{◌≡◌, ◌+◌, ◌≤◌, ◌<◌, min, length};
ghost use Rattle.crumbmap.specs.Layouts.{layout1, fronts};
ghost use Rattle.machine.specs.OccupancyPages.{page_lines, line_bytes, page_bytes, occupancy_of, print_from, line_with, line_of, lines_of};
ghost use Rattle.answers.specs.Answers.{Prints, Occupancies};
ghost use Rattle.text.specs.Texts.{over};
ghost use Rattle.image.specs.Steps.ImageReads.{Whole};
ghost use Rattle.listing.specs.Steps.Listings.{MembersRead};
ghost use Rattle.printing.specs.Steps.Counts.{many_in, LinesRead};

use crate::line::{put_blank, put_line};
use crate::{LINE_BYTES, LINES, PAGE_BYTES};
use answers::Refusal;
use crumbmap::Front;
use crumbmap::layout::{FRONT_SLOTS, MOST_MEMBERS};
use image::place::bucket;
use listing::members::count_overflow;
use paging::page::measure;
use search::find::count_front;
use tails::open::open_image;

// Page `page` of an image, from front bucket 24 × page on, into the start of `out`.
pub fn occupancy(image: &[u8], page: u64, out: &mut [u8]) -> Result<(), Refusal>
    ensures { Occupancies image.now page out.old result out.new }
{
    let opened = open_image(image)?;
    print_sized(&image[..opened.end], opened.size, page, out)
}

// The same on a body of a size.
fn print_sized(image: &[u8], size: usize, page: u64, out: &mut [u8]) -> Result<(), Refusal>
    requires { Whole size image.now }
    ensures { Prints (occupancy_of layout1 image.now page (length out.old)) out.old result out.new }
{
    // The last page by a division: 24 × page may exceed 64 bits.
    let last = (8 * size - 1) / LINES;
    if (last as u64) < page {
        return Err(Refusal::PastEnd);
    }
    print_from(image, size, LINES * (page as usize), out)
}

// A page from a front bucket of the image. Its buckets are read before the output's length is judged; any members fit the room they are given.
fn print_from(image: &[u8], size: usize, start: usize, out: &mut [u8]) -> Result<(), Refusal>
    requires { Whole size image.now × (start < fronts size) }
    ensures { Prints (print_from layout1 size start (length out.old) image.now) out.old result out.new }
{
    let end = end_of(size, start);
    measure(image, size, start, end, LINES * MOST_MEMBERS)?;
    if out.len() < PAGE_BYTES {
        return Err(Refusal::NoRoom);
    }
    print_all(image, size, start, out);
    Ok(())
}

// The front bucket behind the last of a page.
#[tactic(auto, unfolding(crumbmap::specs::Layouts::fronts))]
fn end_of(size: usize, start: usize) -> usize
    requires { (size ≤ 65536) × (start < fronts size) }
    ensures { result ≡ min (start + page_lines) (fronts size) }
{
    let end = 8 * size;
    if end - start < LINES {
        end
    } else {
        start + LINES
    }
}

// All lines of a page whose buckets were read.
fn print_all(image: &[u8], size: usize, start: usize, out: &mut [u8])
    requires { Whole size image.now × (start < fronts size) × LinesRead layout1 size image.now page_lines start × (page_bytes layout1 ≤ length out.old) }
    ensures { out.new
        ≡ over 0 (lines_of layout1 (many_in layout1 size image.now) (fronts size) page_lines start) out.old }
{
    for i in 0..LINES {
        let at = LINE_BYTES * i;
        print_at(image, size, start + i, &mut out[at..at + LINE_BYTES]);
    }
}

// The line at a front bucket, or past the last.
fn print_at(image: &[u8], size: usize, front: usize, out: &mut [u8])
    requires { (size ≤ 65536) × (front < fronts size → MembersRead layout1 size front image.now) × (length out.old ≡ line_bytes layout1) }
    ensures { out.new ≡ line_of layout1 (many_in layout1 size image.now) (fronts size) front }
{
    if 8 * size <= front {
        return put_blank(out);
    }
    print_bucket(image, size, Front(front), out)
}

// The line of a front bucket that was read: its overflow is 0 "where Front holds fewer than 28".
fn print_bucket(image: &[u8], size: usize, front: Front, out: &mut [u8])
    requires { MembersRead layout1 size front.0 image.now × (length out.old ≡ line_bytes layout1) }
    ensures { out.new ≡ line_with layout1 front.0 (many_in layout1 size image.now front.0) }
{
    let near = count_front(bucket(image, front.0));
    if near < FRONT_SLOTS {
        return put_line(out, front.0, near, 0);
    }
    put_line(out, front.0, near, count_overflow(image, size, front))
}
