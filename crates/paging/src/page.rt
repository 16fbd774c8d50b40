// Page: "writes the members of the longest run of whole buckets s, s + 1, .. that fits, ascending; gives how many and the next bucket".
// One pass reads and counts, a second writes without reading again.

ghost use Rattle.std.specs.Prelude.{◌≡◌, ◌-◌, ◌<◌, ◌≤◌, ◌++◌, map, length, drop};
ghost use Rattle.multiset.specs.Multisets.{Below};
ghost use Rattle.crumbmap.specs.Layouts.{layout1, keys as allKeys, fronts};
ghost use Rattle.crumbmap.specs.Fingerprints.{fingerprint};
ghost use Rattle.machine.specs.Pages.{page_from};
ghost use Rattle.machine.specs.Calls.{page_of};
ghost use Rattle.form.specs.Calls.{unchanged};
ghost use Rattle.answers.specs.Answers.{Pages, Writes};
ghost use Rattle.image.specs.Steps.ImageReads.{Whole};
ghost use Rattle.image.specs.Steps.Listed.{Listed};
ghost use Rattle.listing.specs.Steps.Listings.{members_in, MembersRead};
ghost use Rattle.paging.specs.Steps.PageRuns.{entries_in, Ran, EndSays};

use answers::{Paged, Refusal, UnsoundBucket};
use crumbmap::Front;
use crumbmap::fingerprint::number_of;
use crumbmap::layout::MOST_MEMBERS;
use listing::members::{count_members, list_members};
use tails::Opened;
use tails::open::open_image;

// The members from front bucket `start` on into `out`: how many, and the next bucket. `changes` is "the change count that the walk began with".
pub fn page(image: &[u8], start: usize, changes: u64, out: &mut [u64]) -> Result<Paged, Refusal>
    ensures { Pages image.now start changes out.old result out.new }
{
    let opened = open_image(image)?;
    page_opened(&image[..opened.end], opened, start, changes, out)
}

// The same on the body of an opened image: 14, then 6.
fn page_opened(
    image: &[u8],
    opened: Opened,
    start: usize,
    changes: u64,
    out: &mut [u64],
) -> Result<Paged, Refusal>
    requires { Whole opened.size image.now }
    ensures { Writes (unchanged opened.changes changes (page_of layout1 image.now start (length out.old)))
        out.old result out.new }
{
    let end = 8 * opened.size;
    let current = opened.changes;
    if current != changes {
        return Err(Refusal::Changed);
    }
    if end < start {
        return Err(Refusal::PastEnd);
    }
    page_from(image, opened.size, start, out)
}

// From a front bucket of the image, or from its end.
fn page_from(image: &[u8], size: usize, start: usize, out: &mut [u64]) -> Result<Paged, Refusal>
    requires { Whole size image.now × (start ≤ fronts size) }
    ensures { Writes (page_from layout1 size start (length out.old) image.now) out.old result out.new }
{
    let end = 8 * size;
    let next = measure(image, size, start, end, out.len())?;
    if next == start && start < end {
        return Err(Refusal::NoRoom);
    }
    let entries = write_run(image, size, start, next, out);
    Ok(Paged { entries, next })
}

// The bucket behind the run, which goes up to front bucket `end`: buckets are read and counted "until one does not fit".
pub fn measure(
    image: &[u8],
    size: usize,
    start: usize,
    end: usize,
    room: usize,
) -> Result<usize, UnsoundBucket>
    requires { Whole size image.now × (start ≤ end) × (end ≤ fronts size) }
    ensures { EndSays layout1 size start end room image.now result }
{
    let mut left = room;
    for f in start..end {
        let n = count_members(image, size, Front(f))?;
        if left < n {
            return Ok(f);
        }
        left -= n;
    }
    Ok(end)
}

// The buckets of a measured run, one after the other, into the start of `out`; how many members.
fn write_run(image: &[u8], size: usize, start: usize, next: usize, out: &mut [u64]) -> usize
    requires { Ran layout1 size start (fronts size) (length out.old) image.now next }
    ensures { Listed (entries_in layout1 size (next - start) start image.now) out.old result out.new }
{
    let mut n = 0;
    for f in start..next {
        n += write_bucket(image, size, Front(f), &mut out[n..]);
    }
    n
}

// The fingerprints of a bucket's members into the start of `out`; how many.
fn write_bucket(image: &[u8], size: usize, front: Front, out: &mut [u64]) -> usize
    requires { MembersRead layout1 size front.0 image.now × (length (members_in layout1 size front.0 image.now) ≤ length out.old) }
    ensures { Listed (map (fingerprint layout1 front.0) (members_in layout1 size front.0 image.now))
        out.old result out.new }
{
    let mut keys = [0u32; MOST_MEMBERS];
    let n = list_members(image, size, front, &mut keys);
    number_all(front, &keys[..n], out);
    n
}

// The fingerprints of a front bucket's keys into the start of `out`.
fn number_all(front: Front, keys: &[u32], out: &mut [u64])
    requires { (front.0 < fronts 65536) × Below (allKeys layout1) keys.now × (length keys.now ≤ length out.old) }
    ensures { out.new ≡
        map (fingerprint layout1 front.0) keys.now ++ drop (length keys.now) out.old }
{
    for (i, key) in keys.iter().enumerate() {
        out[i] = number_of(front, *key);
    }
}
