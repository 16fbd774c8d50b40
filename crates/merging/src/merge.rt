// Merge: "the target becomes fresh, then for f = 0 up inserts the first's members of f ascending, then the second's", and the tail tells the
// members of both. The select table and the lists to work in are made once a call, and lent.

ghost use Rattle.std.specs.Prelude.{◌≡◌};
ghost use Rattle.crumbmap.specs.Layouts.{layout1, fronts, known};
ghost use Rattle.words.specs.Select.{select_table};
ghost use Rattle.machine.specs.Images.{empty_image};
ghost use Rattle.machine.specs.Merges.{merge_from};
ghost use Rattle.form.specs.Tails.{body};
ghost use Rattle.form.specs.Calls.{merged_by, merge_sized_of, target_of};
ghost use Rattle.answers.specs.Answers.{Leaves, Merges};
ghost use Rattle.image.specs.Steps.ImageReads.{Whole};
ghost use Rattle.tails.specs.Steps.Openings.{header_of};
ghost use Rattle.spill.specs.Steps.Settling.{reached};
ghost use Rattle.joining.specs.Steps.Joins.{Sources, Scratch};
ghost use Rattle.merging.specs.Steps.Targets.{Told, MergesInto, both_merged};

use answers::Refusal;
use crumbmap::Front;
use crumbmap::layout::MOST_MEMBERS;
use image::fresh::clear_all;
use joining::join::merge_front;
use tails::fresh::fresh;
use tails::open::{form_size, tail_at};
use tails::tail::start_tail;
use validation::check::check_total;
use words::select::entries;

// The members of two images into a third.
pub fn merge<'a>(first: &'a [u8], second: &'a [u8], target: &mut [u8]) -> Result<(), Refusal>
    ensures { Merges first.now second.now target.old result target.new }
{
    let size = form_size(first.len()).ok_or(Refusal::WrongLength)?;
    let other = form_size(second.len()).ok_or(Refusal::WrongLength)?;
    let into = form_size(target.len()).ok_or(Refusal::WrongLength)?;
    if size != other || size != into {
        return Err(Refusal::LengthsDiffer);
    }
    merge_sized(first, second, size, target)
}

// Both tails are read before either source is checked whole.
fn merge_sized<'a>(
    first: &'a [u8],
    second: &'a [u8],
    size: usize,
    target: &mut [u8],
) -> Result<(), Refusal>
    requires { Whole size (body first.now) × Whole size (body second.now) × Whole size (body target.old) }
    ensures { Leaves (merge_sized_of known size first.now second.now)
        (target_of known first.now (merge_sized_of known size first.now second.now) target.old)
        result target.new }
{
    let mine = tail_at(first, size).ok_or(Refusal::BadTail)?;
    let theirs = tail_at(second, size).ok_or(Refusal::BadTail)?;
    let end = first.len() - 64;
    merge_told(
        &first[..end],
        &second[..end],
        size,
        mine.total,
        theirs.total,
        target,
    )
}

// "Merge checks the first source whole, then the second, before it writes." The sources are bodies, with the totals that their tails tell.
fn merge_told<'a>(
    first: &'a [u8],
    second: &'a [u8],
    size: usize,
    mine: u64,
    theirs: u64,
    target: &mut [u8],
) -> Result<(), Refusal>
    requires { Told layout1 size mine first.now × Told layout1 size theirs second.now × Whole size (body target.old) }
    ensures { MergesInto layout1 1 size (merged_by (header_of size mine 0) (header_of size theirs 0) first.now second.now)
        target.old result target.new }
{
    check_total(first, size, mine)?;
    check_total(second, size, theirs)?;
    merge_checked(first, second, size, mine + theirs, target)
}

// Two checked bodies into a target, whatever its bytes were. "4; kept, but a merge's target is fresh."
fn merge_checked<'a>(
    first: &'a [u8],
    second: &'a [u8],
    size: usize,
    total: u64,
    target: &mut [u8],
) -> Result<(), Refusal>
    requires { Sources layout1 size first.now second.now × Whole size (body target.old) }
    ensures { MergesInto layout1 1 size (both_merged layout1 1 size total first.now second.now)
        target.old result target.new }
{
    let end = target.len() - 64;
    if merge_bodies(first, second, size, &mut target[..end]) {
        start_tail(&mut target[end..], total);
        return Ok(());
    }
    fresh(target)?;
    Err(Refusal::Full)
}

// Two checked bodies into a body that becomes fresh, until it is full.
fn merge_bodies<'a>(first: &'a [u8], second: &'a [u8], size: usize, target: &mut [u8]) -> bool
    requires { Sources layout1 size first.now second.now × Whole size target.old }
    ensures { reached result target.new
        ≡ merge_from layout1 size (fronts size) 0 first.now second.now (empty_image layout1 size) }
{
    clear_all(target, 9 * size + 7);
    let table = entries();
    let mut a = [0u32; MOST_MEMBERS];
    let mut b = [0u32; MOST_MEMBERS];
    let mut over = [0u32; MOST_MEMBERS];
    merge_fronts(
        &table, first, second, size, target, &mut a, &mut b, &mut over,
    )
}

// All front buckets into a fresh target, until it is full.
fn merge_fronts<'a>(
    table: &[u8],
    first: &'a [u8],
    second: &'a [u8],
    size: usize,
    target: &mut [u8],
    a: &mut [u32],
    b: &mut [u32],
    over: &mut [u32],
) -> bool
    requires { (table.now ≡ select_table) × Sources layout1 size first.now second.now × (target.old ≡ empty_image layout1 size)
        × Scratch layout1 a.old b.old over.old }
    ensures { reached result target.new
        ≡ merge_from layout1 size (fronts size) 0 first.now second.now target.old }
{
    for f in 0..8 * size {
        if !merge_front(table, first, second, size, Front(f), target, a, b, over) {
            return false;
        }
    }
    true
}
