// The calls as C has them, which the crate `capi_c` exports. Each gives one number, its answer packed: number × 2^56 + value, number 0 when accepted.

#![tactic(auto)]

ghost use Rattle.std.specs.Prelude.{◌≡◌, length};
ghost use Rattle.crumbmap.specs.Layouts.{known};
ghost use Rattle.machine.specs.Calls.{written, image_of, output_of};
ghost use Rattle.machine.specs.OccupancyPages.{printed};
ghost use Rattle.form.specs.Calls.{fresh_of, insert_of, delete_of, ask_of, count_of, row_of, page_of, occupancy_of, check_of, merge_of, target_of};
ghost use Rattle.form.specs.Moves.{attach_of, detach_of};
ghost use Rattle.answers.specs.Pairs.{answer_value};
ghost use Rattle.answers.specs.Rows.{hashes, entries_of};
ghost use Rattle.packing.specs.Packing as P;
ghost use Rattle.packing.specs.Totals.{tail_into};

use answers::Entry;
use answers::pairs::Said;
use breadcrumb::{
    ask, attach, check, count, delete, detach, fresh, insert, merge, occupancy, page, tail,
};
use packing::pack::{asked, counted, done, packed, paged, rowed, tailed};

// The image becomes fresh.
pub fn bcf_fresh(image: &mut [u8]) -> u64
    ensures value { result ≡ P.packed P.nothing (fresh_of known 1 image.old) }
    ensures image_after { image.new ≡ written (fresh_of known 1 image.old) image.old }
{
    packed(done(fresh(image)))
}

// Whether the image is sound, each backyard member in its turn and the total that of the members.
pub fn bcf_check(image: &[u8]) -> u64
    ensures { result ≡ P.packed P.nothing (check_of known image.now) }
{
    packed(done(check(image)))
}

// The total and the change count, into the first two entries of `out`.
pub fn bcf_tail(image: &[u8], out: &mut [u64]) -> u64
    ensures value { result ≡ P.packed P.nothing (tail_into known image.now (length out.old)) }
    ensures out_after { out.new ≡ printed (tail_into known image.now (length out.old)) out.old }
{
    packed(tailed(tail(image), out))
}

// A hash is inserted.
pub fn bcf_insert(image: &mut [u8], hash: u64) -> u64
    ensures value { result ≡ P.packed answer_value (insert_of known image.old hash) }
    ensures image_after { image.new ≡ image_of (insert_of known image.old hash) image.old }
{
    packed(Said::from(insert(image, hash)))
}

// A hash is deleted.
pub fn bcf_delete(image: &mut [u8], hash: u64) -> u64
    ensures value { result ≡ P.packed answer_value (delete_of known image.old hash) }
    ensures image_after { image.new ≡ image_of (delete_of known image.old hash) image.old }
{
    packed(Said::from(delete(image, hash)))
}

// Where a hash stands and how often there, and how many buckets were read to tell.
pub fn bcf_ask(image: &[u8], hash: u64) -> u64
    ensures { result ≡ P.packed P.ask_word (ask_of known image.now hash) }
{
    packed(asked(ask(image, hash)))
}

// A row of asks: each entry receives its answer, and the total of the reads that they share comes back.
pub fn bcf_row(image: &[u8], row: &mut [Entry]) -> u64
    ensures value { result ≡ P.packed P.row_word (row_of known image.now (hashes row.old)) }
    ensures row_after { row.new ≡ entries_of (row_of known image.now (hashes row.old)) row.old }
{
    packed(rowed(breadcrumb::row(image, row)))
}

// How many copies of a hash there are.
pub fn bcf_count(image: &[u8], hash: u64) -> u64
    ensures { result ≡ P.packed P.count_word (count_of known image.now hash) }
{
    packed(counted(count(image, hash)))
}

// The members of the longest run of whole buckets from `start` that fits into `out`, where the change count is the image's.
pub fn bcf_page(image: &[u8], start: u64, changes: u64, out: &mut [u64]) -> u64
    ensures value { result ≡ P.packed P.run_word (page_of known image.now start changes (length out.old)) }
    ensures out_after { out.new ≡ output_of (page_of known image.now start changes (length out.old)) out.old }
{
    packed(paged(page(image, start as usize, changes, out)))
}

// The occupancy of 24 front buckets as text.
pub fn bcf_occupancy(image: &[u8], page: u64, out: &mut [u8]) -> u64
    ensures value { result ≡ P.packed P.nothing (occupancy_of known image.now page (length out.old)) }
    ensures out_after { out.new ≡ printed (occupancy_of known image.now page (length out.old)) out.old }
{
    packed(done(occupancy(image, page, out)))
}

// Two images into a third.
pub fn bcf_merge<'a>(first: &'a [u8], second: &'a [u8], target: &mut [u8]) -> u64
    ensures value { result ≡ P.packed P.nothing (merge_of known first.now second.now target.old) }
    ensures target_after { target.new
        ≡ target_of known first.now (merge_of known first.now second.now target.old) target.old }
{
    packed(done(merge(first, second, target)))
}

// An image of document 01's form into one with a tail.
pub fn bcf_attach(old: &[u8], target: &mut [u8]) -> u64
    ensures value { result ≡ P.packed P.nothing (attach_of known 1 old.now target.old) }
    ensures target_after { target.new ≡ written (attach_of known 1 old.now target.old) target.old }
{
    packed(done(attach(old, target)))
}

// An image without its tail into one of document 01's form.
pub fn bcf_detach(image: &[u8], target: &mut [u8]) -> u64
    ensures value { result ≡ P.packed P.nothing (detach_of known 1 image.now target.old) }
    ensures target_after { target.new ≡ written (detach_of known 1 image.now target.old) target.old }
{
    packed(done(detach(image, target)))
}
