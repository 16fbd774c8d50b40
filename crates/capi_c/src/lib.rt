// The C functions: each is the call of its name in the crate `capi`, with its clauses.

#![tactic(auto)]

ghost use Rattle.std.specs.Prelude.{◌≡◌, length};
ghost use Rattle.crumbmap.specs.Layouts.{known};
ghost use Rattle.machine.specs.Calls.{written, image_of, output_of};
ghost use Rattle.machine.specs.OccupancyPages.{printed};
ghost use Rattle.form.specs.Calls.{fresh_of, insert_of, delete_of, ask_of, count_of, row_of, page_of, occupancy_of, check_of, merge_of, target_of};
ghost use Rattle.form.specs.Moves.{attach_of, detach_of};
ghost use Rattle.answers.specs.Pairs.{answer_value};
ghost use Rattle.answers.specs.Rows.{hashes, entries_of};
ghost use Rattle.packing.specs.Packing as P;
ghost use Rattle.packing.specs.Totals.{tail_into};

use answers::Entry;

// The image becomes fresh.
#[unsafe(no_mangle)]
pub extern "C" fn bcf_fresh(image: &mut [u8]) -> u64
    ensures value { result ≡ P.packed P.nothing (fresh_of known 1 image.old) }
    ensures image_after { image.new ≡ written (fresh_of known 1 image.old) image.old }
{
    capi::bcf_fresh(image)
}

// Whether the image is sound, each backyard member in its turn and the total that of the members.
#[unsafe(no_mangle)]
pub extern "C" fn bcf_check(image: &[u8]) -> u64
    ensures { result ≡ P.packed P.nothing (check_of known image.now) }
{
    capi::bcf_check(image)
}

// The total and the change count, into the first two entries of `out`.
#[unsafe(no_mangle)]
pub extern "C" fn bcf_tail(image: &[u8], out: &mut [u64]) -> u64
    ensures value { result ≡ P.packed P.nothing (tail_into known image.now (length out.old)) }
    ensures out_after { out.new ≡ printed (tail_into known image.now (length out.old)) out.old }
{
    capi::bcf_tail(image, out)
}

// A hash is inserted.
#[unsafe(no_mangle)]
pub extern "C" fn bcf_insert(image: &mut [u8], hash: u64) -> u64
    ensures value { result ≡ P.packed answer_value (insert_of known image.old hash) }
    ensures image_after { image.new ≡ image_of (insert_of known image.old hash) image.old }
{
    capi::bcf_insert(image, hash)
}

// A hash is deleted.
#[unsafe(no_mangle)]
pub extern "C" fn bcf_delete(image: &mut [u8], hash: u64) -> u64
    ensures value { result ≡ P.packed answer_value (delete_of known image.old hash) }
    ensures image_after { image.new ≡ image_of (delete_of known image.old hash) image.old }
{
    capi::bcf_delete(image, hash)
}

// Where a hash stands and how often there, and how many buckets were read to tell.
#[unsafe(no_mangle)]
pub extern "C" fn bcf_ask(image: &[u8], hash: u64) -> u64
    ensures { result ≡ P.packed P.ask_word (ask_of known image.now hash) }
{
    capi::bcf_ask(image, hash)
}

// A row of asks: each entry receives its answer, and the total of the reads that they share comes back.
#[unsafe(no_mangle)]
pub extern "C" fn bcf_row(image: &[u8], row: &mut [Entry]) -> u64
    ensures value { result ≡ P.packed P.row_word (row_of known image.now (hashes row.old)) }
    ensures row_after { row.new ≡ entries_of (row_of known image.now (hashes row.old)) row.old }
{
    capi::bcf_row(image, row)
}

// How many copies of a hash there are.
#[unsafe(no_mangle)]
pub extern "C" fn bcf_count(image: &[u8], hash: u64) -> u64
    ensures { result ≡ P.packed P.count_word (count_of known image.now hash) }
{
    capi::bcf_count(image, hash)
}

// The members of the longest run of whole buckets from `start` that fits into `out`, where the change count is the image's.
#[unsafe(no_mangle)]
pub extern "C" fn bcf_page(image: &[u8], start: u64, changes: u64, out: &mut [u64]) -> u64
    ensures value { result ≡ P.packed P.run_word (page_of known image.now start changes (length out.old)) }
    ensures out_after { out.new ≡ output_of (page_of known image.now start changes (length out.old)) out.old }
{
    capi::bcf_page(image, start, changes, out)
}

// The occupancy of 24 front buckets as text.
#[unsafe(no_mangle)]
pub extern "C" fn bcf_occupancy(image: &[u8], page: u64, out: &mut [u8]) -> u64
    ensures value { result ≡ P.packed P.nothing (occupancy_of known image.now page (length out.old)) }
    ensures out_after { out.new ≡ printed (occupancy_of known image.now page (length out.old)) out.old }
{
    capi::bcf_occupancy(image, page, out)
}

// Two images into a third.
#[unsafe(no_mangle)]
pub extern "C" fn bcf_merge<'a>(first: &'a [u8], second: &'a [u8], target: &mut [u8]) -> u64
    ensures value { result ≡ P.packed P.nothing (merge_of known first.now second.now target.old) }
    ensures target_after { target.new
        ≡ target_of known first.now (merge_of known first.now second.now target.old) target.old }
{
    capi::bcf_merge(first, second, target)
}

// An image of document 01's form into one with a tail.
#[unsafe(no_mangle)]
pub extern "C" fn bcf_attach(old: &[u8], target: &mut [u8]) -> u64
    ensures value { result ≡ P.packed P.nothing (attach_of known 1 old.now target.old) }
    ensures target_after { target.new ≡ written (attach_of known 1 old.now target.old) target.old }
{
    capi::bcf_attach(old, target)
}

// An image without its tail into one of document 01's form.
#[unsafe(no_mangle)]
pub extern "C" fn bcf_detach(image: &[u8], target: &mut [u8]) -> u64
    ensures value { result ≡ P.packed P.nothing (detach_of known 1 image.now target.old) }
    ensures target_after { target.new ≡ written (detach_of known 1 image.now target.old) target.old }
{
    capi::bcf_detach(image, target)
}
