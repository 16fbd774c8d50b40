// The catalogue: one lent image, and the calls on it. Each gives the documents' answer, or why it is refused, and every byte that it was lent is
// the plain machine's after it.

#![tactic(auto)]

ghost use Rattle.std.specs.Prelude.{◌≡◌};
ghost use Rattle.crumbmap.specs.Layouts.{known};
ghost use Rattle.form.specs.Calls.{ask_of, count_of, check_of, tail_of};
ghost use Rattle.answers.specs.Answers.{outcome_of, asked_of, counted_of, tailed_of, Freshens, Inserts, Deletes, Pages, Occupancies, Merges, Attaches, Detaches};
ghost use Rattle.answers.specs.Rows.{Rows};

use answers::{Asked, Counted, Entry, Paged, Refusal, Tail};
use grouping::turn::{begin, outcome, resume};
use rows::sweep;

// The image becomes an empty catalogue, whatever its bytes were.
pub fn fresh(image: &mut [u8]) -> Result<(), Refusal>
    ensures { Freshens image.old result image.new }
{
    tails::fresh::fresh(image)
}

// One more copy of a hash's fingerprint.
pub fn insert(image: &mut [u8], hash: u64) -> Result<usize, Refusal>
    ensures { Inserts image.old hash result image.new }
{
    insertion::insert::insert(image, hash)
}

// One copy less of a hash's fingerprint.
pub fn delete(image: &mut [u8], hash: u64) -> Result<usize, Refusal>
    ensures { Deletes image.old hash result image.new }
{
    deletion::delete::delete(image, hash)
}

// Where the fingerprint of a hash stands and how often there, and how many buckets were read to tell.
pub fn ask(image: &[u8], hash: u64) -> Result<Asked, Refusal>
    ensures { asked_of result ≡ ask_of known image.now hash }
{
    lookup::ask::ask(image, hash)
}

// A row of asks: each entry receives what a lone ask gives, and the total of the reads that they share comes back. It is swept three
// times: fetched, tested and told.
pub fn row(image: &[u8], row: &mut [Entry]) -> Result<usize, Refusal>
    ensures { Rows image.now row.old result row.new }
{
    let start = begin(image);
    let fetched = sweep(image, row, start);
    let tested = sweep(image, row, resume(fetched));
    let told = sweep(image, row, resume(tested));
    outcome(told)
}

// How many copies of a hash's fingerprint there are, and how many buckets were read to tell.
pub fn count(image: &[u8], hash: u64) -> Result<Counted, Refusal>
    ensures { counted_of result ≡ count_of known image.now hash }
{
    lookup::count::count(image, hash)
}

// The members from front bucket `start` on into `out`: how many, and the next bucket. `changes` is "the change count that the walk began with".
pub fn page(image: &[u8], start: usize, changes: u64, out: &mut [u64]) -> Result<Paged, Refusal>
    ensures { Pages image.now start changes out.old result out.new }
{
    paging::page::page(image, start, changes, out)
}

// The occupancy of 24 front buckets from 24 × `page` on as text, into the start of `out`.
pub fn occupancy(image: &[u8], page: u64, out: &mut [u8]) -> Result<(), Refusal>
    ensures { Occupancies image.now page out.old result out.new }
{
    printing::page::occupancy(image, page, out)
}

// Whether the bytes are a catalogue.
pub fn check(image: &[u8]) -> Result<(), Refusal>
    ensures { outcome_of result ≡ check_of known image.now }
{
    validation::check::check(image)
}

// The members of two images into a third.
pub fn merge<'a>(first: &'a [u8], second: &'a [u8], target: &mut [u8]) -> Result<(), Refusal>
    ensures { Merges first.now second.now target.old result target.new }
{
    merging::merge::merge(first, second, target)
}

// The member total and the change count that the tail of an image tells.
pub fn tail(image: &[u8]) -> Result<Tail, Refusal>
    ensures { tailed_of result ≡ tail_of known image.now }
{
    tails::open::tail(image)
}

// An image of document 01's form, which has no tail, into one of the form that all other calls take.
pub fn attach(old: &[u8], target: &mut [u8]) -> Result<(), Refusal>
    ensures { Attaches old.now target.old result target.new }
{
    moving::attach::attach(old, target)
}

// The way back: the image without its tail.
pub fn detach(image: &[u8], target: &mut [u8]) -> Result<(), Refusal>
    ensures { Detaches image.now target.old result target.new }
{
    moving::detach::detach(image, target)
}
