// The answers of the calls: each gives document 01's answer, or why it is refused; `outcome_of` and its like in specs/Answers.antt give the
// number and the values of each.

#![tactic(auto)]

ghost use Rattle.std.specs.Prelude.{◌≡◌};
ghost use Rattle.answers.specs.declared.Refusal.TheVariants.{Unsound};

pub mod pairs;

// "The numbers a caller may get": 1 to 8 in this order; then 10, a row whose front buckets descend; 11, a bad tail; 12, a total that differs from
// the members or would leave its range; 13, a change count at its top; 14, a page with another change count than the image's. An unsound bucket and one
// with a member before its turn have a table number.
#[derive(Clone, Copy)]
pub enum Refusal {
    WrongLength,
    LengthsDiffer,
    Unsound(usize),
    Full,
    Absent,
    PastEnd,
    NoRoom,
    Early(usize),
    Descending,
    BadTail,
    Miscounted,
    Spent,
    Changed,
}

// A bucket that was read and is unsound, by its table number.
#[derive(Clone, Copy)]
pub struct UnsoundBucket(pub usize);

// "3 unsound bucket read."
impl From<UnsoundBucket> for Refusal {
    ghost from_gives = { λ b r. r ≡ Unsound b.0 };

    fn from(bucket: UnsoundBucket) -> Refusal {
        Refusal::Unsound(bucket.0)
    }
}

// "A place: none, front, first or second, the last three with the lowest slot of g in that bag." It has a case for each of the four, as there.
#[derive(Clone, Copy)]
pub enum Place {
    Nowhere,
    Front(usize),
    First(usize),
    Second(usize),
}

// "An ask gives its reads and a place", and the copies "in the one bag where the ask ended", 0 for none.
#[derive(Clone, Copy)]
pub struct Asked {
    pub reads: u32,
    pub place: Place,
    pub copies: usize,
}

// "Count gives copies and reads."
#[derive(Clone, Copy)]
pub struct Counted {
    pub copies: usize,
    pub reads: u32,
}

// What a page gives: how many fingerprints, and "the next bucket".
#[derive(Clone, Copy)]
pub struct Paged {
    pub entries: usize,
    pub next: usize,
}

// What a tail tells: "the total" and "a change count".
#[derive(Clone, Copy)]
pub struct Tail {
    pub total: u64,
    pub changes: u64,
}

// An ask in a row: its hash, and what it receives, numbers alone since a row is lent; `received_of` in specs/Rows.antt says what they mean.
#[repr(C)]
#[derive(Clone, Copy)]
pub struct Entry {
    pub hash: u64,
    pub reads: u32,
    pub place: u32,
    pub slot: u32,
    pub copies: u32,
}
