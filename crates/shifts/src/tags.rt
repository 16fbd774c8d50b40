// The tags' bytes, two a slot, moved by words of four tags: no branch depends on the slot.

ghost use Rattle.std.specs.Prelude.{◌≡◌, ◌+◌, ◌*◌, ◌%◌, ◌<◌, ◌≤◌, length, take};
ghost use Rattle.multiset.specs.Digits.{digits};
ghost use Rattle.crumbmap.specs.Layouts.{layout1, tags};
ghost use Rattle.shifts.specs.Steps.Shifts.{inserted, taken_out};

use crate::lanes::{from_byte, moved_word, put_at, word_at};

// A tag is put in at a slot of the tags' bytes, and the last one falls off.
// Words go from the top down; the last 8 bytes, which may begin inside another word, are read first and stored last.
pub fn insert_tag(s: &mut [u8], slot: usize, tag: u32)
    requires { (length s.old % 2 ≡ 0) × (16 ≤ length s.old) × (slot * 2 + 2 ≤ length s.old) × (tag < tags layout1) }
    ensures { s.new ≡ take (length s.old) (inserted (slot * 2) (digits 256 2 tag) s.old) }
{
    let at = slot * 2;
    let last = s.len() - 8;
    let top = moved_word(s, last, last - 2, at);
    for turn in (1..(last + 7) / 8).rev() {
        let o = turn * 8;
        let word = moved_word(s, o, o - 2, at);
        put_at(s, o, word);
    }
    let first = word_at(s, 0);
    put_at(s, 0, from_byte(first, first << 16, 0, at));
    put_at(s, last, top);
    s[at..at + 2].copy_from_slice(&(tag as u16).to_le_bytes());
}

// The tag at a slot is taken out, and a zero follows the others. Words go from the bottom up.
pub fn remove_tag(s: &mut [u8], slot: usize)
    requires { (length s.old % 2 ≡ 0) × (16 ≤ length s.old) × (slot * 2 + 2 ≤ length s.old) }
    ensures { s.new ≡ taken_out (slot * 2) 2 s.old }
{
    let at = slot * 2;
    let last = s.len() - 8;
    let end = word_at(s, last);
    let top = from_byte(end, end >> 16, last, at);
    for turn in 0..(last + 7) / 8 {
        let o = turn * 8;
        let word = moved_word(s, o, o + 2, at);
        put_at(s, o, word);
    }
    put_at(s, last, top);
}
