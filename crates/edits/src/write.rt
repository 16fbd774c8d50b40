// A front bucket written whole from its keys.

ghost use Rattle.std.specs.Prelude.{◌≡◌, ◌*◌, ◌≤◌, length};
ghost use Rattle.multiset.specs.Digits.{highs};
ghost use Rattle.crumbmap.specs.Layouts.{layout1, tags};
ghost use Rattle.buckets.specs.Words.{word_from};
ghost use Rattle.buckets.specs.Buckets.{tag_part, front_bytes, FrontList};

use crumbmap::layout::TAGS;
use minifilter::slots;
use words::word;

// The tags of the keys in order, and zeros in the slots behind them.
fn put_tags(s: &mut [u8], keys: &[u32])
    requires { (length s.old ≡ layout1.front_slots * layout1.tag_bytes) × (length keys.now ≤ layout1.front_slots) }
    ensures { s.new ≡ tag_part layout1 layout1.front_slots keys.now }
{
    for (slot, &key) in keys.iter().enumerate() {
        let at = slot * 2;
        s[at..at + 2].copy_from_slice(&((key % TAGS) as u16).to_le_bytes());
    }
    s[keys.len() * 2..].fill(0);
}

// The word of the keys: a zero is put in for each, behind those before it.
fn word_for(keys: &[u32]) -> u64
    requires { FrontList layout1 keys.now }
    ensures { result ≡ word_from layout1.minis 0 (highs (tags layout1) keys.now) }
{
    let mut word = word::EMPTY;
    for (slot, &key) in keys.iter().enumerate() {
        word = word::open_bit(word, key / TAGS + (slot as u32));
    }
    word
}

// A front bucket takes keys, whatever its bytes were.
pub fn write_front(b: &mut [u8], keys: &[u32])
    requires { (length b.old ≡ 64) × FrontList layout1 keys.now }
    ensures { b.new ≡ front_bytes layout1 keys.now }
{
    put_tags(&mut b[slots::TAGS_AT..64], keys);
    word::put_word(b, word_for(keys));
}
