// Two ascending lists of keys merged into one.

ghost use Rattle.std.specs.Prelude.{◌≡◌, ◌+◌, ◌-◌, ◌≤◌, true, cond, leb, length};
ghost use Rattle.listing.specs.Steps.Listings.{Mergeable, Merged, Copied, Parts, joined};
ghost use Rattle.crumbmap.specs.Layouts.{layout1, most_members};

use crumbmap::layout::MOST_MEMBERS;

// The keys of both lists, ascending, into the start of `out`. Which list gives the next key cannot be foretold, so no branch asks for it while both
// have keys left. Each list is counted by an index of its own, since a turn goes on in one of them alone.
pub fn merge_into(a: &[u32], b: &[u32], out: &mut [u32])
    requires { Mergeable a.now b.now (length out.old) }
    ensures { Merged a.now b.now out.old out.new }
{
    let mut i = 0;
    let mut j = 0;
    while i < a.len() && j < b.len() {
        let x = a[i];
        let y = b[j];
        out[i + j] = lesser(x, y);
        let left = at_most(x, y);
        i += left;
        j += 1 - left;
    }
    copy_rest(a, i, out, i + j);
    copy_rest(b, j, out, a.len() + j);
}

// The lesser of two keys.
fn lesser(x: u32, y: u32) -> u32
    ensures { result ≡ cond (leb x y) x y }
{
    x.min(y)
}

// 1 where the first key is at most the second, else 0.
fn at_most(x: u32, y: u32) -> usize
    ensures { (result ≡ cond (leb x y) 1 0) × (result ≤ 1) }
{
    usize::from(x <= y)
}

// The keys of a list from one on, into `out` from `at` on.
fn copy_rest(keys: &[u32], from: usize, out: &mut [u32], at: usize)
    requires { (from ≤ length keys.now) × (at + (length keys.now - from) ≤ length out.old) }
    ensures { Copied keys.now from out.old at out.new }
{
    let n = keys.len() - from;
    out[at..at + n].copy_from_slice(&keys[from..]);
}

// Two ascending parts of a list, one behind the other, become one. Mostly they are in order as they stand.
pub fn merge_parts(out: &mut [u32], from: usize, end: usize)
    requires { Parts out.old from end × (end ≤ most_members layout1) }
    ensures { out.new ≡ joined out.old from end }
{
    if in_order(out, from, end) {
        return;
    }
    let mut old = [0u32; MOST_MEMBERS];
    copy_rest(&out[..end], 0, &mut old, 0);
    let parts = &old[..end];
    merge_into(&parts[..from], &parts[from..], out);
}

// Whether two ascending parts are in order as they stand: one is empty, or the last of the first is at most the first of the second.
fn in_order(keys: &[u32], from: usize, end: usize) -> bool
    requires { Parts keys.now from end }
    ensures { result ≡ true → joined keys.now from end ≡ keys.now }
{
    if from == 0 || from == end {
        return true;
    }
    keys[from - 1] <= keys[from]
}
