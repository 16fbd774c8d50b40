// One line of an occupancy page.

ghost use Rattle.std.specs.Prelude.{◌≡◌, ◌+◌, ◌<◌, ◌≤◌, length};
ghost use Rattle.crumbmap.specs.Layouts.{layout1};
ghost use Rattle.machine.specs.OccupancyPages.{column, line_bytes, bar, line as lineText, blank_line};
ghost use Rattle.text.specs.Texts.{over};

use crate::LINE_BYTES;
use crate::decimal::put_aligned;

// A front bucket's number, its front members, its overflow, and its bar.
pub(crate) fn put_line(out: &mut [u8], front: usize, near: usize, far: usize)
    requires { (length out.old ≡ line_bytes layout1) × (near ≤ layout1.front_slots) }
    ensures { out.new ≡ lineText layout1 front near far }
{
    put_column(out, 0, 6, front);
    put_column(out, 7, 2, near);
    put_column(out, 10, 2, far);
    let end = LINE_BYTES - 1;
    put_bar(&mut out[13..end], near);
    out[end] = b'\n';
}

// A number in so many columns from `at` on, and the blank behind it.
fn put_column(out: &mut [u8], at: usize, columns: usize, number: usize)
    requires { at + columns < length out.old }
    ensures { out.new ≡ over at (column columns number) out.old }
{
    let end = at + columns;
    put_aligned(&mut out[at..end], number);
    out[end] = b' ';
}

// "One # a front member, then dots."
fn put_bar(out: &mut [u8], members: usize)
    requires { (length out.old ≡ layout1.front_slots) × (members ≤ layout1.front_slots) }
    ensures { out.new ≡ bar layout1 members }
{
    out[..members].fill(b'#');
    out[members..].fill(b'.');
}

// "Lines past the last bucket are 41 blanks."
pub(crate) fn put_blank(out: &mut [u8])
    requires { length out.old ≡ line_bytes layout1 }
    ensures { out.new ≡ blank_line layout1 }
{
    let end = LINE_BYTES - 1;
    out[..end].fill(b' ');
    out[end] = b'\n';
}
