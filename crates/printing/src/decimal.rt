// Numbers in base ten, right-aligned in a lent output, byte by byte: the library's formatting says nothing of the bytes.

ghost use Rattle.std.specs.Prelude.{◌≡◌, length};
ghost use Rattle.machine.specs.OccupancyPages.{aligned};

// A number in the whole of `out`: its digits at the end, and blanks before them.
pub(crate) fn put_aligned(out: &mut [u8], number: usize)
    ensures { out.new ≡ aligned (length out.old) number }
{
    let mut v = number;
    for i in (0..out.len()).rev() {
        out[i] = b'0' + (v % 10) as u8;
        if v < 10 {
            out[..i].fill(b' ');
            return;
        }
        v /= 10;
    }
}
