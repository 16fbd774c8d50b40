// The lines that the program prints, written into a lent output; what they do not cover keeps its content.

ghost use Rattle.std.specs.Prelude.{◌≡◌, ◌+◌, ◌*◌, ◌≤◌, length};
ghost use Rattle.text.specs.Texts.{hex, over};
ghost use Rattle.text.specs.Lines.{entry, told, malformed, entry_lines};

use crate::hex::put_hex;
use answers::pairs::Said;

// The lowest digits of a number, from `at` on.
pub fn put_digits(out: &mut [u8], at: usize, digits: usize, number: u64)
    requires { at + digits ≤ length out.old }
    ensures { out.new ≡ over at (hex digits number) out.old }
{
    let end = at + digits;
    put_hex(&mut out[at..end], number);
}

// A line of 16 digits, from `at` on.
pub fn put_entry(out: &mut [u8], at: usize, number: u64)
    requires { at + 17 ≤ length out.old }
    ensures { out.new ≡ over at (entry number) out.old }
{
    put_digits(out, at, 16, number);
    out[at + 16] = 10;
}

// "Operation, answer number in two digits (00 accepted) and a 16-digit value"; how many bytes that is.
pub fn put_line(out: &mut [u8], operation: u64, said: Said) -> usize
    requires { 21 ≤ length out.old }
    ensures { (result ≡ 21) × (out.new ≡ over 0 (told operation said) out.old) }
{
    put_digits(out, 0, 2, operation);
    put_digits(out, 2, 2, said.number);
    put_entry(out, 4, said.value);
    21
}

// "A line of 16 digits for each g", behind a first line.
pub fn put_entries(out: &mut [u8], entries: &[u64])
    requires { 21 + 17 * length entries.now ≤ length out.old }
    ensures { out.new ≡ over 21 (entry_lines entries.now) out.old }
{
    for (i, entry) in entries.iter().enumerate() {
        put_entry(out, 21 + 17 * i, *entry);
    }
}

// The bytes of `text`, from the start on.
pub fn put_text(text: &[u8], out: &mut [u8])
    requires { length text.now ≤ length out.old }
    ensures { out.new ≡ over 0 text.now out.old }
{
    out[..text.len()].copy_from_slice(text);
}

// "Any other line is malformed; such a line is answered by `FF090000000000000000`"; how many bytes that is.
pub fn put_malformed(out: &mut [u8]) -> usize
    requires { 21 ≤ length out.old }
    ensures { (result ≡ 21) × (out.new ≡ over 0 malformed out.old) }
{
    put_text(b"FF090000000000000000\n", out);
    21
}
