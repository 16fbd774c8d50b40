// Upper-case hex digits, both ways, byte by byte: the library's formatting and parsing say nothing of the bytes.

ghost use Rattle.std.specs.Prelude.{◌≡◌, ◌<◌, ◌≤◌, length};
ghost use Rattle.text.specs.Texts.{letter, digit_of, hex, unhex};
ghost use Rattle.text.specs.Lines.{digits_of};

// The ASCII byte of a digit.
pub fn letter_of(digit: u8) -> u8
    requires { digit < 16 }
    ensures { result ≡ letter digit }
{
    if digit < 10 { 48 + digit } else { 55 + digit }
}

// The lowest digits of a number into the whole of `out`, the highest first.
pub fn put_hex(out: &mut [u8], number: u64)
    ensures { out.new ≡ hex (length out.old) number }
{
    let mut v = number;
    for i in (0..out.len()).rev() {
        out[i] = letter_of((v % 16) as u8);
        v /= 16;
    }
}

// The digit of an ASCII byte, none where it is no such digit.
pub fn digit_of(byte: u8) -> Option<u64>
    ensures { result ≡ digits_of (digit_of byte) }
{
    if byte < 48 {
        return None;
    }
    if byte <= 57 {
        return Some((byte - 48) as u64);
    }
    if byte < 65 {
        return None;
    }
    if byte <= 70 {
        return Some((byte - 55) as u64);
    }
    None
}

// The number of at most 16 hex digits, none where one of the bytes is no such digit.
pub fn number_of(text: &[u8]) -> Option<u64>
    requires { length text.now ≤ 16 }
    ensures { result ≡ digits_of (unhex 0 text.now) }
{
    let mut v: u64 = 0;
    for byte in text {
        let digit = digit_of(*byte)?;
        v = v * 16 + digit;
    }
    Some(v)
}
