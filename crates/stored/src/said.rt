// The line that answers a call.

ghost use Rattle.std.specs.Prelude.{◌≡◌, length};

use crate::Answered;
use crate::line::Operation;
use text::print::put_digits;

// Operation, number and value, checksum: 34 digits, over those of a line.
pub fn put_said(text: &mut [u8], operation: Operation, given: Answered)
    requires { length text.old ≡ 35 }
{
    put_digits(text, 0, 2, operation.number());
    put_digits(text, 2, 16, given.answer);
    put_digits(text, 18, 16, given.sum);
}
