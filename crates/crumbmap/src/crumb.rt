// A crumb taken apart into choice and digit, by its sixteen values: here and nowhere else.

ghost use Rattle.std.specs.Prelude.{◌≡◌, ◌/◌, ◌%◌, ◌<◌};
ghost use Rattle.crumbmap.specs.Steps.Places.{Splits};

use crate::Split;

// "8 × choice + digit". In algorithm 1 choice 0 is b0 with digit f0 = f mod 8, choice 1 is b1 with digit f1 = b0 mod 8; figure 3 has the crumbs
// c0 and c1 for them. A crumb has four bits: the last line is never taken.
fn split_of(crumb: u32) -> Split
    requires { crumb < 16 }
    ensures { Splits crumb result }
{
    match crumb {
        0 => Split(0, 0),
        1 => Split(0, 1),
        2 => Split(0, 2),
        3 => Split(0, 3),
        4 => Split(0, 4),
        5 => Split(0, 5),
        6 => Split(0, 6),
        7 => Split(0, 7),
        8 => Split(1, 0),
        9 => Split(1, 1),
        10 => Split(1, 2),
        11 => Split(1, 3),
        12 => Split(1, 4),
        13 => Split(1, 5),
        14 => Split(1, 6),
        15 => Split(1, 7),
        16.. => Split(1, 7),
    }
}

// The choice alone: a comparison in machine code, where both at once would be a table of sixteen jumps.
pub fn choice_of(crumb: u32) -> usize
    requires { crumb < 16 }
    ensures { result ≡ crumb / 8 }
{
    let Split(choice, _) = split_of(crumb);
    choice
}

// The digit alone: where the choice is known, a difference.
pub fn digit_of(crumb: u32) -> usize
    requires { crumb < 16 }
    ensures { result ≡ crumb % 8 }
{
    let Split(_, digit) = split_of(crumb);
    digit
}
