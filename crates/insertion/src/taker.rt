// Which backyard bucket takes an overflow: "If both hold 22: full. Else .. First(f) if n0 < n1, else .. Second(f)."

ghost use Rattle.std.specs.Prelude.{◌≡◌, ◌≤◌};
ghost use Rattle.crumbmap.specs.Layouts.{layout1};
ghost use Rattle.machine.specs.Machine.{taker as takerOf};
ghost use Rattle.insertion.specs.Steps.Insertions.{taking_of};

use crate::Choice;
use crumbmap::layout::BACK_SLOTS;

// By the member counts of b0 and b1; None where both are full. Where n0 is not below n1, both are full if b1 is.
pub fn taker(n0: usize, n1: usize) -> Option<Choice>
    requires { (n0 ≤ layout1.back_slots) × (n1 ≤ layout1.back_slots) }
    ensures { result ≡ taking_of (takerOf layout1 n0 n1) }
{
    if n0 < n1 {
        return Some(Choice::First);
    }
    if n1 == BACK_SLOTS {
        return None;
    }
    Some(Choice::Second)
}
