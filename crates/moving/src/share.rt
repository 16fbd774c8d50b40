// The size that a move's source and target share, by their lengths.

ghost use Rattle.std.specs.Prelude.{◌≡◌};
ghost use Rattle.moving.specs.Steps.Moves.{shared_of};

use answers::Refusal;

// "Wrong length", of either, then "a move between forms of different B gives 2".
pub(crate) fn shared_size(source: Option<usize>, target: Option<usize>) -> Result<usize, Refusal>
    ensures { result ≡ shared_of source target }
{
    let size = source.ok_or(Refusal::WrongLength)?;
    let other = target.ok_or(Refusal::WrongLength)?;
    if size == other {
        Ok(size)
    } else {
        Err(Refusal::LengthsDiffer)
    }
}
