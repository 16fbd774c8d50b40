// Bytes of a line are held until its newline comes.

ghost use Rattle.std.specs.Prelude.{◌≡◌, ◌≢◌, ◌≤◌, ◌<◌, length, take, get_or, All};
ghost use Rattle.lines.specs.Steps.Turns.{kept, Holds};

use crate::Held;

// Bytes up to the next newline, or all of them, after `held` bytes of a line.
#[tactic(auto, using(crate::proofs::LineLaws::held))]
pub(crate) fn hold(bytes: &[u8], line: &mut [u8], held: usize) -> Held
    requires { (length line.old ≡ 19) × (held ≤ 19) }
    ensures { Holds (take held line.old) bytes.now result line.new }
{
    let used = before_newline(bytes);
    let held = keep(line, held, &bytes[..used]);
    Held { used, held }
}

// How many bytes stand before the next newline; all of them where none comes.
fn before_newline(bytes: &[u8]) -> usize
    ensures within { result ≤ length bytes.now }
    ensures newline { result < length bytes.now → get_or bytes.now result 0 ≡ 10 }
    ensures before { All (λ b. b ≢ 10) (take result bytes.now) }
{
    bytes
        .iter()
        .position(|&byte| byte == 10)
        .unwrap_or(bytes.len())
}

// Bytes are held behind the others, of which 19 suffice.
#[tactic(auto, using(crate::proofs::LineLaws::held))]
fn keep(line: &mut [u8], held: usize, bytes: &[u8]) -> usize
    requires { (length line.old ≡ 19) × (held ≤ 19) }
    ensures { (result ≤ 19) × (take result line.new ≡ kept (take held line.old) bytes.now) }
{
    let past = (held + bytes.len()).min(19);
    line[held..past].copy_from_slice(&bytes[..past - held]);
    past
}
