// A row of asks, lent as a slice of entries. It is swept three times: its front buckets are fetched, then it is tested, then each entry receives its
// answer, unless the row is refused. What is done with an entry is the crate grouping's; here is the walk along the row alone.

#![tactic(auto)]

ghost use Rattle.std.specs.Prelude.{◌≡◌, ◌^◌};
ghost use Rattle.multiset.specs.Multisets.{Below};
ghost use Rattle.crumbmap.specs.Layouts.{layout1};
ghost use Rattle.form.specs.Tails.{body};
ghost use Rattle.answers.specs.Rows.{hashes};
ghost use Rattle.rows.specs.Steps.Sweeps.{state_after, row_after, AllReady};

use answers::Entry;
use grouping::State;
use grouping::turn::turn;

// Every entry in its turn, from the state `start`; beside what it leaves, that the hashes are of 64 bits.
pub fn sweep(image: &[u8], row: &mut [Entry], start: State) -> State
    requires { AllReady layout1 (body image.now) start row.old }
    ensures { (result ≡ state_after layout1 (body image.now) start row.old)
        × (row.new ≡ row_after layout1 (body image.now) start row.old)
        × Below (2 ^ 64) (hashes row.old) }
{
    let phase = start.phase;
    let mut s = start;
    for entry in row.iter_mut() {
        let t = turn(image, phase, s, *entry);
        *entry = t.entry;
        s = t.state;
    }
    s
}
