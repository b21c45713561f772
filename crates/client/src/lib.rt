// Replay as a client of the library has it: how it ended and the state in one struct. `file` has the
// replay of a file that comes in parts.
#![tactic(auto)]

pub mod file;

ghost use Rattle.std.specs.Prelude.{◌≡◌};
ghost use Rattle.capture.specs.Replay.{replay_of, Agrees};
ghost use Rattle.client.specs.Replay.{replay_answer};

use capture::{Replayed, Values};
use device::State;

// What a replay answers: the number, the place and both bytes, and the state in which it ended.
#[repr(C)]
#[derive(Clone, Copy)]
pub struct Replay {
    pub values: Values,
    pub state: State,
}

// A replay's outcome as a client has it.
fn answered(r: Replayed) -> Replay
    ensures { result ≡ replay_answer r }
{
    let outcome = r.outcome;
    let state = r.state;
    Replay {
        values: capture::values_of(outcome),
        state,
    }
}

// A replay of records of a version: number 0 and both bytes the same where it agreed.
pub fn replay_records(s: State, version: u32, records: &[u32]) -> Replay
    ensures outcome { result ≡ replay_answer (replay_of version s records.now) }
    ensures agreed { result.values.number ≡ 0 → result.values.seen ≡ result.values.model → Agrees s records.now result.state }
{
    answered(capture::replay(s, version, records))
}
