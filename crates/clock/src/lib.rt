// The clock: between two pulses k alone falls. `advance` finds by one division the pulses that n ticks
// bring, and k after them; `pulse` makes the pulses, the quiet ones at once, or a single one. `quiet` has
// the single quiet pulse, in which no byte is loaded and no character ends: numbers alone.
#![tactic(auto)]

pub mod pulse;
pub mod quiet;

ghost use Rattle.std.specs.Prelude.{◌≡◌, true};
ghost use Rattle.device.specs.State.{with_k};
ghost use Rattle.device.specs.Calls.{ticks_of};
ghost use Rattle.device.specs.Ranges.{well_formed};

use device::{Frame, Latches, Receiver, State};

// What a pulse looks at and does not change, while the queues stay as they are. Each flag is a setting of
// its own: no value stands beside it.
#[derive(Clone, Copy)]
pub struct Setting {
    pub lcr: u8,
    pub sin: u8,
    pub loopback: bool,
    pub ready: bool,
    pub counts: bool,
    pub limit: u32,
}

// What a quiet pulse leaves.
#[derive(Clone, Copy)]
pub struct QuietPulse {
    pub frame: Frame,
    pub receiver: Receiver,
    pub latches: Latches,
}

// The state with so many ticks to the next pulse.
fn with_k(s: State, k: u32) -> State
    ensures { result ≡ with_k s k }
{
    let mut next = s;
    next.baud.k = k;
    next
}

// The state n ticks later.
pub fn advance(s: State, n: u32) -> State
    requires { well_formed s ≡ true }
    ensures { result ≡ ticks_of n s }
{
    let divisor = s.baud.divisor;
    if divisor == 0 {
        return s;
    }
    let k = s.baud.k;
    if n < k {
        return with_k(s, k - n);
    }
    let rest = n - k;
    pulse::pulses(s, divisor - rest % divisor, 1 + rest / divisor)
}
