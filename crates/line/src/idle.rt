// The idle count's part of a pulse.
ghost use Rattle.std.specs.Prelude.{◌≡◌, cond, ◌≤◌, ◌+◌, min, ltb};
ghost use Rattle.device.specs.State.{with_idle};
ghost use Rattle.device.specs.Idle.{counts as «Counts-of», time_out_at, counted as «Counted-of», idled};

use device::{FifoControl, Latches, State};
use sheet::limits;

// The idle count that times out: four frames in the format of LCR.
pub fn limit(lcr: u8) -> u32
    ensures { result ≡ time_out_at lcr }
{
    4 * frame::frame_length(lcr % limits::SIX_BITS)
}

// The time-out latch at an idle count: above the limit it is set.
pub fn time_out(limit: u32, n: u32, before: u8) -> u8
    ensures { result ≡ cond (ltb limit n) 1 before }
{
    if limit < n { 1 } else { before }
}

// One more pulse without a character.
#[tactic(auto, unfolding(device::specs::Idle::counted))]
pub fn counted(limit: u32, l: Latches) -> Latches
    requires { l.idle ≤ 769 }
    ensures { result ≡ «Counted-of» limit l }
{
    let n = (l.idle + 1).min(limits::IDLE_MOST);
    Latches {
        timeout: time_out(limit, n, l.timeout),
        idle: n,
        ..l
    }
}

// Whether the idle count goes on: the FIFO is on and data is waiting.
pub fn counts(f: FifoControl, received: u32) -> bool
    ensures { result ≡ «Counts-of» f received }
{
    f.enabled == 1 && received != 0
}

// The latches after the idle count's part of a pulse, in which a character entered the queue or not,
// with `received` of them there.
pub fn later(f: FifoControl, received: u32, lcr: u8, entered: bool, l: Latches) -> Latches
    requires { l.idle ≤ 769 }
    ensures { result ≡ cond («Counts-of» f received) (cond entered (with_idle l 0) («Counted-of» (time_out_at lcr) l)) l }
{
    if !counts(f, received) {
        return l;
    }
    if entered {
        return Latches { idle: 0, ..l };
    }
    counted(limit(lcr), l)
}

// The idle count's part of a pulse, in which a character entered the queue or not.
#[tactic(auto, unfolding(device::specs::Idle::idled))]
pub fn idle(entered: bool, s: State) -> State
    requires { s.latches.idle ≤ 769 }
    ensures { result ≡ idled entered s }
{
    State {
        latches: later(s.fifo, s.rx.count, s.registers.lcr, entered, s.latches),
        ..s
    }
}
