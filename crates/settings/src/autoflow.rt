// Autoflow, and the rules that end every step.
ghost use Rattle.std.specs.Prelude.{◌≡◌};
ghost use Rattle.device.specs.Autoflow.{autoflow as «autoflow-of», auto_rts, held as «held_of», settled_changes, settled_hold, settled_latches, settled};

use crate::{fifo, modem};
use device::{FifoControl, Inputs, Latches, Registers, State};
use sheet::bits;

// Whether autoflow is on.
#[tactic(auto, unfolding(device::specs::Autoflow::autoflow))]
pub fn autoflow(r: Registers, f: FifoControl) -> bool
    ensures { result ≡ «autoflow-of» r f }
{
    flag::has(r.mcr, bits::MCR_AFE) && f.enabled == 1
}

// Whether auto-RTS is on.
#[tactic(auto, unfolding(device::specs::Autoflow::auto_rts))]
pub fn auto_rts(r: Registers, f: FifoControl) -> bool
    ensures { result ≡ auto_rts r f }
{
    autoflow(r, f) && flag::has(r.mcr, bits::MCR_RTS)
}

// Whether flow control holds the transmitter.
#[tactic(auto, unfolding(device::specs::Autoflow::held))]
pub fn held(r: Registers, f: FifoControl, i: Inputs) -> bool
    ensures { result ≡ «held_of» r f i }
{
    autoflow(r, f) && !flag::has(modem::effective_levels(r, i), bits::CTS)
}

// The change bits as a step leaves them.
#[tactic(auto, unfolding(device::specs::Autoflow::settled_changes))]
pub fn settled_changes(r: Registers, f: FifoControl, changes: u8) -> u8
    ensures { result ≡ settled_changes r f changes }
{
    if autoflow(r, f) {
        return changes / 2 * 2;
    }
    changes
}

// RTS hold as a step leaves it, with `count` characters received.
#[tactic(auto, unfolding(device::specs::Autoflow::settled_hold))]
pub fn settled_hold(r: Registers, f: FifoControl, count: u32, hold: u8) -> u8
    ensures { result ≡ settled_hold r f count hold }
{
    if !auto_rts(r, f) {
        return 0;
    }
    if fifo::trigger_level(f) <= count {
        return 1;
    }
    if count == 0 { 0 } else { hold }
}

// The latches as a step leaves them, with `count` characters received.
#[tactic(auto, unfolding(device::specs::Autoflow::settled_latches))]
pub fn settle_latches(r: Registers, f: FifoControl, count: u32, l: Latches) -> Latches
    ensures { result ≡ settled_latches r f count l }
{
    Latches {
        changes: settled_changes(r, f, l.changes),
        hold: settled_hold(r, f, count, l.hold),
        ..l
    }
}

// The state as the rules that end every step leave it.
#[tactic(auto, unfolding(device::specs::Autoflow::settled))]
pub fn settle(s: State) -> State
    ensures { result ≡ settled s }
{
    State {
        latches: settle_latches(s.registers, s.fifo, s.rx.count, s.latches),
        ..s
    }
}
