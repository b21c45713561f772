// MSR, modem status register.
ghost use Rattle.std.specs.Prelude.{◌≡◌, false, ◌≤◌};
ghost use Rattle.device.specs.State.{with_changes};
ghost use Rattle.device.specs.Modem.{changes_after};
ghost use Rattle.device.specs.Msr.{msr_read};

use device::{Latches, State};
use settings::modem;

// The latches after the effective levels go from one to the other.
pub fn latches_after(l: Latches, from: u8, to: u8) -> Latches
    ensures { result ≡ with_changes l (changes_after l.changes «from» to) }
{
    Latches {
        changes: modem::changes_after(l.changes, from, to),
        ..l
    }
}

// The effective levels above their change bits.
#[tactic(auto, using(crate::proofs::Laws::levels_most), unfolding(device::specs::Msr::msr_read))]
pub fn value(s: State) -> u8
    requires changes_bound { s.latches.changes ≤ 15 }
    requires modem_bound { s.inputs.modem ≤ 15 }
    ensures { result ≡ (msr_read s).byte }
{
    s.latches.changes + 16 * modem::effective_levels(s.registers, s.inputs)
}

// Whether a read changes the state.
#[tactic(auto, using(crate::proofs::Laws::msr_kept))]
pub fn read_changes(s: State) -> bool
    ensures { result ≡ false → (msr_read s).state ≡ s }
{
    s.latches.changes != 0
}

// After a read: the change bits are cleared.
#[tactic(auto, unfolding(device::specs::Msr::msr_read))]
pub fn after_read(s: State) -> State
    ensures { result ≡ (msr_read s).state }
{
    let mut next = s;
    next.latches.changes = 0;
    next
}
