// MCR, modem control register.
ghost use Rattle.std.specs.Prelude.{◌≡◌};
ghost use Rattle.device.specs.Mcr.{mcr_write};
ghost use Rattle.invariant.specs.Touch.{numbers_of};

use crate::{msr, numbers_of};
use device::{Numbers, State};
use settings::modem;
use sheet::limits;

// The low six bits are stored; what the write changes of the effective levels counts as a change.
#[tactic(auto, unfolding(device::specs::Mcr::mcr_write, device::specs::Msr::with_levels))]
pub fn write(s: State, b: u8) -> Numbers
    ensures { result ≡ numbers_of (mcr_write s b) }
{
    let mut next = numbers_of(s);
    next.registers.mcr = b % limits::SIX_BITS;
    let from = modem::effective_levels(s.registers, s.inputs);
    let to = modem::effective_levels(next.registers, s.inputs);
    next.latches = msr::latches_after(s.latches, from, to);
    next
}
