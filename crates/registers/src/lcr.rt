// LCR, line control register.
ghost use Rattle.std.specs.Prelude.{◌≡◌};
ghost use Rattle.device.specs.Lcr.{divisor_access, lcr_write};
ghost use Rattle.invariant.specs.Touch.{numbers_of};

use crate::numbers_of;
use device::{Numbers, Registers, State};
use sheet::bits;

// Whether addresses 0 and 1 are the divisor latches.
pub fn divisor_access(r: Registers) -> bool
    ensures { result ≡ divisor_access r }
{
    flag::has(r.lcr, bits::LCR_DLAB)
}

// Stored as written.
#[tactic(auto, unfolding(device::specs::Lcr::lcr_write))]
pub fn write(s: State, b: u8) -> Numbers
    ensures { result ≡ numbers_of (lcr_write s b) }
{
    let mut next = numbers_of(s);
    next.registers.lcr = b;
    next
}
