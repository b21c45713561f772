// SCR, scratch register.
ghost use Rattle.std.specs.Prelude.{◌≡◌};
ghost use Rattle.device.specs.Scr.{scr_write};
ghost use Rattle.invariant.specs.Touch.{numbers_of};

use crate::numbers_of;
use device::{Numbers, State};

// Stored as written.
#[tactic(auto, unfolding(device::specs::Scr::scr_write))]
pub fn write(s: State, b: u8) -> Numbers
    ensures { result ≡ numbers_of (scr_write s b) }
{
    let mut next = numbers_of(s);
    next.registers.scr = b;
    next
}
