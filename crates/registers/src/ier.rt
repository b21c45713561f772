// IER, interrupt enable register.
ghost use Rattle.std.specs.Prelude.{◌≡◌, cond, not, ◌&&◌, eqb};
ghost use Rattle.flag.specs.Flag.{bit};
ghost use Rattle.device.specs.State.{with_empty};
ghost use Rattle.device.specs.Ier.{ier_write};
ghost use Rattle.invariant.specs.Touch.{numbers_of};

use crate::numbers_of;
use device::{Latches, Numbers, State};
use sheet::{bits, limits};

// The latches after a write: raising bit 1 with the transmit queue empty sets the transmit-empty
// latch.
fn latches_after(l: Latches, ier: u8, b: u8, count: u32) -> Latches
    ensures { result ≡ cond (not (bit 1 ier) && (bit 1 b && eqb count 0)) (with_empty l 1) l }
{
    if !flag::has(ier, bits::IER_THRI) && flag::has(b, bits::IER_THRI) && count == 0 {
        return device::with_empty(l, 1);
    }
    l
}

// The low six bits are stored.
#[tactic(auto, unfolding(device::specs::Ier::ier_write))]
pub fn write(s: State, b: u8) -> Numbers
    ensures { result ≡ numbers_of (ier_write s b) }
{
    let mut next = numbers_of(s);
    next.registers.ier = b % limits::SIX_BITS;
    next.latches = latches_after(s.latches, s.registers.ier, b, s.tx.count);
    next
}
