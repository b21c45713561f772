// The divisor latches.
ghost use Rattle.std.specs.Prelude.{◌≡◌, ◌≤◌};
ghost use Rattle.device.specs.State.{with_divisor};
ghost use Rattle.device.specs.Divisor.{divisor_low, divisor_high, divisor_low_write, divisor_high_write};
ghost use Rattle.invariant.specs.Touch.{numbers_of};

use crate::numbers_of;
use device::{Baud, Numbers, State};

// The low byte.
pub fn low(s: State) -> u8
    ensures { result ≡ divisor_low s }
{
    (s.baud.divisor % 256) as u8
}

// The high byte.
pub fn high(s: State) -> u8
    requires { s.baud.divisor ≤ 65535 }
    ensures { result ≡ divisor_high s }
{
    (s.baud.divisor / 256) as u8
}

// The numbers with a new divisor, to which k is set too.
fn with_divisor(s: State, d: u32) -> Numbers
    ensures { result ≡ numbers_of (with_divisor s d) }
{
    Numbers {
        baud: Baud { divisor: d, k: d },
        ..numbers_of(s)
    }
}

// The low byte is replaced.
#[tactic(auto, unfolding(device::specs::Divisor::divisor_low_write))]
pub fn write_low(s: State, b: u8) -> Numbers
    ensures { result ≡ numbers_of (divisor_low_write s b) }
{
    let d = s.baud.divisor;
    with_divisor(s, 256 * (d / 256) + b as u32)
}

// The high byte is replaced.
#[tactic(auto, unfolding(device::specs::Divisor::divisor_high_write))]
pub fn write_high(s: State, b: u8) -> Numbers
    ensures { result ≡ numbers_of (divisor_high_write s b) }
{
    let d = s.baud.divisor;
    with_divisor(s, 256 * (b as u32) + d % 256)
}
