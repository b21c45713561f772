// The modem inputs: effective levels, loopback, change bits.
ghost use Rattle.std.specs.Prelude.{◌≡◌, ◌<◌, ◌/◌, ◌%◌, ◌||◌, eqb};
ghost use Rattle.flag.specs.Flag.{differ};
ghost use Rattle.device.specs.Modem.{loopback as «loopback-of», effective_levels, changes_after};

use device::{Inputs, Registers};
use sheet::bits;

// Whether loopback is on.
pub fn loopback(r: Registers) -> bool
    ensures { result ≡ «loopback-of» r }
{
    flag::has(r.mcr, bits::MCR_LOOP)
}

// The effective levels of the modem inputs.
#[tactic(auto, unfolding(device::specs::Modem::effective_levels))]
pub fn effective_levels(r: Registers, i: Inputs) -> u8
    ensures { result ≡ effective_levels r i }
{
    let mcr = r.mcr;
    if !flag::has(mcr, bits::MCR_LOOP) {
        return i.modem;
    }
    flag::nibble(
        flag::has(mcr, bits::MCR_RTS),
        flag::has(mcr, bits::MCR_DTR),
        flag::has(mcr, bits::MCR_OUT1),
        flag::has(mcr, bits::MCR_OUT2),
    )
}

// Whether an input has its bit set, or goes from one level to the other.
fn moved(changes: u8, from: u8, to: u8, input: u8) -> bool
    requires { 0 < input }
    ensures { result ≡ (eqb (changes / input % 2) 1 || differ (eqb («from» / input % 2) 1) (eqb (to / input % 2) 1)) }
{
    flag::has(changes, input) || flag::has(from, input) != flag::has(to, input)
}

// The change bits where the effective levels go from one to the other; RI's is set on its trailing
// edge only.
#[tactic(auto, unfolding(device::specs::Modem::changes_after))]
pub fn changes_after(changes: u8, from: u8, to: u8) -> u8
    ensures { (result ≡ changes_after changes «from» to) × (result < 16) }
{
    let ring = flag::has(from, bits::RI) && !flag::has(to, bits::RI);
    flag::nibble(
        moved(changes, from, to, bits::CTS),
        moved(changes, from, to, bits::DSR),
        flag::has(changes, bits::RI) || ring,
        moved(changes, from, to, bits::DCD),
    )
}
