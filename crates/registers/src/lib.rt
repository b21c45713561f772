// The registers that reach no FIFO: IER, LCR, MCR, MSR, SCR and the divisor latches, for each its byte,
// what a read changes of the state, and its write.
//
// A module for each register, named as the sheet names it. The definitions that the contracts cite
// are the device's. RBR, THR, FCR and LSR are in the crate `fifos`, IIR in `interrupts`; the crate
// `bus` has the registers by address.
#![tactic(auto)]

pub mod divisor;
pub mod ier;
pub mod lcr;
pub mod mcr;
pub mod msr;
pub mod scr;

ghost use Rattle.std.specs.Prelude.{◌≡◌};
ghost use Rattle.invariant.specs.Touch.{numbers_of};

use device::{Numbers, State};

// The numbers of a state: what a write may set that reaches no queue.
pub fn numbers_of(s: State) -> Numbers
    ensures { result ≡ numbers_of s }
{
    Numbers {
        registers: s.registers,
        baud: s.baud,
        latches: s.latches,
    }
}
