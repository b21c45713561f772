// The steps: what reset, a register read or write, a level on an input pin and ticks do to a
// well-formed state. The public calls (`uart`) look at the state and the arguments first; a record of
// a capture (`recorded`) stands for a step. A step leaves in place what it does not touch.
//
// That the state is well formed is asked by each call that needs it, here and in the crates above: a type
// with that invariant would be taken apart at once, where C hands a plain struct over and where the loops
// store the parts in place.
#![tactic(auto)]

ghost use Rattle.std.specs.Prelude.{◌≡◌, true, false, ◌<◌};
ghost use Rattle.device.specs.State.{with_inputs, reset_state};
ghost use Rattle.device.specs.Ranges.{well_formed};
ghost use Rattle.device.specs.Autoflow.{settled};
ghost use Rattle.device.specs.Msr.{with_levels};
ghost use Rattle.device.specs.Rbr.{rbr_read};
ghost use Rattle.device.specs.Thr.{thr_write};
ghost use Rattle.device.specs.Calls.{read_register, write_register, ticks_of};
ghost use Rattle.invariant.specs.Touch.{reaches_queue, numbers_of};

use device::{Inputs, Numbers, Reading, State, with_inputs};
use fifos::rbr::Taken;
use fifos::thr::Queued;
use fifos::{rbr, thr};
use registers::msr;
use settings::{autoflow, modem};

// Reset.
pub fn reset(s: State) -> State
    ensures { result ≡ settled (reset_state s) }
{
    autoflow::settle(device::reset(s))
}

// A register read: the byte, and the state after it. Most reads change nothing.
pub fn read(s: State, address: u8) -> Reading
    requires { well_formed s ≡ true }
    ensures { result ≡ record { byte = (read_register s address).byte; state = settled (read_register s address).state } }
{
    let byte = bus::value(s, address);
    if !bus::read_changes(s, address) {
        return Reading { byte, state: s };
    }
    Reading {
        byte,
        state: after_read(s, address),
    }
}

// The state after a register read.
pub fn after_read(s: State, address: u8) -> State
    ensures { result ≡ settled (read_register s address).state }
{
    autoflow::settle(bus::after_read(s, address))
}

// What a read of RBR changes where something is received.
#[tactic(auto, using(crate::proofs::Laws::taken_settled), unfolding(device::specs::Autoflow::settled))]
pub fn take(s: State) -> Taken
    requires { 0 < s.rx.count }
    ensures { result ≡ record { rx = (settled (rbr_read s).state).rx; latches = (settled (rbr_read s).state).latches } }
{
    let taken = rbr::take(s);
    Taken {
        latches: autoflow::settle_latches(s.registers, s.fifo, taken.rx.count, taken.latches),
        ..taken
    }
}

// What a write to THR changes.
#[tactic(auto, using(crate::proofs::Laws::settled_thr))]
pub fn put(s: State, byte: u8) -> Queued
    requires { well_formed s ≡ true }
    ensures { result ≡ record { tx = (settled (thr_write s byte)).tx; latches = (settled (thr_write s byte)).latches } }
{
    thr::put(s, byte)
}

// The numbers that a register write sets which reaches no queue.
pub fn numbers(s: State, address: u8, byte: u8) -> Numbers
    requires { reaches_queue s address ≡ false }
    ensures { result ≡ numbers_of (settled (write_register s address byte)) }
{
    let n = bus::write_numbers(s, address, byte);
    Numbers {
        latches: autoflow::settle_latches(n.registers, s.fifo, s.rx.count, n.latches),
        ..n
    }
}

// A register write that reaches a queue.
pub fn write_queue(s: State, address: u8, byte: u8) -> State
    requires { reaches_queue s address ≡ true }
    ensures { result ≡ settled (write_register s address byte) }
{
    autoflow::settle(bus::write_queue(s, address, byte))
}

// A register write.
pub fn write(s: State, address: u8, byte: u8) -> State
    ensures { result ≡ settled (write_register s address byte) }
{
    if bus::reaches_queue(s, address) {
        return write_queue(s, address, byte);
    }
    let n = numbers(s, address, byte);
    State {
        registers: n.registers,
        baud: n.baud,
        latches: n.latches,
        ..s
    }
}

// The pin SIN at a level.
#[tactic(auto, using(crate::proofs::Laws::settled_inputs))]
pub fn set_sin(s: State, level: u8) -> State
    requires { well_formed s ≡ true }
    ensures { result ≡ settled (with_inputs s (record { modem = s.inputs.modem; sin = level })) }
{
    with_inputs(s, s.inputs.modem, level)
}

// The modem pins CTS, DSR, RI, DCD asserted as bits 0..3 say; a change of the effective levels counts.
#[tactic(auto, unfolding(device::specs::Autoflow::settled, device::specs::Msr::with_levels))]
pub fn set_modem(s: State, levels: u8) -> State
    ensures { result ≡ settled (with_levels s (with_inputs s (record { modem = levels; sin = s.inputs.sin }))) }
{
    let inputs = Inputs {
        modem: levels,
        sin: s.inputs.sin,
    };
    let from = modem::effective_levels(s.registers, s.inputs);
    let to = modem::effective_levels(s.registers, inputs);
    let latches = msr::latches_after(s.latches, from, to);
    State {
        inputs,
        latches: autoflow::settle_latches(s.registers, s.fifo, s.rx.count, latches),
        ..s
    }
}

// n ticks of the clock.
pub fn ticks(s: State, n: u32) -> State
    requires { well_formed s ≡ true }
    ensures { result ≡ ticks_of n s }
{
    clock::advance(s, n)
}
