// The registers by address, as the bus reads and writes them.
//
// The definitions that the contracts cite are the device's, in its specs/Calls.antt; which writes
// reach a queue stands in the invariant's specs/Touch.antt. An address above 7 is taken for 7.
#![tactic(auto)]

ghost use Rattle.std.specs.Prelude.{◌≡◌, true, false, not, ◌&&◌, ltb, eqb};
ghost use Rattle.device.specs.Lcr.{divisor_access};
ghost use Rattle.device.specs.Calls.{read_register, write_register};
ghost use Rattle.invariant.specs.Touch.{reaches_queue as «reaches-queue», numbers_of};
ghost use Rattle.bus.specs.Readable.{Readable};

use device::{Numbers, State};
use fifos::{fcr, lsr, rbr, thr};
use interrupts::iir;
use registers::{divisor, ier, lcr, mcr, msr, scr};
use sheet::bits;

// The byte that a register read answers.
#[tactic(auto, unfolding(device::specs::Calls::read_register, device::specs::Lsr::lsr_read))]
pub fn value(s: State, address: u8) -> u8
    requires { Readable s }
    ensures { result ≡ (read_register s address).byte }
{
    let r = s.registers;
    let latch = lcr::divisor_access(r);
    match address {
        bits::RBR => if latch {
            divisor::low(s)
        } else {
            rbr::value(s)
        },
        bits::IER => if latch { divisor::high(s) } else { r.ier },
        bits::IIR => iir::value(s),
        bits::LCR => r.lcr,
        bits::MCR => r.mcr,
        bits::LSR => lsr::value(s),
        bits::MSR => msr::value(s),
        _ => r.scr,
    }
}

// Whether a register read may change the state.
#[tactic(auto, unfolding(device::specs::Calls::read_register))]
pub fn read_changes(s: State, address: u8) -> bool
    ensures { result ≡ false → (read_register s address).state ≡ s }
{
    let latch = lcr::divisor_access(s.registers);
    match address {
        bits::RBR => if latch { false } else { rbr::read_changes(s) },
        bits::IIR => iir::read_changes(s),
        bits::LSR => lsr::read_changes(s),
        bits::MSR => msr::read_changes(s),
        _ => false,
    }
}

// Whether a register read takes a character: RBR, where one is received.
pub fn takes(s: State, address: u8) -> bool
    ensures { result ≡ (eqb address 0 && (not (divisor_access s.registers) && ltb 0 s.rx.count)) }
{
    address == bits::RBR && !lcr::divisor_access(s.registers) && 0 < s.rx.count
}

// Whether a register write reaches a queue.
pub fn reaches_queue(s: State, address: u8) -> bool
    ensures { result ≡ «reaches-queue» s address }
{
    address == bits::FCR || address == bits::THR && !lcr::divisor_access(s.registers)
}

// The state after a register read.
#[tactic(auto, unfolding(device::specs::Calls::read_register))]
pub fn after_read(s: State, address: u8) -> State
    ensures { result ≡ (read_register s address).state }
{
    let latch = lcr::divisor_access(s.registers);
    match address {
        bits::RBR => if latch { s } else { rbr::after_read(s) },
        bits::IIR => iir::after_read(s),
        bits::LSR => lsr::after_read(s),
        bits::MSR => msr::after_read(s),
        _ => s,
    }
}

// A write that reaches a queue, THR or FCR: the state after it.
#[tactic(auto, unfolding(device::specs::Calls::write_register))]
pub fn write_queue(s: State, address: u8, byte: u8) -> State
    requires { «reaches-queue» s address ≡ true }
    ensures { result ≡ write_register s address byte }
{
    if address == bits::THR {
        return thr::write(s, byte);
    }
    fcr::write(s, byte)
}

// A write that reaches no queue: the numbers after it. Writes to LSR and MSR do nothing.
#[tactic(auto, unfolding(device::specs::Calls::write_register))]
pub fn write_numbers(s: State, address: u8, byte: u8) -> Numbers
    requires { «reaches-queue» s address ≡ false }
    ensures { result ≡ numbers_of (write_register s address byte) }
{
    match address {
        bits::DLL => divisor::write_low(s, byte),
        bits::IER => if lcr::divisor_access(s.registers) {
            divisor::write_high(s, byte)
        } else {
            ier::write(s, byte)
        },
        bits::LCR => lcr::write(s, byte),
        bits::MCR => mcr::write(s, byte),
        bits::LSR | bits::MSR => registers::numbers_of(s),
        _ => scr::write(s, byte),
    }
}
