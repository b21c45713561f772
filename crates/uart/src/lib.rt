// The UART: the calls that its users make; those that foretell when the line falls quiet are in the
// crate `foretell`. Each takes any state and any argument, looks at the state first, and refuses by
// number what document 01's table refuses, handing the state back; beside number 1 the part of the
// state that is bad.
//
// A contract equates the whole answer with a definition in the device's specs: of `Calls.antt`, for
// the fresh state of `State.antt`.
#![tactic(auto)]

ghost use Rattle.std.specs.Prelude.{◌≡◌, leb};
ghost use Rattle.device.specs.State.{fresh_of};
ghost use Rattle.device.specs.Pins.{outputs as «outputs-of», no_outputs};
ghost use Rattle.device.specs.Calls.{refused as «refused-of», reset_of, read_of, write_of, sin_of, modem_of, tick_of, ticks_answer, pins_of};

use device::{Answer, Looked, Outputs, State};
use interrupts::pins::outputs;
use ranges::part_of;
use sheet::part::NONE;
use sheet::{answer, bits, limits};

// Every output 0, as a refusal answers. (Of a derived Default only the fields are known, each apart.)
fn no_outputs() -> Outputs
    ensures { result ≡ no_outputs }
{
    Outputs {
        sout: 0,
        rts: 0,
        dtr: 0,
        out1: 0,
        out2: 0,
        intrpt: 0,
    }
}

// The answer of a refusal, where this part of the state is bad: the state as it was.
fn refused(number: u8, bad: u8, s: State) -> Answer
    ensures { result ≡ «refused-of» number bad s }
{
    Answer {
        number,
        part: bad,
        byte: 0,
        outputs: no_outputs(),
        state: s,
    }
}

// The answer of a step that left this state, with its pins. (They are computed where the state is: in
// here, the compiler would copy the state once more for them.)
fn answered_with(t: State, outputs: Outputs, byte: u8) -> Answer
    ensures { result ≡ record { number = 0; part = 0; byte = byte; outputs = outputs; state = t } }
{
    let number = answer::DONE;
    Answer {
        number,
        part: NONE,
        byte,
        outputs,
        state: t,
    }
}

// The answer of a step that left this state: the pins are those after it.
fn answered(t: State, byte: u8) -> Answer
    ensures { result ≡ record { number = 0; part = 0; byte = byte; outputs = «outputs-of» t; state = t } }
{
    answered_with(t, outputs(t), byte)
}

// Whether a register has this address.
fn is_register(address: u8) -> bool
    ensures { result ≡ leb address 7 }
{
    address <= limits::ADDRESS_MOST
}

// The fresh state.
pub fn fresh() -> State
    ensures { result ≡ fresh_of }
{
    device::fresh()
}

// Reset.
#[tactic(auto, unfolding(device::specs::Calls::reset_of, device::specs::Calls::done))]
pub fn reset(s: State) -> Answer
    ensures { result ≡ reset_of s }
{
    let part = part_of(s);
    if part != NONE {
        return refused(answer::MALFORMED, part, s);
    }
    answered(step::reset(s), 0)
}

// A register read at an address. Most reads change nothing.
pub fn read(s: State, address: u8) -> Answer
    ensures { result ≡ read_of s address }
{
    let part = part_of(s);
    if part != NONE {
        return refused(answer::MALFORMED, part, s);
    }
    if !is_register(address) {
        return refused(answer::BAD_ADDRESS, NONE, s);
    }
    let byte = bus::value(s, address);
    if !bus::read_changes(s, address) {
        return answered_with(s, outputs(s), byte);
    }
    if bus::takes(s, address) {
        let r = step::take(s);
        let mut taken = s;
        taken.rx = r.rx;
        taken.latches = r.latches;
        return answered_with(taken, outputs(taken), byte);
    }
    let after = step::after_read(s, address);
    answered_with(after, outputs(after), byte)
}

// A register write of a byte at an address. What it changes is stored here, where the answer is made: a
// state that another function hands back is copied once more.
pub fn write(s: State, address: u8, byte: u8) -> Answer
    ensures { result ≡ write_of s address byte }
{
    let part = part_of(s);
    if part != NONE {
        return refused(answer::MALFORMED, part, s);
    }
    if !is_register(address) {
        return refused(answer::BAD_ADDRESS, NONE, s);
    }
    if bus::reaches_queue(s, address) {
        if address == bits::THR {
            let p = step::put(s, byte);
            let mut queued = s;
            queued.tx = p.tx;
            queued.latches = p.latches;
            return answered_with(queued, outputs(queued), 0);
        }
        let set = step::write_queue(s, address, byte);
        return answered_with(set, outputs(set), 0);
    }
    let n = step::numbers(s, address, byte);
    let mut written = s;
    written.registers = n.registers;
    written.baud = n.baud;
    written.latches = n.latches;
    answered_with(written, outputs(written), 0)
}

// The pin SIN at a level.
#[tactic(auto, unfolding(device::specs::Calls::sin_of, device::specs::Calls::done))]
pub fn set_sin(s: State, level: u8) -> Answer
    ensures { result ≡ sin_of s level }
{
    let part = part_of(s);
    if part != NONE {
        return refused(answer::MALFORMED, part, s);
    }
    if limits::SIN_MOST < level {
        return refused(answer::BAD_LEVEL, NONE, s);
    }
    answered(step::set_sin(s, level), 0)
}

// The modem pins CTS, DSR, RI, DCD asserted as bits 0..3 say.
#[tactic(auto, unfolding(device::specs::Calls::modem_of, device::specs::Calls::done))]
pub fn set_modem(s: State, levels: u8) -> Answer
    ensures { result ≡ modem_of s levels }
{
    let part = part_of(s);
    if part != NONE {
        return refused(answer::MALFORMED, part, s);
    }
    if limits::MODEM_MOST < levels {
        return refused(answer::BAD_LEVEL, NONE, s);
    }
    answered(step::set_modem(s, levels), 0)
}

// One tick of the clock.
#[tactic(auto, using(crate::proofs::Laws::ticks_one))]
pub fn tick(s: State) -> Answer
    ensures { result ≡ tick_of s }
{
    ticks(s, 1)
}

// n ticks of the clock, each on the state that the last left. Before the next pulse k alone falls.
pub fn ticks(s: State, n: u32) -> Answer
    ensures { result ≡ ticks_answer s n }
{
    let part = part_of(s);
    if part != NONE {
        return refused(answer::MALFORMED, part, s);
    }
    if n < s.baud.k {
        let mut counted = s;
        counted.baud.k = s.baud.k - n;
        return answered_with(counted, outputs(counted), 0);
    }
    let later = clock::advance(s, n);
    answered_with(later, outputs(later), 0)
}

// The output pins as they are.
#[tactic(auto, unfolding(device::specs::Calls::pins_of))]
pub fn pins(s: State) -> Looked
    ensures { result ≡ pins_of s }
{
    let part = part_of(s);
    if part != NONE {
        return Looked {
            number: answer::MALFORMED,
            part,
            outputs: no_outputs(),
        };
    }
    Looked {
        number: answer::DONE,
        part: NONE,
        outputs: outputs(s),
    }
}
