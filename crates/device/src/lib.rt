// The device: the structs of its state and of its answers. The definitions of document 01 stand
// in specs/, a file for each register or unit; this crate is the manual that the others implement.
//
// Every field is an unsigned number, so every bit pattern is a state: well formed, or refused.
#![tactic(auto)]

ghost use Rattle.std.specs.Prelude.{◌≡◌};
ghost use Rattle.device.specs.State.{fresh_of, reset_state, with_inputs, with_empty};

use queue::{ByteQueue, EntryQueue, Errors};

// The registers that keep what is written to them.
#[repr(C)]
#[derive(Clone, Copy)]
pub struct Registers {
    pub ier: u8,
    pub mcr: u8,
    pub lcr: u8,
    pub scr: u8,
}

// The baud generator: the divisor D, and k, the ticks to the next pulse.
#[repr(C)]
#[derive(Clone, Copy)]
pub struct Baud {
    pub divisor: u32,
    pub k: u32,
}

// What FCR sets: FIFO on, size bit (1 is 64), DMA bit, trigger code.
#[repr(C)]
#[derive(Clone, Copy)]
pub struct FifoControl {
    pub enabled: u8,
    pub size: u8,
    pub dma: u8,
    pub trigger: u8,
}

// The input pins: CTS, DSR, RI, DCD asserted in bits 0..3; the level of SIN.
#[repr(C)]
#[derive(Clone, Copy)]
pub struct Inputs {
    pub modem: u8,
    pub sin: u8,
}

// The state with the input pins as given.
pub fn with_inputs(s: State, modem: u8, sin: u8) -> State
    ensures { result ≡ with_inputs s (record { modem = modem; sin = sin }) }
{
    State {
        inputs: Inputs { modem, sin },
        ..s
    }
}

// The transmitter shift register: L, the pulses left of the frame now sent, with its byte and
// format; all zero where nothing is sent.
#[repr(C)]
#[derive(Clone, Copy)]
pub struct Frame {
    pub left: u32,
    pub byte: u8,
    pub format: u8,
}

// The receiver: its phase, and in a character its position P, its format, and the data and parity
// samples taken so far.
#[repr(C)]
#[derive(Clone, Copy)]
pub struct Receiver {
    pub phase: u8,
    pub format: u8,
    pub samples: u8,
    pub parity: u8,
    pub position: u32,
}

// The phases of the receiver: bytes and no enum, since the C interface has them in the state.
pub const IDLE: u8 = 0;

pub const WAITING: u8 = 1;

pub const CHARACTER: u8 = 2;

// The transmit-empty latch, OE, the time-out latch, the change bits of MSR (bits 0..3: CTS, DSR,
// RI, DCD), RTS hold, and the idle count.
#[repr(C)]
#[derive(Clone, Copy)]
pub struct Latches {
    pub empty: u8,
    pub overrun: u8,
    pub timeout: u8,
    pub changes: u8,
    pub hold: u8,
    pub idle: u32,
}

// The latches with the transmit-empty latch as given.
pub fn with_empty(l: Latches, empty: u8) -> Latches
    ensures { result ≡ with_empty l empty }
{
    Latches { empty, ..l }
}

// The whole device. In character mode PE, FE and BI are kept apart from the byte, until LSR is read.
#[repr(C)]
#[derive(Clone, Copy)]
pub struct State {
    pub registers: Registers,
    pub baud: Baud,
    pub fifo: FifoControl,
    pub inputs: Inputs,
    pub tx: ByteQueue,
    pub frame: Frame,
    pub rx: EntryQueue,
    pub receiver: Receiver,
    pub latches: Latches,
    pub kept: Errors,
}

// The fresh state. Its zeros are literals: a derived Default promises each field apart, and each of its
// uses would need a lemma.
#[tactic(auto, unfolding(crate::specs::State::fresh_of))]
pub fn fresh() -> State
    ensures { result ≡ fresh_of }
{
    State {
        registers: Registers {
            ier: 0,
            mcr: 0,
            lcr: 0,
            scr: 0,
        },
        baud: Baud { divisor: 0, k: 0 },
        fifo: FifoControl {
            enabled: 0,
            size: 0,
            dma: 0,
            trigger: 0,
        },
        inputs: Inputs { modem: 0, sin: 1 },
        tx: queue::bytes::clear(),
        frame: Frame {
            left: 0,
            byte: 0,
            format: 0,
        },
        rx: queue::entries::clear(),
        receiver: Receiver {
            phase: IDLE,
            format: 0,
            samples: 0,
            parity: 0,
            position: 0,
        },
        latches: Latches {
            empty: 0,
            overrun: 0,
            timeout: 0,
            changes: 0,
            hold: 0,
            idle: 0,
        },
        kept: queue::entries::no_errors(),
    }
}

// The state after reset: fresh, but SCR, the divisor and the input pins stay, and k is the divisor.
#[tactic(auto, unfolding(crate::specs::State::reset_state))]
pub fn reset(s: State) -> State
    ensures { result ≡ reset_state s }
{
    let divisor = s.baud.divisor;
    let mut next = fresh();
    next.registers.scr = s.registers.scr;
    next.baud = Baud {
        divisor,
        k: divisor,
    };
    next.inputs = s.inputs;
    next
}

// The numbers that a write sets which reaches no queue.
#[derive(Clone, Copy)]
pub struct Numbers {
    pub registers: Registers,
    pub baud: Baud,
    pub latches: Latches,
}

// What a register read gives: the byte, and the state after it.
#[derive(Clone, Copy)]
pub struct Reading {
    pub byte: u8,
    pub state: State,
}

// What a pulse makes of the receiver: its next state, and the entry of a character, where one
// ended.
#[derive(Clone, Copy)]
pub struct Received {
    pub receiver: Receiver,
    pub entry: Option<queue::Entry>,
}

// The output pins as levels (SOUT, INTRPT: 1 is high; the others: 1 is asserted).
#[repr(C)]
#[derive(Clone, Copy)]
pub struct Outputs {
    pub sout: u8,
    pub rts: u8,
    pub dtr: u8,
    pub out1: u8,
    pub out2: u8,
    pub intrpt: u8,
}

// The answers. Beside number 1 stands the part of the state that is bad, beside every other number 0. Both
// are bytes and no enum, and each answer is a struct of its own, since C has them so.

// What the look at the pins answers.
#[repr(C)]
#[derive(Clone, Copy)]
pub struct Looked {
    pub number: u8,
    pub part: u8,
    pub outputs: Outputs,
}

// What the forecast answers: T, the ticks until queue and shift register are both empty.
#[repr(C)]
#[derive(Clone, Copy)]
pub struct Forecasted {
    pub number: u8,
    pub part: u8,
    pub ticks: u32,
}

// What the call for the line's level answers.
#[repr(C)]
#[derive(Clone, Copy)]
pub struct Leveled {
    pub number: u8,
    pub part: u8,
    pub level: u8,
}

// What run answers: the ticks used, and the state after them.
#[repr(C)]
#[derive(Clone, Copy)]
pub struct Ran {
    pub number: u8,
    pub part: u8,
    pub used: u32,
    pub state: State,
}

// What ticks by jumps answer: the number of jumps, and the state after them.
#[repr(C)]
#[derive(Clone, Copy)]
pub struct Jumped {
    pub number: u8,
    pub part: u8,
    pub jumps: u32,
    pub state: State,
}

// What run by jumps answers: the ticks used, the number of jumps, and the state after them.
#[repr(C)]
#[derive(Clone, Copy)]
pub struct JumpRan {
    pub number: u8,
    pub part: u8,
    pub used: u32,
    pub jumps: u32,
    pub state: State,
}

// What a step answers. The part stands last: before the state, it would move it off a multiple of eight
// bytes, and copies would take longer.
#[repr(C)]
#[derive(Clone, Copy)]
pub struct Answer {
    pub number: u8,
    pub byte: u8,
    pub outputs: Outputs,
    pub state: State,
    pub part: u8,
}
