// The layout of the structs, as this library has it, for a client to hold its own declarations
// against: the size of each struct, and a specimen of each in which every byte of a field is the
// field's number. The place of each field stands in the specimen's bytes. The language has no call
// for a size: the definitions count each up from its fields by C's rules.
//
// The state's fields are numbered from 1 in the order of declaration, those of the answers from 100:
// the number answered is field 100; the byte, the ticks, the level, the ticks used and a replay's byte
// seen are field 101; the output pins are fields 102..107; a replay's byte of the model is field 108,
// its place field 109; a file's version, what stopped it and the records done are fields 110..112; the
// part of the state that is bad is field 113; a divisor and its error are fields 114 and 115; the words
// that were written are field 116; the jumps made are field 117.
ghost use Rattle.std.specs.Prelude.{◌≡◌};
ghost use Rattle.export.specs.Layout.{sizes, state_specimen, answer_specimen, looked_specimen, forecasted_specimen, leveled_specimen, ran_specimen, values_specimen, replayed_specimen, progress_specimen, picked_specimen, expected_specimen, expect_progress_specimen, jumped_specimen, jump_ran_specimen};

use capture::Values;
use client::Replay;
use client::file::Progress;
use device::{
    Answer, Baud, FifoControl, Forecasted, Frame, Inputs, JumpRan, Jumped, Latches, Leveled,
    Looked, Outputs, Ran, Receiver, Registers, State,
};
use expected::Expected;
use queue::{ByteQueue, Entry, EntryQueue, Errors};
use rate::Picked;

// The sizes in bytes.
#[repr(C)]
#[derive(Clone, Copy)]
pub struct Sizes {
    pub state: u32,
    pub answer: u32,
    pub looked: u32,
    pub forecasted: u32,
    pub leveled: u32,
    pub ran: u32,
    pub replayed: u32,
    pub progress: u32,
    pub picked: u32,
    pub expected: u32,
    pub expecting: u32,
    pub jumped: u32,
    pub jumpran: u32,
}

#[unsafe(no_mangle)]
pub extern "C" fn uart_sizes_of_structs() -> Sizes
    ensures { result ≡ sizes }
{
    Sizes {
        state: 380,
        answer: 392,
        looked: 8,
        forecasted: 8,
        leveled: 3,
        ran: 388,
        replayed: 400,
        progress: 416,
        picked: 12,
        expected: 400,
        expecting: 400,
        jumped: 388,
        jumpran: 392,
    }
}

// The state: fields 1..36.
#[unsafe(no_mangle)]
pub extern "C" fn uart_specimen_state() -> State
    ensures { result ≡ state_specimen }
{
    let e = Entry {
        byte: 18,
        pe: 19,
        fe: 20,
        bi: 21,
    };
    State {
        registers: Registers {
            ier: 1,
            mcr: 2,
            lcr: 3,
            scr: 4,
        },
        baud: Baud {
            divisor: 0x05050505,
            k: 0x06060606,
        },
        fifo: FifoControl {
            enabled: 7,
            size: 8,
            dma: 9,
            trigger: 10,
        },
        inputs: Inputs { modem: 11, sin: 12 },
        tx: ByteQueue {
            bytes: [13u8; 64],
            count: 0x0e0e0e0e,
        },
        frame: Frame {
            left: 0x0f0f0f0f,
            byte: 16,
            format: 17,
        },
        rx: EntryQueue {
            entries: [e; 64],
            count: 0x16161616,
        },
        receiver: Receiver {
            phase: 23,
            format: 24,
            samples: 25,
            parity: 26,
            position: 0x1b1b1b1b,
        },
        latches: Latches {
            empty: 28,
            overrun: 29,
            timeout: 30,
            changes: 31,
            hold: 32,
            idle: 0x21212121,
        },
        kept: Errors {
            pe: 34,
            fe: 35,
            bi: 36,
        },
    }
}

#[unsafe(no_mangle)]
pub extern "C" fn uart_specimen_leveled() -> Leveled
    ensures { result ≡ leveled_specimen }
{
    Leveled {
        number: 100,
        part: 113,
        level: 101,
    }
}

#[unsafe(no_mangle)]
pub extern "C" fn uart_specimen_forecasted() -> Forecasted
    ensures { result ≡ forecasted_specimen }
{
    Forecasted {
        number: 100,
        part: 113,
        ticks: 0x65656565,
    }
}

#[unsafe(no_mangle)]
pub extern "C" fn uart_specimen_answer() -> Answer
    ensures { result ≡ answer_specimen }
{
    let looked = uart_specimen_looked();
    let outputs = looked.outputs;
    Answer {
        number: 100,
        part: 113,
        byte: 101,
        outputs,
        state: uart_specimen_state(),
    }
}

#[unsafe(no_mangle)]
pub extern "C" fn uart_specimen_ran() -> Ran
    ensures { result ≡ ran_specimen }
{
    Ran {
        number: 100,
        part: 113,
        used: 0x65656565,
        state: uart_specimen_state(),
    }
}

// As run's, with the jumps for the ticks used.
#[unsafe(no_mangle)]
pub extern "C" fn uart_specimen_jumped() -> Jumped
    ensures { result ≡ jumped_specimen }
{
    let r = uart_specimen_jump_ran();
    let state = r.state;
    Jumped {
        number: r.number,
        part: r.part,
        jumps: r.jumps,
        state,
    }
}

// As run's, with the jumps behind the ticks used.
#[unsafe(no_mangle)]
pub extern "C" fn uart_specimen_jump_ran() -> JumpRan
    ensures { result ≡ jump_ran_specimen }
{
    let r = uart_specimen_ran();
    let state = r.state;
    JumpRan {
        number: r.number,
        part: r.part,
        used: r.used,
        jumps: 0x75757575,
        state,
    }
}

#[unsafe(no_mangle)]
pub extern "C" fn uart_specimen_looked() -> Looked
    ensures { result ≡ looked_specimen }
{
    Looked {
        number: 100,
        part: 113,
        outputs: Outputs {
            sout: 102,
            rts: 103,
            dtr: 104,
            out1: 105,
            out2: 106,
            intrpt: 107,
        },
    }
}

fn specimen_values() -> Values
    ensures { result ≡ values_specimen }
{
    Values {
        number: 100,
        part: 113,
        seen: 101,
        model: 108,
        place: 0x6d6d6d6d6d6d6d6d,
    }
}

#[unsafe(no_mangle)]
pub extern "C" fn uart_specimen_replayed() -> Replay
    ensures { result ≡ replayed_specimen }
{
    Replay {
        values: specimen_values(),
        state: uart_specimen_state(),
    }
}

#[unsafe(no_mangle)]
pub extern "C" fn uart_specimen_progress() -> Progress
    ensures { result ≡ progress_specimen }
{
    Progress {
        version: 0x6e6e6e6e,
        stopped: 111,
        done: 0x7070707070707070,
        values: specimen_values(),
        state: uart_specimen_state(),
    }
}

#[unsafe(no_mangle)]
pub extern "C" fn uart_specimen_picked() -> Picked
    ensures { result ≡ picked_specimen }
{
    Picked {
        number: 100,
        divisor: 0x72727272,
        error: 0x73737373,
    }
}

#[unsafe(no_mangle)]
pub extern "C" fn uart_specimen_expected() -> Expected
    ensures { result ≡ expected_specimen }
{
    Expected {
        number: 100,
        part: 113,
        count: 0x7474747474747474,
        state: uart_specimen_state(),
    }
}

#[unsafe(no_mangle)]
pub extern "C" fn uart_specimen_expect_progress() -> expected_file::Progress
    ensures { result ≡ expect_progress_specimen }
{
    expected_file::Progress {
        number: 100,
        part: 113,
        version: 0x6e6e6e6e,
        count: 0x7474747474747474,
        state: uart_specimen_state(),
    }
}
