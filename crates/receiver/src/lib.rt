// The receiver's part of a pulse.
#![tactic(auto)]

pub mod samples;

ghost use Rattle.std.specs.Prelude.{◌≡◌, cond, not, ◌&&◌, ◌≤◌};
ghost use Rattle.queue.specs.Queue.{is_full};
ghost use Rattle.device.specs.State.{with_overrun};
ghost use Rattle.device.specs.Fifo.{capacity};
ghost use Rattle.device.specs.Transmitter.{line};
ghost use Rattle.device.specs.Receiver.{goes_on, start_at, is_break, entry_of, stop_sample, sampled, at_position, in_character, receiver_pulse, receiver_pulse_of, with_entry, with_received};
ghost use Rattle.receiver.specs.Needs.{Sampling, Hearing};

use device::{CHARACTER, FifoControl, Frame, IDLE, Latches, Received, Receiver, State, WAITING};
use queue::Entry;
use settings::{errors, fifo, modem, sampling};
use sheet::limits;

// The receiver in no character: idle, or waiting for mark.
fn outside(phase: u8) -> Receiver
    ensures { result ≡ record { phase = phase; format = 0; samples = 0; parity = 0; position = 0 } }
{
    Receiver {
        phase,
        format: 0,
        samples: 0,
        parity: 0,
        position: 0,
    }
}

// A character begins at a position, its format from LCR.
fn start_at(position: u32, lcr: u8) -> Receiver
    ensures { result ≡ start_at position lcr }
{
    Receiver {
        phase: CHARACTER,
        format: lcr % limits::SIX_BITS,
        samples: 0,
        parity: 0,
        position,
    }
}

// No character ended.
fn goes_on(v: Receiver) -> Received
    ensures { result ≡ goes_on v }
{
    Received {
        receiver: v,
        entry: None,
    }
}

// Whether every sample is low, the stop sample too.
fn is_break(v: Receiver, level: u8) -> bool
    ensures { result ≡ is_break v level }
{
    v.samples == 0 && v.parity == 0 && level == 0
}

// The entry of a character with this stop sample.
#[tactic(auto, unfolding(device::specs::Receiver::entry_of))]
fn entry_of(v: Receiver, level: u8) -> Entry
    ensures { result ≡ entry_of v level }
{
    let differs = v.parity != frame::parity_bit(v.samples, v.format);
    Entry {
        byte: v.samples,
        pe: u8::from(frame::parity_bits(v.format) == 1 && differs),
        fe: u8::from(level == 0),
        bi: u8::from(is_break(v, level)),
    }
}

// The first stop sample ends the character. After a break the receiver waits for mark; after FE
// without break the low sample is the next start bit.
#[tactic(auto, unfolding(device::specs::Receiver::stop_sample))]
fn stop_sample(level: u8, lcr: u8, v: Receiver) -> Received
    ensures { result ≡ stop_sample level lcr v }
{
    let receiver = if is_break(v, level) {
        outside(WAITING)
    } else if level == 0 {
        start_at(8, lcr)
    } else {
        outside(IDLE)
    };
    Received {
        receiver,
        entry: Some(entry_of(v, level)),
    }
}

// The character with its next sample: data from bit 0, then parity.
#[tactic(auto, unfolding(device::specs::Receiver::sampled))]
fn sample(level: u8, v: Receiver) -> Receiver
    requires { Sampling level v }
    ensures { result ≡ sampled level v }
{
    let n = sampling::samples_taken(v.position);
    if n < frame::data_bits(v.format) {
        let samples = v.samples + (level << n);
        return Receiver { samples, ..v };
    }
    Receiver { parity: level, ..v }
}

// The character at a position.
pub fn at_position(position: u32, v: Receiver) -> Receiver
    ensures { result ≡ at_position position v }
{
    Receiver { position, ..v }
}

// In a character, at its next position: samples fall at 8, 24, 40 and so on.
#[tactic(auto, unfolding(device::specs::Receiver::in_character))]
fn in_character(level: u8, lcr: u8, position: u32, v: Receiver) -> Received
    requires { Sampling level v }
    ensures { result ≡ in_character level lcr position v }
{
    if position % 16 != 8 {
        return goes_on(at_position(position, v));
    }
    if position == 8 {
        if level == 1 {
            return goes_on(outside(IDLE));
        }
        return goes_on(at_position(position, v));
    }
    if position == sampling::stop_position(v.format) {
        return stop_sample(level, lcr, v);
    }
    goes_on(at_position(position, sample(level, v)))
}

// What a pulse that hears a level makes of the receiver.
#[tactic(auto, unfolding(device::specs::Receiver::receiver_pulse))]
fn receive(level: u8, lcr: u8, v: Receiver) -> Received
    requires { Sampling level v }
    ensures { result ≡ receiver_pulse level lcr v }
{
    if v.phase == CHARACTER {
        return in_character(level, lcr, v.position + 1, v);
    }
    if v.phase == WAITING {
        if level == 1 {
            return goes_on(outside(IDLE));
        }
        return goes_on(v);
    }
    if level == 0 {
        return goes_on(start_at(0, lcr));
    }
    goes_on(v)
}

// The level that the receiver hears: in loopback the transmitter's line, else SIN.
fn heard(loopback: bool, x: Frame, sin: u8) -> u8
    requires { sin ≤ 1 }
    ensures { (result ≡ cond loopback (line x) sin) × (result ≤ 1) }
{
    if loopback {
        return frame::line_level(x.left, x.byte, x.format);
    }
    sin
}

// What a pulse makes of a receiver.
pub fn listen(loopback: bool, x: Frame, sin: u8, lcr: u8, v: Receiver) -> Received
    requires { Sampling sin v }
    ensures { result ≡ receiver_pulse (cond loopback (line x) sin) lcr v }
{
    let level = heard(loopback, x, sin);
    receive(level, lcr, v)
}

// What this pulse makes of the receiver.
#[tactic(auto, unfolding(device::specs::Receiver::heard))]
pub fn hear(s: State) -> Received
    requires { Hearing s }
    ensures { result ≡ receiver_pulse_of s }
{
    let loopback = modem::loopback(s.registers);
    listen(loopback, s.frame, s.inputs.sin, s.registers.lcr, s.receiver)
}

// Whether a queue with `count` entries is full.
#[tactic(auto, unfolding(queue::specs::Queue::is_full))]
pub fn is_full(f: FifoControl, count: u32) -> bool
    ensures { result ≡ is_full (capacity f) count }
{
    fifo::capacity(f) <= count
}

// Whether a character enters the queue in this pulse, where one ended or not.
pub fn enters(s: State, ended: bool) -> bool
    ensures { result ≡ (ended && not (is_full (capacity s.fifo) s.rx.count)) }
{
    ended && !is_full(s.fifo, s.rx.count)
}

// The latches after a character is put into a queue that was full or not: a full one sets OE.
pub fn overrun(full: bool, l: Latches) -> Latches
    ensures { result ≡ with_overrun l (cond full 1 l.overrun) }
{
    Latches {
        overrun: errors::set_if(full, l.overrun),
        ..l
    }
}

// An entry is put into the queue, in character mode its errors apart. A full queue sets OE.
#[tactic(auto, unfolding(device::specs::Receiver::with_entry))]
fn enter(s: State, e: Entry) -> State
    ensures { result ≡ with_entry s e }
{
    let f = s.fifo;
    State {
        rx: queue::entries::put(s.rx, fifo::capacity(f), errors::entering(f, e)),
        latches: overrun(is_full(f, s.rx.count), s.latches),
        kept: errors::kept_after(f, e, s.kept),
        ..s
    }
}

// The state with what a pulse made of the receiver, and the entry of a character that ended.
#[tactic(auto, unfolding(device::specs::Receiver::with_received))]
pub fn accept(s: State, r: Received) -> State
    ensures { result ≡ with_received s r }
{
    let next = State {
        receiver: r.receiver,
        ..s
    };
    if let Some(e) = r.entry {
        return enter(next, e);
    }
    next
}
