// The numbers of a state, in the protocol's order, and the state of such numbers, each cut to its type.
//
// A group of numbers stands after another: settings, transmit queue, frame, receive queue, receiver
// with latches and kept errors. Places count from 1.
#![tactic(auto)]

ghost use Rattle.std.specs.Prelude.{◌≡◌, map, ◌+◌, ◌*◌, ◌%◌, ◌≤◌, length};
ghost use Rattle.text.specs.Text.{Appended};
ghost use Rattle.numbers.specs.Numbers.{settings_numbers, frame_numbers, entry_numbers, entries_numbers, receiver_numbers, numbers_of};
ghost use Rattle.numbers.specs.Numbers.{registers_of, transmit_of, entry_of, entries_of, receive_of, frame_of, receiver_of, latches_of, kept_of, state_of, low as «low_of»};

use device::{Baud, FifoControl, Frame, Inputs, Latches, Receiver, Registers, State};
use queue::{ByteQueue, Entry, EntryQueue, Errors};
use sheet::limits;
use text::buffer;

// How many numbers stand before each group that follows the settings.
pub const TRANSMIT: usize = 13;

pub const FRAME: usize = TRANSMIT + limits::PLACES;

pub const RECEIVE: usize = FRAME + 4;

pub const RECEIVER: usize = RECEIVE + 4 * limits::PLACES;

// How many numbers a state has.
pub const COUNT: usize = RECEIVER + 14;

// A number cut to a byte.
fn low(n: u32) -> u8
    ensures { result ≡ «low_of» n }
{
    (n % 256) as u8
}

// Places 1..13: the registers, the FIFO's settings, the pins and the transmit count.
fn settings_numbers(r: Registers, b: Baud, f: FifoControl, i: Inputs, count: u32) -> [u32; 13]
    ensures { result ≡ settings_numbers r b f i count }
{
    [
        u32::from(r.ier),
        u32::from(r.mcr),
        u32::from(r.lcr),
        u32::from(r.scr),
        b.divisor,
        b.k,
        u32::from(f.enabled),
        u32::from(f.size),
        u32::from(f.dma),
        u32::from(f.trigger),
        u32::from(i.modem),
        u32::from(i.sin),
        count,
    ]
}

// Places 78..81: the frame now sent, and the receive count.
fn frame_numbers(s: State) -> [u32; 4]
    ensures { result ≡ frame_numbers s }
{
    [
        s.frame.left,
        u32::from(s.frame.byte),
        u32::from(s.frame.format),
        s.rx.count,
    ]
}

// Places 338..351: the receiver, the latches and the kept errors.
fn receiver_numbers(v: Receiver, l: Latches, k: Errors) -> [u32; 14]
    ensures { result ≡ receiver_numbers v l k }
{
    [
        u32::from(v.phase),
        v.position,
        u32::from(v.format),
        u32::from(v.samples),
        u32::from(v.parity),
        u32::from(l.empty),
        u32::from(l.overrun),
        u32::from(l.timeout),
        l.idle,
        u32::from(l.changes),
        u32::from(l.hold),
        u32::from(k.pe),
        u32::from(k.fe),
        u32::from(k.bi),
    ]
}

// Puts the places of the transmit queue into out from `at` on. A place of this queue has one number, one of
// the receive queue four: one function for both would take their count and a closure.
fn put_bytes(bytes: [u8; limits::PLACES], out: &mut [u32], at: usize)
    requires { at + 64 ≤ length out.old }
    ensures { Appended out.old at bytes out.new (at + 64) }
{
    for (i, b) in bytes.iter().enumerate() {
        out[at + i] = u32::from(*b);
    }
}

// An entry's numbers: byte, PE, FE, BI.
fn entry_numbers(e: Entry) -> [u32; 4]
    ensures { result ≡ entry_numbers e }
{
    [
        u32::from(e.byte),
        u32::from(e.pe),
        u32::from(e.fe),
        u32::from(e.bi),
    ]
}

// Puts the places of the receive queue into out from `at` on.
fn put_entries(entries: [Entry; limits::PLACES], out: &mut [u32], at: usize)
    requires { at + 256 ≤ length out.old }
    ensures { Appended out.old at (entries_numbers entries) out.new (at + 256) }
{
    for (i, e) in entries.iter().enumerate() {
        let four = entry_numbers(*e);
        buffer::put_at(&four, out, at + 4 * i);
    }
}

// Puts the numbers of a state into out.
pub fn put_state(s: State, out: &mut [u32; COUNT])
    ensures { out.new ≡ numbers_of s }
{
    let settings = settings_numbers(s.registers, s.baud, s.fifo, s.inputs, s.tx.count);
    buffer::put_at(&settings, out, 0);
    let tx = s.tx;
    let bytes = tx.bytes;
    put_bytes(bytes, out, TRANSMIT);
    let frame = frame_numbers(s);
    buffer::put_at(&frame, out, FRAME);
    let rx = s.rx;
    let entries = rx.entries;
    put_entries(entries, out, RECEIVE);
    let receiver = receiver_numbers(s.receiver, s.latches, s.kept);
    buffer::put_at(&receiver, out, RECEIVER);
}

// The registers.
fn registers_of(n: &[u32; COUNT]) -> Registers
    ensures { result ≡ registers_of n.now }
{
    Registers {
        ier: low(n[0]),
        mcr: low(n[1]),
        lcr: low(n[2]),
        scr: low(n[3]),
    }
}

// The frame now sent.
fn frame_of(n: &[u32; COUNT]) -> Frame
    ensures { result ≡ frame_of n.now }
{
    Frame {
        left: n[77],
        byte: low(n[78]),
        format: low(n[79]),
    }
}

// The bytes of the transmit queue's places.
fn bytes_of(n: &[u32]) -> [u8; limits::PLACES]
    requires { length n.now ≡ 64 }
    ensures { result ≡ map «low_of» n.now }
{
    let mut bytes = [0u8; limits::PLACES];
    for (i, b) in bytes.iter_mut().enumerate() {
        *b = low(n[i]);
    }
    bytes
}

// The transmit queue.
fn transmit_of(n: &[u32; COUNT]) -> ByteQueue
    ensures { result ≡ transmit_of n.now }
{
    ByteQueue {
        bytes: bytes_of(&n[TRANSMIT..FRAME]),
        count: n[12],
    }
}

// The receiver.
fn receiver_of(n: &[u32; COUNT]) -> Receiver
    ensures { result ≡ receiver_of n.now }
{
    Receiver {
        phase: low(n[337]),
        position: n[338],
        format: low(n[339]),
        samples: low(n[340]),
        parity: low(n[341]),
    }
}

// The kept errors.
fn kept_of(n: &[u32; COUNT]) -> Errors
    ensures { result ≡ kept_of n.now }
{
    Errors {
        pe: low(n[348]),
        fe: low(n[349]),
        bi: low(n[350]),
    }
}

// The latches.
fn latches_of(n: &[u32; COUNT]) -> Latches
    ensures { result ≡ latches_of n.now }
{
    Latches {
        empty: low(n[342]),
        overrun: low(n[343]),
        timeout: low(n[344]),
        idle: n[345],
        changes: low(n[346]),
        hold: low(n[347]),
    }
}

// The entry of the first four numbers.
fn entry_of(n: &[u32]) -> Entry
    requires { 4 ≤ length n.now }
    ensures { result ≡ entry_of n.now }
{
    Entry {
        byte: low(n[0]),
        pe: low(n[1]),
        fe: low(n[2]),
        bi: low(n[3]),
    }
}

// The entries of the receive queue's places.
fn entries_of(n: &[u32]) -> [Entry; limits::PLACES]
    requires { length n.now ≡ 256 }
    ensures { result ≡ entries_of 64 n.now }
{
    let mut entries = [queue::entries::none(); limits::PLACES];
    for (i, e) in entries.iter_mut().enumerate() {
        *e = entry_of(&n[4 * i..]);
    }
    entries
}

// The receive queue.
fn receive_of(n: &[u32; COUNT]) -> EntryQueue
    ensures { result ≡ receive_of n.now }
{
    EntryQueue {
        entries: entries_of(&n[RECEIVE..RECEIVER]),
        count: n[80],
    }
}

// The state of these numbers, each cut to its place's type.
pub fn state_of(n: &[u32; COUNT]) -> State
    ensures { result ≡ state_of n.now }
{
    State {
        registers: registers_of(n),
        baud: Baud {
            divisor: n[4],
            k: n[5],
        },
        fifo: FifoControl {
            enabled: low(n[6]),
            size: low(n[7]),
            dma: low(n[8]),
            trigger: low(n[9]),
        },
        inputs: Inputs {
            modem: low(n[10]),
            sin: low(n[11]),
        },
        tx: transmit_of(n),
        frame: frame_of(n),
        rx: receive_of(n),
        receiver: receiver_of(n),
        latches: latches_of(n),
        kept: kept_of(n),
    }
}
