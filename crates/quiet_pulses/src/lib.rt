// The quiet pulses: those before the next event, in which a byte is loaded, or a character begins or
// ends. Until then only L, P with its samples and the idle count change, and any number of pulses is
// made at once: `shift_by`, `hear_by`, `later_by`.
//
// `reach` counts them. That m of them are m pulses of `Tick.antt` is the law `quiet_pulses`.
#![tactic(auto)]

ghost use Rattle.std.specs.Prelude.{◌≡◌, ◌+◌, ◌≤◌, min};
ghost use Rattle.quiet_pulses.specs.Needs.{Hearing};
ghost use Rattle.quiet_pulses.specs.Quiet.{sends as «sends-of», shifted_by, low_heard, place_heard, low_from, false_start, character_hears, hears as «hears-of», heard_by, counted_by, later_by, reach_of};

use device::{CHARACTER, FifoControl, Frame, Latches, Receiver, State, WAITING};
use line::{idle, transmitter};
use receiver::samples;
use settings::{modem, sampling};
use sheet::limits;

// No event comes: as many pulses as a call can ask for.
const NEVER: u32 = 4294967295;

// All of 32 bits low: a character has fewer.
const ALL_LOW: u32 = 4294967295;

// The pulses before a byte is loaded, with so many left of the frame, where one is ready or not.
#[tactic(auto, unfolding(crate::specs::Quiet::sends))]
fn sends(ready: bool, left: u32) -> u32
    ensures { result ≡ «sends-of» ready left }
{
    if ready {
        return left.saturating_sub(1);
    }
    NEVER
}

// Loopback, frame and SIN stand apart in what follows, as the definitions take them: each contract would
// take a struct of them apart again.

// The low bits of the line that the receiver hears: in loopback those of the frame, else SIN's.
#[tactic(auto, unfolding(crate::specs::Quiet::low_heard))]
fn low_heard(loopback: bool, x: Frame, sin: u8) -> u32
    ensures { result ≡ low_heard loopback x sin }
{
    if loopback {
        return frame::low_bits(x.byte, x.format);
    }
    if sin == 1 {
        return 0;
    }
    ALL_LOW
}

// The place in them now.
#[tactic(auto, unfolding(crate::specs::Quiet::place_heard))]
fn place_heard(loopback: bool, x: Frame) -> u32
    ensures { (result ≡ place_heard loopback x) × (result ≤ 192) }
{
    if loopback {
        return frame::frame_length(x.format).saturating_sub(x.left);
    }
    0
}

// The low bits from i pulses on.
fn low_from(loopback: bool, x: Frame, sin: u8, i: u32) -> u32
    requires { i ≤ 8 }
    ensures { result ≡ low_from loopback x sin i }
{
    let at = (place_heard(loopback, x) + i) / 16;
    low_heard(loopback, x, sin) >> at
}

// Whether the start sample of a character is still to come, and will be high.
#[tactic(auto, unfolding(crate::specs::Quiet::false_start))]
fn false_start(loopback: bool, x: Frame, sin: u8, position: u32) -> bool
    ensures { result ≡ false_start loopback x sin position }
{
    position < 8 && low_from(loopback, x, sin, 8 - position) % 2 == 0
}

// The pulses of a character before a false start's sample, or before its stop sample.
#[tactic(auto, unfolding(crate::specs::Quiet::character_hears))]
fn character_hears(loopback: bool, x: Frame, sin: u8, v: Receiver) -> u32
    ensures { result ≡ character_hears loopback x sin v }
{
    let position = v.position;
    if false_start(loopback, x, sin, position) {
        return 7u32.saturating_sub(position);
    }
    (sampling::stop_position(v.format) - 1).saturating_sub(position)
}

// The pulses before a character begins or ends.
#[tactic(auto, unfolding(crate::specs::Quiet::hears))]
fn hears(loopback: bool, x: Frame, sin: u8, v: Receiver) -> u32
    ensures { result ≡ «hears-of» loopback x sin v }
{
    if v.phase == CHARACTER {
        return character_hears(loopback, x, sin, v);
    }
    if v.phase == WAITING {
        if !loopback && sin == 0 {
            return NEVER;
        }
        return 0;
    }
    if low_from(loopback, x, sin, 1) == 0 {
        return NEVER;
    }
    0
}

// The frame m pulses later; the receiver, the idle count. Those of a single pulse stand in `line` and
// `receiver`, each by the definition of its own.
#[tactic(auto, unfolding(crate::specs::Quiet::shifted_by))]
pub fn shift_by(m: u32, x: Frame) -> Frame
    ensures { result ≡ shifted_by m x }
{
    if x.left <= m {
        return transmitter::no_frame();
    }
    Frame {
        left: x.left - m,
        ..x
    }
}

// The receiver m pulses later.
#[tactic(auto, unfolding(crate::specs::Quiet::heard_by))]
pub fn hear_by(loopback: bool, x: Frame, sin: u8, m: u32, v: Receiver) -> Receiver
    requires { Hearing loopback x m v }
    ensures { result ≡ heard_by loopback x sin m v }
{
    if v.phase != CHARACTER {
        return v;
    }
    let place = place_heard(loopback, x);
    samples::sample_by(low_heard(loopback, x, sin), place, m, v)
}

// The latches m pulses later, with the idle count going on.
#[tactic(auto, using(crate::proofs::Counted::counted_some))]
fn count_by(limit: u32, m: u32, l: Latches) -> Latches
    requires { (1 ≤ m) × (l.idle ≤ 769) }
    ensures { result ≡ counted_by limit m l }
{
    let n = l.idle.saturating_add(m).min(limits::IDLE_MOST);
    Latches {
        timeout: idle::time_out(limit, n, l.timeout),
        idle: n,
        ..l
    }
}

// The latches m pulses later, with `received` characters queued.
pub fn later_by(f: FifoControl, received: u32, lcr: u8, m: u32, l: Latches) -> Latches
    requires { (1 ≤ m) × (l.idle ≤ 769) }
    ensures { result ≡ later_by f received lcr m l }
{
    if idle::counts(f, received) {
        return count_by(idle::limit(lcr), m, l);
    }
    l
}

// The pulses before the next event, `most` at most.
#[tactic(auto, unfolding(crate::specs::Quiet::reach_of, device::specs::Transmitter::ready))]
pub fn reach(s: State, most: u32) -> u32
    ensures { result ≡ min (reach_of s) most }
{
    let ready = transmitter::ready(s.tx.count, s.registers, s.fifo, s.inputs);
    let loopback = modem::loopback(s.registers);
    let sent = sends(ready, s.frame.left);
    let heard = hears(loopback, s.frame, s.inputs.sin, s.receiver);
    sent.min(heard).min(most)
}
