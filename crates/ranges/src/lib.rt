// The ranges of a well-formed state, a function for each of the five parts of `Ranges.antt`; those of
// parts 3 and 4 stand in `queue_ranges`.
#![tactic(auto)]

ghost use Rattle.std.specs.Prelude.{◌≡◌, cond, ◌&&◌, leb, eqb};
ghost use Rattle.flag.specs.Flag.{every};
ghost use Rattle.device.specs.Ranges.{register_ranges, setting_ranges, latch_ranges, queue_latch_ranges, flow_latch_ranges, well_formed, part_of};

use device::{Baud, FifoControl, Inputs, Latches, Registers, State};
use queue_ranges::{receive_in_range, transmit_in_range};
use settings::{autoflow, fifo};
use sheet::{bits, limits, part};

// k is 0 if the divisor is, else 1 up to the divisor.
fn k_in_range(b: Baud) -> bool
    ensures { result ≡ cond (eqb b.divisor 0) (eqb b.k 0) (leb 1 b.k && leb b.k b.divisor) }
{
    let k = b.k;
    if b.divisor == 0 {
        return k == 0;
    }
    1 <= k && k <= b.divisor
}

// Part 1: registers, divisor and k.
pub fn registers_in_range(r: Registers, b: Baud) -> bool
    ensures { result ≡ every (register_ranges r b) }
{
    r.ier <= limits::IER_MOST
        && r.mcr <= limits::MCR_MOST
        && b.divisor <= limits::DIVISOR_MOST
        && k_in_range(b)
}

// Part 2: FIFO settings and pins.
pub fn settings_in_range(f: FifoControl, i: Inputs) -> bool
    ensures { result ≡ every (setting_ranges f i) }
{
    f.enabled <= 1
        && f.size <= 1
        && f.dma <= 1
        && f.trigger <= limits::TRIGGER_MOST
        && i.modem <= limits::MODEM_MOST
        && i.sin <= limits::SIN_MOST
}

// The latches of the queues: transmit-empty, OE, time-out and the idle count, with m bytes queued
// to transmit and n received.
fn queue_latches_in_range(f: FifoControl, m: u32, n: u32, l: Latches) -> bool
    ensures { result ≡ every (queue_latch_ranges f m n l) }
{
    let on = f.enabled == 1;
    l.empty <= 1
        && (l.empty != 1 || m == 0)
        && l.overrun <= 1
        && l.timeout <= 1
        && (l.timeout != 1 || on && 0 < n)
        && l.idle <= limits::IDLE_MOST
        && (on && n != 0 || l.idle == 0)
}

// The latches of flow control: the change bits and RTS hold, with n characters received.
fn flow_latches_in_range(r: Registers, f: FifoControl, n: u32, l: Latches) -> bool
    ensures { result ≡ every (flow_latch_ranges r f n l) }
{
    let auto_rts = autoflow::auto_rts(r, f);
    let full = fifo::trigger_level(f) <= n;
    l.changes <= limits::CHANGES_MOST
        && (!autoflow::autoflow(r, f) || !flag::has(l.changes, bits::CTS))
        && l.hold <= 1
        && (auto_rts || l.hold == 0)
        && (!auto_rts || !full || l.hold == 1)
        && (n != 0 || l.hold == 0)
}

// Part 5: latches, idle count, change bits, hold.
pub fn latches_in_range(r: Registers, f: FifoControl, m: u32, n: u32, l: Latches) -> bool
    ensures { result ≡ every (latch_ranges r f m n l) }
{
    queue_latches_in_range(f, m, n, l) && flow_latches_in_range(r, f, n, l)
}

// The lowest part of the state that breaks a range; 0 exactly where the state is well formed. A byte and no
// Option, since the answers of the C interface take it as it stands.
#[tactic(auto, unfolding(device::specs::Ranges::well_formed, device::specs::Ranges::part_of))]
pub fn part_of(s: State) -> u8
    ensures lowest { result ≡ part_of s }
    ensures none { well_formed s ≡ eqb result 0 }
{
    if !registers_in_range(s.registers, s.baud) {
        return part::REGISTERS;
    }
    if !settings_in_range(s.fifo, s.inputs) {
        return part::SETTINGS;
    }
    if !transmit_in_range(s.fifo, s.tx, s.frame) {
        return part::TRANSMIT;
    }
    if !receive_in_range(s.fifo, s.rx, s.receiver, s.kept) {
        return part::RECEIVE;
    }
    if !latches_in_range(s.registers, s.fifo, s.tx.count, s.rx.count, s.latches) {
        return part::LATCHES;
    }
    part::NONE
}
