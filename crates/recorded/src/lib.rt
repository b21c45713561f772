// A record's step: the record that the model expects, and the state after it, by the ways in which
// records touch the state. The loop over records leaves in place what a record does not touch.
#![tactic(auto)]

ghost use Rattle.std.specs.Prelude.{◌≡◌, true, false, ◌<◌};
ghost use Rattle.recorder.specs.Record.{kind as «kind-of», address as «address-of», is_read};
ghost use Rattle.device.specs.Ranges.{well_formed};
ghost use Rattle.device.specs.Lcr.{divisor_access};
ghost use Rattle.invariant.specs.Touch.{reaches_queue, numbers_of};
ghost use Rattle.recorded.specs.Record.{step_of, model_byte, expected};
ghost use Rattle.recorded.specs.Way.{IsWay};

use device::{Numbers, State};
use fifos::thr::Queued;
use recorder::record;
use recorder::record::Kind;
use sheet::bits;

// The ways of a record: it changes nothing, is a write that reaches no queue, a write to THR, a read
// that may change the state, ticks, or any other record.
#[derive(Clone, Copy, PartialEq, Eq)]
pub enum Way {
    Nothing,
    Numbers,
    Transmit,
    Read,
    Ticks,
    Other,
}

// The record that the model expects: a read with its byte, any other record as it stands.
pub fn expects(s: State, w: u32) -> u32
    requires { well_formed s ≡ true }
    ensures value { result ≡ expected s w }
    ensures w_bound { model_byte s w < 256 }
{
    match Kind::of(w) {
        Some(Kind::Read) => record::with_byte(w, bus::value(s, record::address(w))),
        _ => w,
    }
}

// Whether a read may change the state.
fn way_of_read(s: State, w: u32) -> Way
    requires s_value { well_formed s ≡ true }
    requires w_value { is_read w ≡ true }
    ensures { IsWay s w result }
{
    if bus::read_changes(s, record::address(w)) {
        return Way::Read;
    }
    Way::Nothing
}

// What a write reaches.
fn way_of_write(s: State, w: u32) -> Way
    requires { «kind-of» w ≡ 2 }
    ensures { IsWay s w result }
{
    let address = record::address(w);
    if address == bits::FCR {
        return Way::Other;
    }
    if bus::reaches_queue(s, address) {
        return Way::Transmit;
    }
    Way::Numbers
}

impl Way {
    // The way of a record.
    pub fn of(s: State, w: u32) -> Way
        requires { well_formed s ≡ true }
        ensures { IsWay s w result }
    {
        match Kind::of(w) {
            Some(Kind::Read) => way_of_read(s, w),
            Some(Kind::Write) => way_of_write(s, w),
            Some(Kind::Ticks) => Way::Ticks,
            _ => Way::Other,
        }
    }
}

// The numbers after a write that reaches no queue.
pub fn numbers(s: State, w: u32) -> Numbers
    requires s_value { well_formed s ≡ true }
    requires w_value { («kind-of» w ≡ 2) × (reaches_queue s («address-of» w) ≡ false) }
    ensures { result ≡ numbers_of (step_of s w).state }
{
    step::numbers(s, record::address(w), record::byte(w))
}

// The transmit queue and the latches after a write to THR.
pub fn transmit(s: State, w: u32) -> Queued
    requires s_value { well_formed s ≡ true }
    requires w_value { («kind-of» w ≡ 2) × («address-of» w ≡ 0) × (divisor_access s.registers ≡ false) }
    ensures { result ≡ record { tx = (step_of s w).state.tx; latches = (step_of s w).state.latches } }
{
    step::put(s, record::byte(w))
}

// The state after a read.
pub fn after_read(s: State, w: u32) -> State
    requires s_value { well_formed s ≡ true }
    requires w_value { is_read w ≡ true }
    ensures { result ≡ (step_of s w).state }
{
    step::after_read(s, record::address(w))
}

// The state after ticks.
pub fn ticks(s: State, w: u32) -> State
    requires s_value { well_formed s ≡ true }
    requires w_value { «kind-of» w ≡ 0 }
    ensures { result ≡ (step_of s w).state }
{
    step::ticks(s, record::count(w))
}

// The state after any other record.
pub fn other(s: State, w: u32) -> State
    requires s_value { well_formed s ≡ true }
    requires fact { («kind-of» w ≡ 0 → ⊥) × («kind-of» w ≡ 1 → ⊥) }
    ensures { result ≡ (step_of s w).state }
{
    match Kind::of(w) {
        Some(Kind::Write) => step::write(s, record::address(w), record::byte(w)),
        Some(Kind::Sin) => step::set_sin(s, record::sin(w)),
        Some(Kind::Modem) => step::set_modem(s, record::modem(w)),
        Some(Kind::Reset) => step::reset(s),
        _ => s,
    }
}
