// The calls for programs in C, Rust and other languages, under plain names: `rt lib` in this
// folder makes the library that they link. The structs go by value, a run of records as its address and
// length, and each call has the contract of the call of `uart`, `foretell`, `jump`, `client`,
// `expected`, `expected_file` or `rate` that it hands on.
// clients/tl16c750.h declares the same for C.
#![tactic(auto)]

pub mod layout;

ghost use Rattle.std.specs.Prelude.{◌≡◌, List, [], ◌++◌, length, take, drop, ℕ, ◌+◌, ◌*◌, ◌/◌, ◌≤◌, ◌<◌, ◌^◌};
ghost use Rattle.device.specs.State.{fresh_of};
ghost use Rattle.device.specs.Calls.{reset_of, read_of, write_of, sin_of, modem_of, tick_of, ticks_of, ticks_answer, pins_of};
ghost use Rattle.device.specs.Transmitter.{line};
ghost use Rattle.device.specs.Forecast.{forecast_of, level_of, run_of, Foretold, StopsInTime};
ghost use Rattle.device.specs.Jump.{jump_of, jump_run_of};
ghost use Rattle.capture.specs.Replay.{agreed as «agreed-in», replay_of, Agrees};
ghost use Rattle.capture.specs.Replay.{refused as «refused-at»};
ghost use Rattle.expected.specs.Expected.{expect_of};
ghost use Rattle.expected_file.specs.File.{after, expected_of, begun_of, made_by, rest_of as «rest-made»};
ghost use Rattle.capture_file.specs.File.{capture_of, rest_of};
ghost use Rattle.client.specs.Replay.{replay_answer};
ghost use Rattle.rate.specs.Rate.{divisor_for, Nearest};
ghost use Rattle.client.specs.File.{carried_of, beyond_of, rest_answer, ToldSoFar};

use capture::Outcome;
use client::file::Progress;
use client::{Replay, file};
use device::{Answer, Forecasted, JumpRan, Jumped, Leveled, Looked, Ran, State};
use expected::Expected;
use rate::Picked;

// The version of the library, and of the layout of its structs: this one changes where a struct does.
#[repr(C)]
#[derive(Clone, Copy)]
pub struct Versions {
    pub major: u32,
    pub minor: u32,
    pub patch: u32,
    pub layout: u32,
}

// Which library this is: 0.7.0, with the sixth layout.
#[unsafe(no_mangle)]
pub extern "C" fn uart_version() -> Versions
    ensures { result ≡ record { major = 0; minor = 7; patch = 0; layout = 6 } }
{
    Versions {
        major: 0,
        minor: 7,
        patch: 0,
        layout: 6,
    }
}

// The fresh state.
#[unsafe(no_mangle)]
pub extern "C" fn uart_fresh() -> State
    ensures { result ≡ fresh_of }
{
    uart::fresh()
}

// Reset.
#[unsafe(no_mangle)]
pub extern "C" fn uart_reset(s: State) -> Answer
    ensures { result ≡ reset_of s }
{
    uart::reset(s)
}

// One tick of the clock.
#[unsafe(no_mangle)]
pub extern "C" fn uart_tick(s: State) -> Answer
    ensures { result ≡ tick_of s }
{
    uart::tick(s)
}

// n ticks of the clock, each on the state that the last left.
#[unsafe(no_mangle)]
pub extern "C" fn uart_ticks(s: State, n: u32) -> Answer
    ensures { result ≡ ticks_answer s n }
{
    uart::ticks(s, n)
}

// At most n ticks, until queue and shift register are both empty.
#[unsafe(no_mangle)]
pub extern "C" fn uart_run(s: State, n: u32) -> Ran
    ensures outcome { result ≡ run_of s n }
    ensures in_time { result.number ≡ 0 → StopsInTime s n result.used }
{
    foretell::run(s, n)
}

// n ticks by jumps from pulse to pulse.
#[unsafe(no_mangle)]
pub extern "C" fn uart_jump(s: State, n: u32) -> Jumped
    ensures outcome { result ≡ jump_of s n }
    ensures at_most { 1 ≤ s.baud.divisor → result.jumps ≤ 2 + n / s.baud.divisor }
{
    jump::jump(s, n)
}

// At most n ticks by jumps, until queue and shift register are both empty.
#[unsafe(no_mangle)]
pub extern "C" fn uart_jump_run(s: State, n: u32) -> JumpRan
    ensures outcome { result ≡ jump_run_of s n }
    ensures as_run { record { number = result.number; part = result.part; used = result.used; state = result.state } ≡ run_of s n }
    ensures at_most { 1 ≤ s.baud.divisor → result.jumps ≤ 2 + n / s.baud.divisor }
{
    jump::run(s, n)
}

// A register read at an address.
#[unsafe(no_mangle)]
pub extern "C" fn uart_read(s: State, address: u8) -> Answer
    ensures { result ≡ read_of s address }
{
    uart::read(s, address)
}

// A register write of a byte at an address.
#[unsafe(no_mangle)]
pub extern "C" fn uart_write(s: State, address: u8, byte: u8) -> Answer
    ensures { result ≡ write_of s address byte }
{
    uart::write(s, address, byte)
}

// The pin SIN at a level.
#[unsafe(no_mangle)]
pub extern "C" fn uart_set_sin(s: State, level: u8) -> Answer
    ensures { result ≡ sin_of s level }
{
    uart::set_sin(s, level)
}

// The modem pins CTS, DSR, RI, DCD asserted as bits 0..3 say.
#[unsafe(no_mangle)]
pub extern "C" fn uart_set_modem(s: State, levels: u8) -> Answer
    ensures { result ≡ modem_of s levels }
{
    uart::set_modem(s, levels)
}

// The output pins as they are.
#[unsafe(no_mangle)]
pub extern "C" fn uart_pins(s: State) -> Looked
    ensures { result ≡ pins_of s }
{
    uart::pins(s)
}

// The forecast: the ticks until queue and shift register are both empty.
#[unsafe(no_mangle)]
pub extern "C" fn uart_forecast(s: State) -> Forecasted
    ensures outcome { result ≡ forecast_of s }
    ensures every_tick { result.number ≡ 0 → (t : ℕ) → Foretold s result.ticks t }
    ensures at_most { result.ticks ≤ 817876800 }
{
    foretell::forecast(s)
}

// The level of the transmitter's line after t ticks.
#[unsafe(no_mangle)]
pub extern "C" fn uart_level(s: State, t: u32) -> Leveled
    ensures outcome { result ≡ level_of s t }
    ensures ticked { result.number ≡ 0 → result.level ≡ line (ticks_of t s).frame }
{
    foretell::level(s, t)
}

// A replay of records of a version: number 0 and both bytes the same where it agreed.
#[unsafe(no_mangle)]
pub extern "C" fn uart_replay(s: State, version: u32, records: &[u32]) -> Replay
    ensures outcome { result ≡ replay_answer (replay_of version s records.now) }
    ensures agreed { result.values.number ≡ 0 → result.values.seen ≡ result.values.model → Agrees s records.now result.state }
{
    client::replay_records(s, version, records)
}

// The capture that is expected for records of a version: each as it stands, but a read with the model's
// byte, written into a second run of words. Replayed from the same state, what was written agrees.
#[unsafe(no_mangle)]
pub extern "C" fn uart_expect(
    s: State,
    version: u32,
    records: &[u32],
    words: &mut [u32],
) -> Expected
    ensures outcome { record { answer = result; words = words.new } ≡ expect_of version s records.now words.old }
    ensures replayed { (result.number ≡ 1 → ⊥) → (result.number ≡ 7 → ⊥) → replay_of version s (take result.count words.new) ≡ «agreed-in» result.state }
{
    expected::expect(s, version, records, words)
}

// A capture's file that begins with these bytes: their first eight are its header, and what follows comes
// again with the next part. Where they are fewer they are all of the file.
#[unsafe(no_mangle)]
pub extern "C" fn uart_replay_begin(first: &[u8]) -> Progress
    ensures rest_value { 8 ≤ length first.now → (rest : List ℕ) → rest_answer result (drop 8 first.now ++ rest) ≡ replay_answer (capture_of (first.now ++ rest)) }
    ensures result_value { length first.now < 8 → rest_answer result [] ≡ replay_answer (capture_of first.now) }
    ensures done_value { result.done ≡ 0 }
    ensures told_so_far { ToldSoFar result }
{
    file::begin(first)
}

// Replays the whole records of the bytes that come next. One to three bytes that are left come again
// at the start of the next part.
#[unsafe(no_mangle)]
pub extern "C" fn uart_replay_more(p: Progress, bytes: &[u8]) -> Progress
    ensures rest_value { p.done + length bytes.now / 4 ≤ 2 ^ 62 → (rest : List ℕ) → rest_answer result (drop (4 * (length bytes.now / 4)) bytes.now ++ rest) ≡ rest_answer p (bytes.now ++ rest) }
    ensures value { 2 ^ 62 < p.done + length bytes.now / 4 → result ≡ beyond_of p }
    ensures done_bound { result.done ≤ p.done + length bytes.now / 4 }
    ensures told_so_far { ToldSoFar p → ToldSoFar result }
{
    file::more(p, bytes)
}

// The answer for a file that ends with these bytes.
#[unsafe(no_mangle)]
pub extern "C" fn uart_replay_end(p: Progress, bytes: &[u8]) -> Replay
    ensures value { p.done + length bytes.now / 4 ≤ 2 ^ 62 → result ≡ rest_answer p bytes.now }
    ensures value_2 { 2 ^ 62 < p.done + length bytes.now / 4 → result ≡ replay_answer («refused-at» 1 p.state 0) }
    ensures agreed { ToldSoFar p → result.values.number ≡ 0 → result.values.seen ≡ result.values.model → (rest_of (carried_of p) bytes.now).outcome ≡ Outcome.Agreed }
{
    file::end(p, bytes)
}

// The capture expected for a file that begins with these bytes: their first eight are its header, to be
// written as they are where the number is 0. Where they are fewer they are all of the file.
#[unsafe(no_mangle)]
pub extern "C" fn uart_expect_begin(first: &[u8]) -> expected_file::Progress
    ensures value { result ≡ begun_of first.now }
    ensures rest_value { result.number ≡ 0 → (rest : List ℕ) → after (take 8 first.now) («rest-made» result (drop 8 first.now ++ rest)) ≡ expected_of (first.now ++ rest) }
    ensures rest_value_2 { (result.number ≡ 0 → ⊥) → 8 ≤ length first.now → (rest : List ℕ) → «rest-made» result rest ≡ expected_of (first.now ++ rest) }
    ensures result_value { length first.now < 8 → «rest-made» result [] ≡ expected_of first.now }
{
    expected_file::begin(first)
}

// Writes anew, in place, the whole records of the bytes that come next. One to three bytes that are left
// come again at the start of the next part.
#[unsafe(no_mangle)]
pub extern "C" fn uart_expect_more(
    p: expected_file::Progress,
    bytes: &mut [u8],
) -> expected_file::Progress
    ensures by_index { (rest : List ℕ) → after (take (4 * result.count) bytes.new) («rest-made» result (drop (4 * (length bytes.old / 4)) bytes.old ++ rest)) ≡ «rest-made» p (bytes.old ++ rest) }
    ensures bytes_unchanged { drop (4 * result.count) bytes.new ≡ drop (4 * result.count) bytes.old }
    ensures count_in_bounds { 4 * result.count ≤ length bytes.new }
{
    expected_file::go_on(p, bytes)
}

// The same for the bytes with which a file ends. One to three that are left are refused.
#[unsafe(no_mangle)]
pub extern "C" fn uart_expect_end(
    p: expected_file::Progress,
    bytes: &mut [u8],
) -> expected_file::Progress
    ensures bytes_after { made_by result (take (4 * result.count) bytes.new) ≡ «rest-made» p bytes.old }
    ensures bytes_unchanged { drop (4 * result.count) bytes.new ≡ drop (4 * result.count) bytes.old }
    ensures count_in_bounds { 4 * result.count ≤ length bytes.new }
{
    expected_file::end(p, bytes)
}

// The divisor for a rate from a clock, and its error in parts per million. It takes no state.
#[unsafe(no_mangle)]
pub extern "C" fn uart_divisor_for(clock: u32, rate: u32) -> Picked
    ensures outcome { result ≡ divisor_for clock rate }
    ensures nearest { result.number ≡ 0 → Nearest 65535 clock rate result.divisor }
    ensures no_other { result.number ≡ 0 → (d : ℕ) → Nearest 65535 clock rate d → d ≡ result.divisor }
{
    rate::divisor_for(clock, rate)
}
