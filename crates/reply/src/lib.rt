// What the calls answer, as lines of numbers appended to a vector of fixed capacity: there is no
// heap for a String.
#![tactic(auto)]

ghost use Rattle.std.specs.Prelude.{◌++◌, ◌≡◌, ◌+◌, ◌*◌, ◌≤◌, length};
ghost use Rattle.device.specs.Calls.{pins_of};
ghost use Rattle.device.specs.Forecast.{forecast_of, level_of};
ghost use Rattle.arrayvec.specs.ArrayVec.{array_vec_len};
ghost use Rattle.text.specs.Decimal.{line_of};
ghost use Rattle.rate.specs.Rate.{divisor_for};
ghost use Rattle.reply.specs.Reply.{step_of, step_numbers, look_numbers, part_numbers, forecast_numbers, level_numbers, divisor_line};

use arrayvec::ArrayVec;
use command::Call;
use device::{Answer, Looked, State};
use text::decimal;

pub fn step(s: State, c: Call) -> Answer
    ensures { result ≡ step_of s c }
{
    match c {
        Call::Reset => uart::reset(s),
        Call::Read(a) => uart::read(s, a),
        Call::Write(a, b) => uart::write(s, a, b),
        Call::Sin(v) => uart::set_sin(s, v),
        Call::Modem(v) => uart::set_modem(s, v),
        Call::Tick => uart::tick(s),
        Call::Ticks(n) => uart::ticks(s, n),
    }
}

// The pins stand here and below: an array takes no other in its middle.
pub fn step_numbers(a: Answer) -> [u32; 8]
    ensures { result ≡ step_numbers a }
{
    [
        u32::from(a.number),
        u32::from(a.byte),
        u32::from(a.outputs.sout),
        u32::from(a.outputs.rts),
        u32::from(a.outputs.dtr),
        u32::from(a.outputs.out1),
        u32::from(a.outputs.out2),
        u32::from(a.outputs.intrpt),
    ]
}

fn look_numbers(l: Looked) -> [u32; 7]
    ensures { result ≡ look_numbers l }
{
    [
        u32::from(l.number),
        u32::from(l.outputs.sout),
        u32::from(l.outputs.rts),
        u32::from(l.outputs.dtr),
        u32::from(l.outputs.out1),
        u32::from(l.outputs.out2),
        u32::from(l.outputs.intrpt),
    ]
}

// Appends a line of numbers, each of ten digits at most.
#[tactic(auto, using(text::proofs::Decimals::line_room))]
pub fn put_numbers<const N: usize, const M: usize>(n: [u32; N], out: &mut ArrayVec<u8, M>)
    requires { array_vec_len out.old + 11 * N ≤ M }
    ensures { out.new.items ≡ out.old.items ++ line_of n.entry }
{
    decimal::put_line(&n, out);
}

pub fn put_pins<const N: usize>(s: State, out: &mut ArrayVec<u8, N>)
    requires { array_vec_len out.old + 77 ≤ N }
    ensures { out.new.items ≡ out.old.items ++ line_of (look_numbers (pins_of s)) }
{
    put_numbers(look_numbers(uart::pins(s)), out);
}

pub fn put_part<const N: usize>(s: State, out: &mut ArrayVec<u8, N>)
    requires { array_vec_len out.old + 22 ≤ N }
    ensures { out.new.items ≡ out.old.items ++ line_of (part_numbers (pins_of s)) }
{
    let a = uart::pins(s);
    put_numbers([u32::from(a.number), u32::from(a.part)], out);
}

pub fn put_forecast<const N: usize>(s: State, out: &mut ArrayVec<u8, N>)
    requires { array_vec_len out.old + 22 ≤ N }
    ensures { out.new.items ≡ out.old.items ++ line_of (forecast_numbers (forecast_of s)) }
{
    let a = foretell::forecast(s);
    put_numbers([u32::from(a.number), a.ticks], out);
}

pub fn put_level<const N: usize>(s: State, t: u32, out: &mut ArrayVec<u8, N>)
    requires { array_vec_len out.old + 22 ≤ N }
    ensures { out.new.items ≡ out.old.items ++ line_of (level_numbers (level_of s t)) }
{
    let a = foretell::level(s, t);
    put_numbers([u32::from(a.number), u32::from(a.level)], out);
}

pub fn put_divisor<const N: usize>(clock: u32, rate: u32, out: &mut ArrayVec<u8, N>)
    requires { array_vec_len out.old + 54 ≤ N }
    ensures { out.new.items ≡ out.old.items ++ divisor_line (divisor_for clock rate) }
{
    let a = rate::divisor_for(clock, rate);
    decimal::put_word(a.number as u64, b' ', out);
    decimal::put_word(a.divisor as u64, b' ', out);
    decimal::put_signed_word(a.error, b'\n', out);
}
