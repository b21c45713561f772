// The divisor for a rate: what the divisor latches take so that a clock gives the rate. Nothing here
// knows the state.
#![tactic(auto)]

ghost use Rattle.std.specs.Prelude.{◌≡◌, ℕ, ◌^◌, ◌≤◌, ◌<◌, pos, neg_ℤ};
ghost use Rattle.rate.specs.Rate.{Nearest, divisor_for, error_of, within as «within_both»};

use sheet::{answer, limits};

// What the call answers: the divisor, and the error in parts per million.
#[repr(C)]
#[derive(Clone, Copy)]
pub struct Picked {
    pub number: u8,
    pub divisor: u32,
    pub error: i32,
}

// The divisor by division: the quotient of clock and 16 × rate where at most half of 16 × rate is left
// over, else the next one.
fn nearest(clock: u32, rate: u32) -> u32
    requires le_rate { 1 ≤ rate }
    requires rate_bound { rate ≤ 1000000 }
    ensures { Nearest 65535 clock rate result }
{
    let step = 16 * rate;
    let quotient = clock / step;
    if quotient == 0 {
        return 1;
    }
    if limits::DIVISOR_MOST <= quotient {
        return limits::DIVISOR_MOST;
    }
    if clock % step <= 8 * rate {
        return quotient;
    }
    quotient + 1
}

// An error of so many parts per million, above 0.
fn above(parts: u64) -> i32
    requires { parts < 2 ^ 31 }
    ensures { result ≡ pos parts }
{
    parts as i32
}

// An error of so many parts per million, below 0.
fn below(parts: u64) -> i32
    requires { parts < 2 ^ 31 }
    ensures { result ≡ neg_ℤ (pos parts) }
{
    -(parts as i32)
}

// The error of the nearest divisor.
fn error_of(clock: u32, rate: u32, divisor: u32) -> i32
    requires clock_bound { clock ≤ 16000000 }
    requires le_rate { 1 ≤ rate }
    requires rate_bound { rate ≤ 1000000 }
    requires nearest { Nearest 65535 clock rate divisor }
    ensures { result ≡ error_of clock rate divisor }
{
    let given = clock as u64;
    let exact = 16 * (divisor as u64) * (rate as u64);
    if given < exact {
        return below((exact - given) * 1000000 / exact);
    }
    above((given - exact) * 1000000 / exact)
}

// A clock and a rate that are not outside.
#[tactic(auto, unfolding(crate::specs::Rate::within))]
fn within(clock: u32, rate: u32) -> bool
    ensures { result ≡ «within_both» clock rate }
{
    1 <= clock && clock <= limits::CLOCK_MOST && 1 <= rate && rate <= limits::RATE_MOST
}

// The divisor for a rate, with its error.
pub fn divisor_for(clock: u32, rate: u32) -> Picked
    ensures outcome { result ≡ divisor_for clock rate }
    ensures nearest { result.number ≡ 0 → Nearest 65535 clock rate result.divisor }
    ensures no_other { result.number ≡ 0 → (d : ℕ) → Nearest 65535 clock rate d → d ≡ result.divisor }
{
    if !within(clock, rate) {
        return Picked {
            number: answer::BAD_RATE,
            divisor: 0,
            error: 0,
        };
    }
    let divisor = nearest(clock, rate);
    Picked {
        number: answer::DONE,
        divisor,
        error: error_of(clock, rate, divisor),
    }
}
