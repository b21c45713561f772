// The forecast: the ticks until the transmitter is empty, the level of its line after any number of
// ticks, and the ticks that run uses. Each call takes a state that is known to be well formed.
#![tactic(auto)]

pub mod formula;

ghost use Rattle.std.specs.Prelude.{◌≡◌, true};
ghost use Rattle.device.specs.Ranges.{well_formed};
ghost use Rattle.device.specs.Transmitter.{line};
ghost use Rattle.device.specs.Calls.{ticks_of};
ghost use Rattle.device.specs.Forecast.{forecast_number, pulses_to_come, ticks_to_come, level_to_come, used_of};

use device::State;
use settings::autoflow;
use sheet::{answer, limits};

// The number that the forecast answers, as the C interface has it: 4 where work is left and there is no
// clock, 5 where bytes are queued and held back, else 0.
#[tactic(auto, unfolding(device::specs::Forecast::forecast_number, device::specs::Forecast::no_clock, device::specs::Forecast::held_back))]
pub fn number(s: State) -> u8
    requires { well_formed s ≡ true }
    ensures { result ≡ forecast_number s }
{
    let queued = 0 < s.tx.count;
    if (0 < s.frame.left || queued) && s.baud.divisor == 0 {
        return answer::NO_CLOCK;
    }
    if queued && autoflow::held(s.registers, s.fifo, s.inputs) {
        return answer::HELD_BACK;
    }
    answer::DONE
}

// p, the pulses until queue and shift register are both empty.
pub fn pulses_to_come(s: State) -> u32
    requires { forecast_number s ≡ 0 }
    ensures { result ≡ pulses_to_come s }
{
    let length = frame::frame_length(s.registers.lcr % limits::SIX_BITS);
    formula::pulses_left(s.frame.left, s.tx.count, length)
}

// T, the ticks until then.
pub fn ticks_to_come(s: State) -> u32
    requires { forecast_number s ≡ 0 }
    ensures { result ≡ ticks_to_come s }
{
    formula::ticks_left(s.baud.k, s.baud.divisor, pulses_to_come(s))
}

// The level of the transmitter's line after t ticks.
pub fn level_after(s: State, t: u32) -> u8
    requires { forecast_number s ≡ 0 }
    ensures foretold { result ≡ level_to_come s t }
    ensures ticked { result ≡ line (ticks_of t s).frame }
{
    let p = pulses_to_come(s);
    let q = formula::place_after(s.baud.k, s.baud.divisor, p, t);
    formula::level_at(s.frame, s.tx, s.registers.lcr % limits::SIX_BITS, p, q)
}

// The ticks that run uses of at most n.
#[tactic(auto, unfolding(device::specs::Forecast::used_of))]
pub fn used(s: State, n: u32) -> u32
    requires { well_formed s ≡ true }
    ensures { result ≡ used_of s n }
{
    if number(s) != answer::DONE {
        return n;
    }
    n.min(ticks_to_come(s))
}
