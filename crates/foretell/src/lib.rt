// The calls that foretell: when the transmitter will be empty, which level its line will have, and
// ticks until it is empty. Each takes any state and any argument, looks at the state first, and
// refuses by number what document 01's table refuses; beside number 1 stands the part of the state
// that is bad.
//
// A contract equates the whole answer with a definition of the device's `specs/Forecast.antt`.
#![tactic(auto)]

ghost use Rattle.std.specs.Prelude.{◌≡◌, ℕ, ◌≤◌, IfSome, IfNone};
ghost use Rattle.device.specs.Ranges.{part_of};
ghost use Rattle.device.specs.Calls.{ticks_of};
ghost use Rattle.device.specs.Transmitter.{line};
ghost use Rattle.device.specs.Forecast.{forecast_number, forecast_of, level_of, run_of, Foretold, StopsInTime};

use device::{Forecasted, Leveled, Ran, State};
use ranges::part_of;
use sheet::answer;
use sheet::part::NONE;

// Why the forecast is refused: the number that it answers, and the part of the state that is bad, as the
// answers of the C interface have them.
#[derive(Clone, Copy)]
struct Refusal {
    number: u8,
    part: u8,
}

// The refusal of the forecast; none where it is not refused.
#[tactic(auto, unfolding(device::specs::Forecast::forecast_number))]
fn refused(s: State) -> Option<Refusal>
    ensures refused { IfSome result (λ why. (forecast_number s ≡ 0 → ⊥) × (why.number ≡ forecast_number s) × (why.part ≡ part_of s)) }
    ensures asked { IfNone result (forecast_number s ≡ 0) }
{
    let part = part_of(s);
    if part != NONE {
        let number = answer::MALFORMED;
        return Some(Refusal { number, part });
    }
    let number = forecast::number(s);
    if number != answer::DONE {
        return Some(Refusal { number, part });
    }
    None
}

// The forecast: the ticks until queue and shift register are both empty. Whatever number of ticks
// the state is given, none is refused, the two are empty exactly from the forecast on, and the
// transmitter's line has the level that the frames spell.
pub fn forecast(s: State) -> Forecasted
    ensures outcome { result ≡ forecast_of s }
    ensures every_tick { result.number ≡ 0 → (t : ℕ) → Foretold s result.ticks t }
    ensures at_most { result.ticks ≤ 817876800 }
{
    match refused(s) {
        Some(Refusal { number, part }) => Forecasted {
            number,
            part,
            ticks: 0,
        },
        None => Forecasted {
            number: answer::DONE,
            part: NONE,
            ticks: forecast::ticks_to_come(s),
        },
    }
}

// The level of the transmitter's line after t ticks.
pub fn level(s: State, t: u32) -> Leveled
    ensures outcome { result ≡ level_of s t }
    ensures ticked { result.number ≡ 0 → result.level ≡ line (ticks_of t s).frame }
{
    match refused(s) {
        Some(Refusal { number, part }) => Leveled {
            number,
            part,
            level: 0,
        },
        None => Leveled {
            number: answer::DONE,
            part: NONE,
            level: forecast::level_after(s, t),
        },
    }
}

// At most n ticks, until queue and shift register are both empty.
pub fn run(s: State, n: u32) -> Ran
    ensures outcome { result ≡ run_of s n }
    ensures in_time { result.number ≡ 0 → StopsInTime s n result.used }
{
    let part = part_of(s);
    if part != NONE {
        return Ran {
            number: answer::MALFORMED,
            part,
            used: 0,
            state: s,
        };
    }
    let used = forecast::used(s, n);
    Ran {
        number: answer::DONE,
        part: NONE,
        used,
        state: clock::advance(s, used),
    }
}
