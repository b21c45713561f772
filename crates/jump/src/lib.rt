// Ticks by jumps from pulse to pulse, and run over them. Both take any state, and refuse a malformed
// one by number 1 with the part that is bad.
//
// The loop that jumps is the clock's, for these calls as for every other that takes ticks. The number of
// jumps follows from the divisor, k and the ticks alone, so that it is not counted on the way.
//
// A contract equates the whole answer with a definition of the device's `specs/Jump.antt`.
#![tactic(auto)]

ghost use Rattle.std.specs.Prelude.{◌≡◌, ◌+◌, ◌/◌, ◌≤◌};
ghost use Rattle.device.specs.Forecast.{run_of};
ghost use Rattle.device.specs.Jump.{jump_of, jump_run_of};
ghost use Rattle.jump.specs.Count.{jump_count};

use device::{Baud, JumpRan, Jumped, State};
use ranges::part_of;
use sheet::answer;
use sheet::part::NONE;

// The jumps of n ticks: one up to the first pulse, one up to each later pulse, and one for the ticks
// behind the last, if there are any.
#[tactic(auto, unfolding(crate::specs::Count::jump_count))]
fn count(b: Baud, n: u32) -> u32
    requires { 1 ≤ n → 1 ≤ b.divisor → 1 ≤ b.k }
    ensures { result ≡ jump_count b.divisor b.k n }
{
    if n == 0 {
        return 0;
    }
    if b.divisor == 0 {
        return 1;
    }
    if n <= b.k {
        1
    } else {
        2 + (n - b.k - 1) / b.divisor
    }
}

// n ticks by jumps.
pub fn jump(s: State, n: u32) -> Jumped
    ensures outcome { result ≡ jump_of s n }
    ensures at_most { 1 ≤ s.baud.divisor → result.jumps ≤ 2 + n / s.baud.divisor }
{
    let part = part_of(s);
    if part != NONE {
        return Jumped {
            number: answer::MALFORMED,
            part,
            jumps: 0,
            state: s,
        };
    }
    Jumped {
        number: answer::DONE,
        part: NONE,
        jumps: count(s.baud, n),
        state: clock::advance(s, n),
    }
}

// At most n ticks by jumps, until queue and shift register are both empty. But for the number of jumps
// it answers as run does.
pub fn run(s: State, n: u32) -> JumpRan
    ensures outcome { result ≡ jump_run_of s n }
    ensures as_run { record { number = result.number; part = result.part; used = result.used; state = result.state } ≡ run_of s n }
    ensures at_most { 1 ≤ s.baud.divisor → result.jumps ≤ 2 + n / s.baud.divisor }
{
    let r = foretell::run(s, n);
    JumpRan {
        number: r.number,
        part: r.part,
        used: r.used,
        jumps: count(s.baud, r.used),
        state: r.state,
    }
}
