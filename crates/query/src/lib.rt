// The commands that change nothing: their answers, put into a vector of fixed capacity, as there is no
// heap for a String.
#![tactic(auto)]

ghost use Rattle.std.specs.Prelude.{◌++◌, ◌≡◌, true, [], ◌+◌, ◌≤◌, length};
ghost use Rattle.arrayvec.specs.ArrayVec.{array_vec_len};
ghost use Rattle.current.specs.Current.{longest_answer};
ghost use Rattle.current.specs.Commands.{changes_nothing, said_of};

use arrayvec::ArrayVec;
use command::Command;
use current::Session;
use numbers::COUNT;
use text::buffer;

// Puts the answer of a command that changes nothing.
pub fn put_answer<const N: usize>(
    s: Session,
    c: Command,
    kept: &[u32; COUNT],
    out: &mut ArrayVec<u8, N>,
)
    requires c_value { changes_nothing c ≡ true }
    requires longest_answer_in_bounds { array_vec_len out.old + longest_answer ≤ N }
    ensures { out.new.items ≡ out.old.items ++ said_of s kept.now [] c }
{
    let t = s.state;
    match c {
        Command::State => current::put_current(s, kept, out),
        Command::Pins => reply::put_pins(t, out),
        Command::Forecast => reply::put_forecast(t, out),
        Command::Level(n) => reply::put_level(t, n, out),
        Command::Part => reply::put_part(t, out),
        Command::Divisor(clock, rate) => reply::put_divisor(clock, rate, out),
        _ => buffer::put(b"bad\n", out),
    }
}
