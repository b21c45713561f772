// The line of a replay's answer.
#![tactic(auto)]

ghost use Rattle.std.specs.Prelude.{◌≡◌, ◌+◌, ◌≤◌, ◌++◌, length};
ghost use Rattle.arrayvec.specs.ArrayVec.{array_vec_len};
ghost use Rattle.answer_line.specs.Answer.{answer_line};

use arrayvec::ArrayVec;
use capture::Outcome;
use std::io;
use std::io::Write;
use text::buffer;

// Appends the line of an outcome, after the name of the capture where there are several.
fn put_answer<const N: usize>(several: bool, name: &[u8], o: Outcome, out: &mut ArrayVec<u8, N>)
    requires { array_vec_len out.old + length name.now + 42 ≤ N }
    ensures { out.new.items ≡ out.old.items ++ answer_line several name.now o }
{
    if several {
        buffer::put(name, out);
        buffer::put(b": ", out);
    }
    outcome::put_outcome(o, out);
}

// Writes this line, which is that of the outcome.
fn write_line(
    rt: HostRuntime,
    several: bool,
    name: &[u8],
    o: Outcome,
    line: &[u8],
) -> io::Result<()>
    requires { line.now ≡ answer_line several name.now o }
{
    rt.stdout().write_all(line)
}

// Says the line of an outcome.
pub fn say(rt: HostRuntime, several: bool, name: &[u8], o: Outcome) -> io::Result<()>
    requires { length name.now ≤ 4096 }
{
    let mut line = ArrayVec::<u8, 4138>::new();
    put_answer(several, name, o, &mut line);
    write_line(rt, several, name, o, &line)
}
