// What a line makes of the current state, and writes.
//
// A line's command (`command`) is made on the current state, and its answer is put into a
// vector of fixed capacity: there is no heap for a String. Nothing here reads or writes a file.
//
// The lent arrays and the buffer come one by one, and not as a struct, since `answer` reads the first
// and writes the others.
#![tactic(auto)]

ghost use Rattle.std.specs.Prelude.{◌++◌, ◌≡◌, ◌+◌, ◌≤◌, length, take};
ghost use Rattle.arrayvec.specs.ArrayVec.{array_vec_len};
ghost use Rattle.command.specs.Command.{most_room, beside, room_of};
ghost use Rattle.current.specs.Current.{longest_answer};
ghost use Rattle.current.specs.Commands.{said_of, next_of, kept_of};
ghost use Rattle.session.specs.Session.{standing, line_said, line_next};

use arrayvec::ArrayVec;
use command::{Command, MOST_NUMBERS};
use current::Session;
use numbers::COUNT;

// Makes a command on the current state, and puts its answer. The numbers that
// stand beside it begin `numbers`; `kept` has those loaded last.
pub fn answer<const N: usize>(
    s: Session,
    c: Command,
    numbers: &[u32],
    kept: &mut [u32; COUNT],
    out: &mut ArrayVec<u8, N>,
) -> Session
    requires c_in_bounds { beside c ≤ length numbers.now }
    requires c_bound { room_of c ≤ most_room }
    requires longest_answer_in_bounds { array_vec_len out.old + longest_answer ≤ N }
    ensures value { result ≡ next_of s (take (beside c) numbers.now) c }
    ensures kept_after { kept.new ≡ kept_of kept.old (take (beside c) numbers.now) c }
    ensures appended { out.new.items ≡ out.old.items ++ said_of s kept.old (take (beside c) numbers.now) c }
{
    match c {
        Command::Step(call) => current::stepped(s, call, out),
        Command::Fresh => current::restart(out),
        Command::Load => current::load(&numbers[..COUNT], kept, out),
        Command::Run(n) => current::ran(s, n, out),
        Command::Jump(n) => current::jumped(s, n, out),
        Command::JumpRun(n) => current::jump_ran(s, n, out),
        Command::Replay(version, n) => {
            let end = n + 1;
            current::replayed(s, version, &numbers[1..end], out)
        }
        Command::Expect(version, room, n) => {
            let end = n + 2;
            current::expected(s, version, room, &numbers[2..end], out)
        }
        _ => {
            query::put_answer(s, c, kept, out);
            s
        }
    }
}

// Answers a line, which has no newline.
pub fn answer_line<const N: usize>(
    s: Session,
    line: &[u8],
    numbers: &mut [u32; MOST_NUMBERS],
    kept: &mut [u32; COUNT],
    out: &mut ArrayVec<u8, N>,
) -> Session
    requires longest_answer_in_bounds { array_vec_len out.old + longest_answer ≤ N }
    ensures kept_after { standing result kept.new ≡ line_next (standing s kept.old) line.now }
    ensures appended { out.new.items ≡ out.old.items ++ line_said (standing s kept.old) line.now }
{
    let c = command::command_of(line, numbers);
    answer(s, c, numbers, kept, out)
}
