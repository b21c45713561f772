// The current state, and the commands that change it: each makes the next state, and puts its
// answer into a vector of fixed capacity: there is no heap for a String.
#![tactic(auto)]

ghost use Rattle.std.specs.Prelude.{◌++◌, ◌≡◌, [], ◌∷◌, ◌+◌, ◌≤◌, length};
ghost use Rattle.device.specs.State.{fresh_of};
ghost use Rattle.device.specs.Ranges.{part_of};
ghost use Rattle.device.specs.Forecast.{run_of};
ghost use Rattle.device.specs.Jump.{jump_of, jump_run_of};
ghost use Rattle.capture.specs.Replay.{replay_of};
ghost use Rattle.command.specs.Command.{most_room};
ghost use Rattle.arrayvec.specs.ArrayVec.{array_vec_len};
ghost use Rattle.text.specs.Decimal.{line_of};
ghost use Rattle.numbers.specs.Numbers.{state_count};
ghost use Rattle.outcome.specs.Outcome.{outcome_line};
ghost use Rattle.reply.specs.Reply.{step_of, step_numbers, run_numbers, jump_numbers, jump_run_numbers};
ghost use Rattle.current.specs.Current.{held, broken as «broken-in», loaded_of, loaded_part, current_numbers, longest_answer, moved};
ghost use Rattle.current.specs.Commands.{expected_of, written_numbers};

use arrayvec::ArrayVec;
use command::Call;
use device::State;
use sheet::part;
use text::decimal;

// The most numbers of an answer: the number, the count and the words of `expect`.
const MOST_SAID: usize = command::MOST_ROOM as usize + 2;

// The longest answer: as many numbers, each of ten digits with a space or the newline after it.
pub const LONGEST_ANSWER: usize = 11 * MOST_SAID;

// A word of `expect` that nothing was written into.
const UNWRITTEN: u32 = 0xAAAAAAAA;

// The current state. Where loaded numbers do not fit the model's types, it is one that every call
// refuses with the part of these numbers, and the numbers are kept apart. `fits` is a flag and no enum,
// since every command takes the state alike in either case.
#[derive(Clone, Copy)]
pub struct Session {
    pub state: State,
    pub fits: bool,
}

// The current state at the start.
pub fn start() -> Session
    ensures { result ≡ held fresh_of }
{
    Session {
        state: uart::fresh(),
        fits: true,
    }
}

// The state with a range broken in a part.
fn broken(part: u8, s: State) -> State
    ensures { result ≡ «broken-in» part s }
{
    let mut t = s;
    match part {
        part::REGISTERS => t.registers.ier = 255,
        part::SETTINGS => t.inputs.sin = 255,
        part::TRANSMIT => t.frame.format = 255,
        part::RECEIVE => t.receiver.phase = 255,
        _ => t.latches.overrun = 255,
    }
    t
}

// The current state after `load` of these numbers.
fn loaded(n: &[u32; numbers::COUNT]) -> Session
    ensures { result ≡ loaded_of n.now }
{
    let unfit = fits::unfit_part(n);
    let state = numbers::state_of(n);
    if unfit == part::NONE {
        return Session { state, fits: true };
    }
    Session {
        state: broken(unfit, state),
        fits: false,
    }
}

// Puts the numbers of the current state.
pub fn put_current<const N: usize>(
    s: Session,
    kept: &[u32; numbers::COUNT],
    out: &mut ArrayVec<u8, N>,
)
    requires longest_answer_in_bounds { array_vec_len out.old + longest_answer ≤ N }
    ensures { out.new.items ≡ out.old.items ++ line_of (current_numbers s kept.now) }
{
    if s.fits {
        let mut n = [0u32; numbers::COUNT];
        let t = s.state;
        numbers::put_state(t, &mut n);
        decimal::put_line(&n, out);
    } else {
        decimal::put_line(kept, out);
    }
}

// The current state with another state of the model.
fn moved_to(s: Session, state: State) -> Session
    ensures { result ≡ moved s state }
{
    Session {
        state,
        fits: s.fits,
    }
}

// Makes a step, and puts its answer. The calls below do the same with another call and its answer, whose
// fields have other names: one function for all would take two closures.
pub fn stepped<const N: usize>(s: Session, c: Call, out: &mut ArrayVec<u8, N>) -> Session
    requires { array_vec_len out.old + 88 ≤ N }
    ensures value { result ≡ moved s (step_of s.state c).state }
    ensures appended { out.new.items ≡ out.old.items ++ line_of (step_numbers (step_of s.state c)) }
{
    let t = s.state;
    let a = reply::step(t, c);
    reply::put_numbers(reply::step_numbers(a), out);
    let state = a.state;
    moved_to(s, state)
}

// Runs, and puts the answer.
pub fn ran<const N: usize>(s: Session, n: u32, out: &mut ArrayVec<u8, N>) -> Session
    requires { array_vec_len out.old + 22 ≤ N }
    ensures value { result ≡ moved s (run_of s.state n).state }
    ensures appended { out.new.items ≡ out.old.items ++ line_of (run_numbers (run_of s.state n)) }
{
    let t = s.state;
    let a = foretell::run(t, n);
    reply::put_numbers([u32::from(a.number), a.used], out);
    let state = a.state;
    moved_to(s, state)
}

// Ticks by jumps, and puts the answer.
pub fn jumped<const N: usize>(s: Session, n: u32, out: &mut ArrayVec<u8, N>) -> Session
    requires { array_vec_len out.old + 22 ≤ N }
    ensures value { result ≡ moved s (jump_of s.state n).state }
    ensures appended { out.new.items ≡ out.old.items ++ line_of (jump_numbers (jump_of s.state n)) }
{
    let t = s.state;
    let j = jump::jump(t, n);
    reply::put_numbers([u32::from(j.number), j.jumps], out);
    let state = j.state;
    moved_to(s, state)
}

// Runs by jumps, and puts the answer.
pub fn jump_ran<const N: usize>(s: Session, n: u32, out: &mut ArrayVec<u8, N>) -> Session
    requires { array_vec_len out.old + 33 ≤ N }
    ensures value { result ≡ moved s (jump_run_of s.state n).state }
    ensures appended { out.new.items ≡ out.old.items ++ line_of (jump_run_numbers (jump_run_of s.state n)) }
{
    let t = s.state;
    let r = jump::run(t, n);
    reply::put_numbers([u32::from(r.number), r.used, r.jumps], out);
    let state = r.state;
    moved_to(s, state)
}

// Replays records of a version, and puts the answer.
pub fn replayed<const N: usize>(
    s: Session,
    version: u32,
    records: &[u32],
    out: &mut ArrayVec<u8, N>,
) -> Session
    requires { array_vec_len out.old + 40 ≤ N }
    ensures value { result ≡ moved s (replay_of version s.state records.now).state }
    ensures appended { out.new.items ≡ out.old.items ++ outcome_line (replay_of version s.state records.now).outcome }
{
    let t = s.state;
    let played = capture::replay(t, version, records);
    let o = played.outcome;
    outcome::put_outcome(o, out);
    let state = played.state;
    moved_to(s, state)
}

// Writes the capture expected for records of a version into a run of `room` words, and puts the answer.
pub fn expected<const N: usize>(
    s: Session,
    version: u32,
    room: usize,
    records: &[u32],
    out: &mut ArrayVec<u8, N>,
) -> Session
    requires room_le_most_room { room ≤ most_room }
    requires longest_answer_in_bounds { array_vec_len out.old + longest_answer ≤ N }
    ensures value { result ≡ moved s (expected_of s.state version room records.now).answer.state }
    ensures appended { out.new.items ≡ out.old.items ++ line_of (written_numbers (expected_of s.state version room records.now)) }
{
    let mut said = [UNWRITTEN; MOST_SAID];
    let last = room + 2;
    let t = s.state;
    let w = expected::expect(t, version, records, &mut said[2..last]);
    said[0] = w.number as u32;
    said[1] = w.count as u32;
    decimal::put_line(&said[..last], out);
    let state = w.state;
    moved_to(s, state)
}

// Starts again, and puts the answer.
pub fn restart<const N: usize>(out: &mut ArrayVec<u8, N>) -> Session
    requires { array_vec_len out.old + 11 ≤ N }
    ensures value { result ≡ held fresh_of }
    ensures appended { out.new.items ≡ out.old.items ++ line_of (0 ∷ []) }
{
    reply::put_numbers([0], out);
    start()
}

// Loads numbers, and puts the answer.
pub fn load<const N: usize>(
    numbers: &[u32],
    kept: &mut [u32; numbers::COUNT],
    out: &mut ArrayVec<u8, N>,
) -> Session
    requires numbers_len { length numbers.now ≡ state_count }
    requires at_in_bounds { array_vec_len out.old + 11 ≤ N }
    ensures value { result ≡ loaded_of numbers.now }
    ensures part { part_of result.state ≡ loaded_part numbers.now }
    ensures kept_after { kept.new ≡ numbers.now }
    ensures appended { out.new.items ≡ out.old.items ++ line_of (0 ∷ []) }
{
    kept.copy_from_slice(numbers);
    reply::put_numbers([0], out);
    loaded(kept)
}
