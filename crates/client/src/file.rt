// Replay of a capture's file, whose bytes come in parts. What a client carries from part to part goes
// by value, and every bit pattern of it is a value.
ghost use Rattle.std.specs.Prelude.{◌≡◌, ltb, List, [], ◌++◌, ℕ, ◌+◌, ◌*◌, ◌/◌, ◌≤◌, ◌<◌, ◌^◌, length, drop};
ghost use Rattle.capture.specs.Replay.{refused as «refused-at»};
ghost use Rattle.capture_file.specs.File.{capture_of, rest_of};
ghost use Rattle.client.specs.Replay.{replay_answer};
ghost use Rattle.client.specs.File.{stopped_by, outcome_of, carried_of, handed_of, beyond_of, rest_answer, ToldSoFar};

use crate::{Replay, answered};
use capture::{Outcome, Replayed, Values};
use device::State;
use sheet::answer;

// The most records of a file, 2^62; no file has as many.
const MOST: usize = 4611686018427387904;

// The bytes of a block of 4,096 records.
const BLOCK: usize = 16384;

// Where a file stands: its version, what stopped it (0 nothing so far, 1 a read that differs, 2 a
// refusal) with its values, the records done, and the state.
#[repr(C)]
#[derive(Clone, Copy)]
pub struct Progress {
    pub version: u32,
    pub stopped: u8,
    pub done: usize,
    pub values: Values,
    pub state: State,
}

// What stopped a replay, as the number that the C struct has.
fn stopped_by(o: Outcome) -> u8
    ensures { result ≡ stopped_by o }
{
    match o {
        Outcome::Agreed => 0,
        Outcome::Differs { .. } => 1,
        Outcome::Refused { .. } => 2,
    }
}

// The outcome of that number, where every value of it is one, and the values.
fn outcome_of(stopped: u8, v: Values) -> Outcome
    ensures { result ≡ outcome_of stopped v }
{
    let place = v.place;
    match stopped {
        0 => Outcome::Agreed,
        1 => Outcome::Differs {
            place,
            seen: v.seen,
            model: v.model,
        },
        _ => Outcome::Refused {
            number: v.number,
            part: v.part,
            place,
        },
    }
}

// The progress as `capture_file` has it, and back.
impl From<Progress> for capture_file::Progress {
    ghost from_gives = { λ p q. q ≡ carried_of p };

    fn from(p: Progress) -> capture_file::Progress {
        let state = p.state;
        let v = p.values;
        capture_file::Progress {
            version: p.version,
            place: p.done,
            replayed: Replayed {
                state,
                outcome: outcome_of(p.stopped, v),
            },
        }
    }
}

impl From<capture_file::Progress> for Progress {
    ghost from_gives = { λ p q. q ≡ handed_of p };

    fn from(p: capture_file::Progress) -> Progress {
        let replayed = p.replayed;
        let o = replayed.outcome;
        let state = replayed.state;
        Progress {
            version: p.version,
            stopped: stopped_by(o),
            done: p.place,
            values: capture::values_of(o),
            state,
        }
    }
}

// Replays all whole records of the bytes that come next, a block at a time.
fn replay_blocks(p: capture_file::Progress, bytes: &[u8]) -> capture_file::Progress
    requires { p.place ≤ 2 ^ 62 }
    ensures by_index { (rest : List ℕ) → rest_of result (drop (4 * (length bytes.now / 4)) bytes.now ++ rest) ≡ rest_of p (bytes.now ++ rest) }
    ensures place_bound { result.place ≤ p.place + length bytes.now / 4 }
{
    let mut records = [0u32; 4096];
    let (blocks, rest) = bytes.as_chunks::<BLOCK>();
    let mut q = p;
    for block in blocks {
        q = capture_file::go_on(q, block, &mut records);
    }
    capture_file::go_on(q, rest, &mut records)
}

// Whether a file would have more than the most records with the whole ones of these bytes.
fn beyond(done: usize, bytes: &[u8]) -> bool
    ensures { result ≡ ltb (2 ^ 62) (done + length bytes.now / 4) }
{
    MOST < done.saturating_add(bytes.len() / 4)
}

// Such a file is refused, and the state is as it was.
fn refused(p: Progress) -> capture_file::Progress
    ensures { result ≡ record { version = p.version; place = p.done; replayed = «refused-at» 1 p.state 0 } }
{
    let state = p.state;
    capture_file::Progress {
        version: p.version,
        place: p.done,
        replayed: capture::refused(answer::MALFORMED, state, 0),
    }
}

// The file that begins with these bytes: their first eight are its header, and what follows comes
// again with the next part. Where they are fewer they are all of the file.
pub fn begin(first: &[u8]) -> Progress
    ensures rest_value { 8 ≤ length first.now → (rest : List ℕ) → rest_answer result (drop 8 first.now ++ rest) ≡ replay_answer (capture_of (first.now ++ rest)) }
    ensures result_value { length first.now < 8 → rest_answer result [] ≡ replay_answer (capture_of first.now) }
    ensures done_value { result.done ≡ 0 }
    ensures told_so_far { ToldSoFar result }
{
    Progress::from(capture_file::begin(first))
}

// Replays the whole records of the bytes that come next. One to three bytes that are left come again
// at the start of the next part.
pub fn more(p: Progress, bytes: &[u8]) -> Progress
    ensures rest_value { p.done + length bytes.now / 4 ≤ 2 ^ 62 → (rest : List ℕ) → rest_answer result (drop (4 * (length bytes.now / 4)) bytes.now ++ rest) ≡ rest_answer p (bytes.now ++ rest) }
    ensures value { 2 ^ 62 < p.done + length bytes.now / 4 → result ≡ beyond_of p }
    ensures done_bound { result.done ≤ p.done + length bytes.now / 4 }
    ensures told_so_far { ToldSoFar p → ToldSoFar result }
{
    if beyond(p.done, bytes) {
        return Progress::from(refused(p));
    }
    let begun = capture_file::Progress::from(p);
    let so_far = replay_blocks(begun, bytes);
    Progress::from(so_far)
}

// The answer for a file that ends with these bytes.
pub fn end(p: Progress, bytes: &[u8]) -> Replay
    ensures value { p.done + length bytes.now / 4 ≤ 2 ^ 62 → result ≡ rest_answer p bytes.now }
    ensures value_2 { 2 ^ 62 < p.done + length bytes.now / 4 → result ≡ replay_answer («refused-at» 1 p.state 0) }
    ensures agreed { ToldSoFar p → result.values.number ≡ 0 → result.values.seen ≡ result.values.model → (rest_of (carried_of p) bytes.now).outcome ≡ Outcome.Agreed }
{
    if beyond(p.done, bytes) {
        return answered(refused(p).replayed);
    }
    let begun = capture_file::Progress::from(p);
    let q = replay_blocks(begun, bytes);
    let at = 4 * (bytes.len() / 4);
    let mut room = [0u32; 1];
    let r = capture_file::finish(q, &bytes[at..], &mut room);
    answered(r)
}
