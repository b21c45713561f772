// The capture that is expected of an undisturbed chip: records written anew, each read with the
// model's byte in it.
//
// The definitions that the contracts cite stand in `specs/Expected.antt`.
#![tactic(auto)]

ghost use Rattle.std.specs.Prelude.{◌≡◌, true, ◌≤◌, min, length, take, drop};
ghost use Rattle.device.specs.Ranges.{well_formed};
ghost use Rattle.capture.specs.Replay.{agreed, replay_from, replay_of};
ghost use Rattle.expected.specs.Expected.{left_number, expect_from, expect_of};

use device::State;
use ranges::part_of;
use recorder::{file, record};
use sheet::answer;
use sheet::part::NONE;

// What the writer answers: a refusal's number, with the part of the state that is bad, how many words
// it wrote, and the state in which it ended.
#[repr(C)]
#[derive(Clone, Copy)]
pub struct Expected {
    pub number: u8,
    pub part: u8,
    pub count: usize,
    pub state: State,
}

// The number at the place where records are no longer written: 0 behind the last, else that of a bad
// record, or of one for which no word is left.
fn number_at(records: &[u32], place: usize) -> u8
    ensures { result ≡ left_number (drop place records.now) }
{
    match records.get(place) {
        None => answer::DONE,
        Some(w) if record::good(*w) => answer::NO_ROOM,
        Some(_) => answer::BAD_RECORD,
    }
}

// Writes the records that are expected from a well-formed state.
fn expect_records(s: State, records: &[u32], words: &mut [u32]) -> Expected
    requires { well_formed s ≡ true }
    ensures words_after { record { answer = result; words = words.new } ≡ expect_from s records.now words.old }
    ensures words_after_2 { replay_from 0 s (take result.count words.new) ≡ agreed result.state }
    ensures state_value { well_formed result.state ≡ true }
    ensures count_in_bounds { result.count ≤ length words.new }
{
    let n = records.len().min(words.len());
    let stop = sequence::follow(s, &records[..n], words, false);
    let place = stop.place;
    let state = stop.state;
    Expected {
        number: number_at(records, place),
        part: NONE,
        count: place,
        state,
    }
}

// The answer of a refusal before the first record.
fn refused(number: u8, part: u8, s: State) -> Expected
    ensures { result ≡ record { number = number; part = part; count = 0; state = s } }
{
    Expected {
        number,
        part,
        count: 0,
        state: s,
    }
}

// Writes the capture that is expected for records of a version from a state into the second run.
#[tactic(auto, unfolding(crate::specs::Expected::expect_of))]
pub fn expect(s: State, version: u32, records: &[u32], words: &mut [u32]) -> Expected
    ensures outcome { record { answer = result; words = words.new } ≡ expect_of version s records.now words.old }
    ensures replayed { (result.number ≡ 1 → ⊥) → (result.number ≡ 7 → ⊥) → replay_of version s (take result.count words.new) ≡ agreed result.state }
    ensures well { well_formed s ≡ true → well_formed result.state ≡ true }
    ensures count_in_bounds { result.count ≤ length words.new }
    ensures count_value { result.count ≡ length (take result.count words.new) }
{
    let part = part_of(s);
    if part != NONE {
        return refused(answer::MALFORMED, part, s);
    }
    if !file::known(version) {
        return refused(answer::UNKNOWN_VERSION, NONE, s);
    }
    expect_records(s, records, words)
}
