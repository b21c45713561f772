// Records followed one after the other from a well-formed state: the one loop over records, of replay
// and of the writer of captures.
#![tactic(auto)]

ghost use Rattle.std.specs.Prelude.{◌≡◌, true, not, ◌&&◌, [], ◌≤◌, eqb, length, take, get_or, set};
ghost use Rattle.recorder.specs.Record.{byte};
ghost use Rattle.device.specs.Ranges.{well_formed};
ghost use Rattle.recorded.specs.Record.{model_byte};
ghost use Rattle.sequence.specs.Sequence.{good_at, follow_of};

use device::State;
use recorded::Way;
use recorder::record;

// Where records are no longer followed: the place of the record, the state before it, and what the
// model expects of it where it is a good one.
#[derive(Clone, Copy)]
pub struct Stop {
    pub state: State,
    pub place: usize,
    pub expected: u32,
}

// Whether a good record stands at a place.
fn good_at(records: &[u32], place: usize) -> bool
    ensures { result ≡ good_at records.now place }
{
    if records.len() <= place {
        return false;
    }
    record::good(records[place])
}

// Whether a record, of which the model expects `expected`, is not followed.
fn stops(compare: bool, w: u32, expected: u32) -> bool
    ensures { result ≡ (compare && not (eqb expected w)) }
{
    compare && expected != w
}

// Puts a word at a place, if there is one.
fn put(w: u32, words: &mut [u32], place: usize)
    ensures { words.new ≡ set words.old place w }
{
    // Not `get_mut`: once what it lends is given back, a proof knows the words' number alone.
    if place < words.len() {
        words[place] = w;
    }
}

// Follows records from a well-formed state up to the first that is bad or, if the bytes seen are
// compared, a read that differs, and writes each as the model expects it, as long as a word is left.
// What a record does not touch of the state stays where it is. The loop counts its place and yields it
// by its `break` (docs/DECISIONS.md, "One loop for both"). `compare` is no closure: `follow_of` and the
// clause `again` name both of its values.
pub fn follow(s: State, records: &[u32], words: &mut [u32], compare: bool) -> Stop
    requires { well_formed s ≡ true }
    ensures words_after { record { count = result.place; state = result.state; words = words.new } ≡ follow_of compare s records.now words.old }
    ensures state_value { well_formed result.state ≡ true }
    ensures expected_value { good_at records.now result.place ≡ true → byte result.expected ≡ model_byte result.state (get_or records.now result.place 0) }
    ensures again { result.place ≤ length words.old → follow_of true s (take result.place words.new) [] ≡ record { count = result.place; state = result.state; words = [] } }
{
    let mut t = s;
    let mut expected: u32 = 0;
    let mut i: usize = 0;
    let place = loop {
        if !good_at(records, i) {
            break i;
        }
        let w = records[i];
        expected = recorded::expects(t, w);
        if stops(compare, w, expected) {
            break i;
        }
        put(expected, words, i);
        match Way::of(t, w) {
            Way::Nothing => {}
            Way::Numbers => {
                let n = recorded::numbers(t, w);
                let registers = n.registers;
                let baud = n.baud;
                let latches = n.latches;
                t.registers = registers;
                t.baud = baud;
                t.latches = latches;
            }
            Way::Transmit => {
                let n = recorded::transmit(t, w);
                let tx = n.tx;
                let latches = n.latches;
                t.tx = tx;
                t.latches = latches;
            }
            Way::Read => t = recorded::after_read(t, w),
            Way::Ticks => t = recorded::ticks(t, w),
            Way::Other => t = recorded::other(t, w),
        }
        i += 1;
    };
    Stop {
        state: t,
        place,
        expected,
    }
}
