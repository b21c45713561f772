// The capture expected for a file, whose bytes come in parts, each written anew in place: where it
// stands is carried from part to part by value, every bit pattern of it is a value, and what is
// written is that of the whole file, whatever the parts are.
#![tactic(auto)]

ghost use Rattle.std.specs.Prelude.{◌≡◌, List, [], ◌++◌, ℕ, ◌*◌, ◌/◌, ◌≤◌, ◌<◌, length, take, drop};
ghost use Rattle.device.specs.State.{fresh_of};
ghost use Rattle.expected_file.specs.File.{after, expected_of, begun_of, made_by, rest_of, Ready};

use device::State;
use recorder::file;
use sheet::answer;
use sheet::part::NONE;

// The bytes of a piece of 512 records.
const PIECE: usize = 2048;

// Where a file stands: the number of a refusal, with the part of the state that is bad, the version,
// how many records the last call wrote, and the state.
#[repr(C)]
#[derive(Clone, Copy)]
pub struct Progress {
    pub number: u8,
    pub part: u8,
    pub version: u32,
    pub count: usize,
    pub state: State,
}

// A file whose header is judged, in the fresh state.
fn begun(number: u8, version: u32) -> Progress
    ensures { result ≡ record { number = number; part = 0; version = version; count = 0; state = fresh_of } }
{
    Progress {
        number,
        part: NONE,
        version,
        count: 0,
        state: device::fresh(),
    }
}

// The file that begins with these bytes: their first eight are its header, and the records' bytes
// follow. Where they are fewer they are all of the file.
pub fn begin(first: &[u8]) -> Progress
    ensures value { result ≡ begun_of first.now }
    ensures rest_value { result.number ≡ 0 → (rest : List ℕ) → after (take 8 first.now) (rest_of result (drop 8 first.now ++ rest)) ≡ expected_of (first.now ++ rest) }
    ensures rest_value_2 { (result.number ≡ 0 → ⊥) → 8 ≤ length first.now → (rest : List ℕ) → rest_of result rest ≡ expected_of (first.now ++ rest) }
    ensures result_value { length first.now < 8 → rest_of result [] ≡ expected_of first.now }
{
    match file::header_of(first) {
        Ok(version) => begun(answer::DONE, version),
        Err(error) => begun(error.number(), 0),
    }
}

// Writes anew the whole records of a piece, where nothing was refused before.
fn rewrite(p: Progress, bytes: &mut [u8], records: &mut [u32], words: &mut [u32]) -> Progress
    requires number_value { p.number ≡ 0 }
    requires bytes_len_bound { length bytes.old ≤ 4 * length records.old }
    requires records_in_bounds { length records.old ≤ length words.old }
    ensures by_index { (rest : List ℕ) → after (take (4 * result.count) bytes.new) (rest_of result (drop (4 * (length bytes.old / 4)) bytes.old ++ rest)) ≡ rest_of p (bytes.old ++ rest) }
    ensures bytes_unchanged { drop (4 * result.count) bytes.new ≡ drop (4 * result.count) bytes.old }
    ensures count_in_bounds { result.count ≤ length bytes.old / 4 }
    ensures count_value { result.number ≡ 0 → result.count ≡ length bytes.old / 4 }
    ensures ready { result.number ≡ 0 → Ready result }
{
    let n = file::decode(bytes, records);
    let s = p.state;
    let version = p.version;
    let e = expected::expect(s, version, &records[..n], words);
    let count = e.count;
    file::encode(&words[..count], bytes);
    let state = e.state;
    Progress {
        number: e.number,
        part: e.part,
        version,
        count,
        state,
    }
}

// The progress with this count.
fn counted(p: Progress, count: usize) -> Progress
    ensures { result ≡ record { number = p.number; part = p.part; version = p.version; count = count; state = p.state } }
{
    let mut q = p;
    q.count = count;
    q
}

// Writes anew the whole records of the bytes that come next, up to one that is refused. One to three
// bytes that are left come again at the start of the next part.
pub fn go_on(p: Progress, bytes: &mut [u8]) -> Progress
    ensures by_index { (rest : List ℕ) → after (take (4 * result.count) bytes.new) (rest_of result (drop (4 * (length bytes.old / 4)) bytes.old ++ rest)) ≡ rest_of p (bytes.old ++ rest) }
    ensures bytes_unchanged { drop (4 * result.count) bytes.new ≡ drop (4 * result.count) bytes.old }
    ensures count_in_bounds { 4 * result.count ≤ length bytes.new }
    ensures count_value { 4 * result.count ≡ length (take (4 * result.count) bytes.new) }
    ensures ready { result.number ≡ 0 → Ready result }
{
    if p.number != answer::DONE {
        return counted(p, 0);
    }
    let mut records = [0u32; 512];
    let mut words = [0u32; 512];
    let mut q = p;
    let mut at: usize = 0;
    // Not `chunks_exact_mut`: once what it lends is given back, a proof knows the bytes' number alone.
    while PIECE <= bytes.len() - at {
        let end = at + PIECE;
        q = rewrite(q, &mut bytes[at..end], &mut records, &mut words);
        if q.number != answer::DONE {
            return counted(q, at / 4 + q.count);
        }
        at = end;
    }
    q = rewrite(q, &mut bytes[at..], &mut records, &mut words);
    counted(q, at / 4 + q.count)
}

// Writes anew the records of the bytes with which a file ends. One to three bytes that are left are
// refused.
pub fn end(p: Progress, bytes: &mut [u8]) -> Progress
    ensures bytes_after { made_by result (take (4 * result.count) bytes.new) ≡ rest_of p bytes.old }
    ensures bytes_unchanged { drop (4 * result.count) bytes.new ≡ drop (4 * result.count) bytes.old }
    ensures count_in_bounds { 4 * result.count ≤ length bytes.new }
    ensures count_value { 4 * result.count ≡ length (take (4 * result.count) bytes.new) }
{
    let q = go_on(p, bytes);
    if q.number != answer::DONE {
        return q;
    }
    if bytes.len() % 4 == 0 {
        return q;
    }
    let state = q.state;
    Progress {
        number: answer::BAD_RECORD,
        part: NONE,
        version: q.version,
        count: q.count,
        state,
    }
}
