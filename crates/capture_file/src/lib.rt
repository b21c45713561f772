// A capture's file, whose bytes come in parts: where it stands is carried from part to part, and
// the answer is that of the whole file, whatever the parts are.
#![tactic(auto)]

ghost use Rattle.std.specs.Prelude.{◌≡◌, List, [], ◌++◌, true, ℕ, ◌+◌, ◌*◌, ◌/◌, ◌≤◌, ◌<◌, ◌^◌, length, drop};
ghost use Rattle.capture.specs.Replay.{refused as «refused-at», values_of};
ghost use Rattle.device.specs.State.{fresh_of};
ghost use Rattle.capture.specs.Replay.{agreeing as «is-agreeing»};
ghost use Rattle.capture_file.specs.File.{onward as «onward-by», capture_of, rest_of, Ready};

use capture::{Outcome, Replayed, refused};
use recorder::file;
use sheet::answer;

// Where a file stands: its version, how its records so far ended and in which state, and the place
// of the next record.
#[derive(Clone, Copy)]
pub struct Progress {
    pub version: u32,
    pub place: usize,
    pub replayed: Replayed,
}

// Whether nothing has differed or been refused.
pub fn agreeing(o: Outcome) -> bool
    ensures { result ≡ «is-agreeing» o }
{
    matches!(o, Outcome::Agreed)
}

// The answer with its place counted from n records earlier.
fn onward(n: usize, r: Replayed) -> Replayed
    requires { n + (values_of r.outcome).place < 2 ^ 64 }
    ensures { result ≡ «onward-by» n r }
{
    let state = r.state;
    let o = r.outcome;
    match o {
        Outcome::Agreed => r,
        Outcome::Differs { place, seen, model } => Replayed {
            state,
            outcome: Outcome::Differs {
                place: n + place,
                seen,
                model,
            },
        },
        Outcome::Refused {
            number,
            part,
            place,
        } => Replayed {
            state,
            outcome: Outcome::Refused {
                number,
                part,
                place: n + place,
            },
        },
    }
}

// A file that is refused before its first record.
fn unread(number: u8) -> Progress
    ensures { result ≡ record { version = 0; place = 0; replayed = «refused-at» number fresh_of 0 } }
{
    Progress {
        version: 0,
        place: 0,
        replayed: refused(number, device::fresh(), 0),
    }
}

// The file that begins with these bytes: their first eight are its header, and the records' bytes
// follow. Where they are fewer they are all of the file.
pub fn begin(first: &[u8]) -> Progress
    ensures rest_value { 8 ≤ length first.now → (rest : List ℕ) → rest_of result (drop 8 first.now ++ rest) ≡ capture_of (first.now ++ rest) }
    ensures result_value { length first.now < 8 → rest_of result [] ≡ capture_of first.now }
    ensures place_value { result.place ≡ 0 }
{
    match file::header_of(first) {
        Ok(version) => Progress {
            version,
            place: 0,
            replayed: Replayed {
                state: device::fresh(),
                outcome: Outcome::Agreed,
            },
        },
        Err(error) => unread(error.number()),
    }
}

// Replays the whole records of the bytes that come next; `records` is room for them. One to three
// bytes that are left come again at the start of the next part.
pub fn go_on(p: Progress, bytes: &[u8], records: &mut [u32]) -> Progress
    requires bytes_len_bound { length bytes.now ≤ 4 * length records.old }
    requires records_bound { p.place + length records.old < 2 ^ 64 }
    ensures by_index { (rest : List ℕ) → rest_of result (drop (4 * (length bytes.now / 4)) bytes.now ++ rest) ≡ rest_of p (bytes.now ++ rest) }
    ensures place_bound { result.place ≤ p.place + length bytes.now / 4 }
    ensures ready { «is-agreeing» result.replayed.outcome ≡ true → Ready result }
{
    let so_far = p.replayed;
    let o = so_far.outcome;
    if !agreeing(o) {
        return p;
    }
    let n = file::decode(bytes, records);
    let version = p.version;
    let place = p.place;
    let s = so_far.state;
    let r = capture::replay(s, version, &records[..n]);
    Progress {
        version,
        place: place + n,
        replayed: onward(place, r),
    }
}

// The answer for a file that ends with these bytes.
pub fn finish(p: Progress, bytes: &[u8], records: &mut [u32]) -> Replayed
    requires bytes_len_bound { length bytes.now ≤ 4 * length records.old }
    requires records_bound { p.place + length records.old < 2 ^ 64 }
    ensures { result ≡ rest_of p bytes.now }
{
    let q = go_on(p, bytes, records);
    let r = q.replayed;
    let o = r.outcome;
    if !agreeing(o) {
        return r;
    }
    if bytes.len() % 4 == 0 {
        return r;
    }
    let s = r.state;
    refused(answer::BAD_RECORD, s, q.place)
}
