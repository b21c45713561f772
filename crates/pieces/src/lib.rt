// The bytes that were read, replayed piece by piece, with a word on how far the replay is.
#![tactic(auto)]

ghost use Rattle.std.specs.Prelude.{◌≡◌, List, ◌++◌, ℕ, ◌+◌, ◌*◌, ◌/◌, ◌≤◌, ◌^◌, length, take, drop};
ghost use Rattle.capture_file.specs.File.{rest_of};

use capture::Replayed;
use capture_file::Progress;
use input::progress::Watch;

// The bytes of a piece of 512 records.
const PIECE: usize = 2048;

// Replays all whole records of the bytes that come next.
pub fn go_on(
    rt: HostRuntime,
    p: Progress,
    bytes: &[u8],
    records: &mut [u32],
    watch: &mut Watch,
) -> Progress
    requires place_bound { p.place ≤ 2 ^ 63 }
    requires bytes_len_bound { length bytes.now ≤ 2 ^ 62 }
    requires records_len { length records.old ≡ 512 }
    ensures by_index { (rest : List ℕ) → rest_of result (drop (4 * (length bytes.now / 4)) bytes.now ++ rest) ≡ rest_of p (bytes.now ++ rest) }
    ensures place_bound_2 { result.place ≤ p.place + length bytes.now / 4 }
{
    let mut q = p;
    let pieces = bytes.chunks_exact(PIECE);
    let rest = pieces.remainder();
    for piece in pieces {
        q = capture_file::go_on(q, piece, records);
        watch.tell(rt, b"replay", q.place);
    }
    capture_file::go_on(q, rest, records)
}

// The answer for a capture that ends with these bytes.
pub fn finish(
    rt: HostRuntime,
    p: Progress,
    bytes: &[u8],
    records: &mut [u32],
    watch: &mut Watch,
) -> Replayed
    requires place_bound { p.place ≤ 2 ^ 63 }
    requires bytes_len_bound { length bytes.now ≤ 2 ^ 62 }
    requires records_len { length records.old ≡ 512 }
    ensures { result ≡ rest_of p bytes.now }
{
    let q = go_on(rt, p, bytes, records, watch);
    let at = 4 * (bytes.len() / 4);
    capture_file::finish(q, &bytes[at..], records)
}

// The answer for a capture that ends with the first n bytes of a block.
pub fn finish_block(
    rt: HostRuntime,
    p: Progress,
    block: &[u8],
    n: usize,
    records: &mut [u32],
    watch: &mut Watch,
) -> Replayed
    requires place_bound { p.place ≤ 2 ^ 63 }
    requires n_in_bounds { n ≤ length block.now }
    requires block_len_bound { length block.now ≤ 2 ^ 62 }
    requires records_len { length records.old ≡ 512 }
    ensures { result ≡ rest_of p (take n block.now) }
{
    finish(rt, p, &block[..n], records, watch)
}
