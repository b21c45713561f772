// Blocks of a capture's bytes, read from a reader, with a word on how far the work is.
#![tactic(auto)]

pub mod progress;

ghost use Rattle.std.specs.Prelude.{◌≡◌, ◌+◌, ◌≤◌, ◌<◌, ◌^◌, length, take, IfOk};

use progress::Watch;
use std::fs::File;
use std::io;
use std::io::Read;

// The file of this name, which has to be text: today's library opens no other.
pub fn opened(rt: HostRuntime, name: &[u8]) -> io::Result<File> {
    match str::from_utf8(name) {
        Ok(path) => File::open(&rt, path),
        Err(_) => Err(io::Error::from(io::ErrorKind::InvalidFilename)),
    }
}

// Reads until the block is full or the input ends, and answers how many bytes that were. `place` is
// that of the block's first record.
pub fn fill<R: Read>(
    rt: HostRuntime,
    input: &mut R,
    block: &mut [u8],
    place: usize,
    program: &[u8],
    watch: &mut Watch,
) -> io::Result<usize>
    requires { place + length block.old < 2 ^ 64 }
    ensures { IfOk result (λ n. (n ≤ length block.new) × (n ≡ length (take n block.new))) }
{
    let mut used: usize = 0;
    while used < block.len() {
        let n = input.read(&mut block[used..])?;
        if n == 0 {
            break;
        }
        used += n;
        watch.tell(rt, program, place + used / 4);
    }
    Ok(used)
}
