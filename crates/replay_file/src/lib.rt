// Reads a capture from a reader, 8,192 records at a time, replays it from the fresh state,
// and writes how that ended.
#![tactic(auto)]

ghost use Rattle.std.specs.Prelude.{◌≡◌, ◌≤◌, length, IfOk};
ghost use Rattle.replay_file.specs.Captures.{OfRest, OfFile};

use arguments::{tell, written};
use capture::Replayed;
use capture_file::Progress;
use input::progress::Watch;
use std::io;
use std::io::Read;

// The program that says all this.
const PROGRAM: &[u8] = b"replay";

// More blocks than any run reads. A proved loop has to end, so it ends after these.
const BLOCKS: usize = 1125899906842624;

// Replays the records that follow the header, block by block.
fn replay_blocks<R: Read>(
    rt: HostRuntime,
    input: &mut R,
    begun: Progress,
    block: &mut [u8; 32768],
    records: &mut [u32; 512],
    watch: &mut Watch,
) -> io::Result<Replayed>
    requires { begun.place ≡ 0 }
    ensures { IfOk result (λ r. OfRest begun r) }
{
    let mut p = begun;
    for _ in 0..BLOCKS {
        if !capture_file::agreeing(p.replayed.outcome) {
            return Ok(p.replayed);
        }
        let n = input::fill(rt, input, block, p.place, PROGRAM, watch)?;
        if n < block.len() {
            return Ok(pieces::finish_block(rt, p, block, n, records, watch));
        }
        p = pieces::go_on(rt, p, block, records, watch);
    }
    Ok(pieces::finish(rt, p, &[], records, watch))
}

// The answer for the capture that a reader gives.
fn judge<R: Read>(rt: HostRuntime, input: &mut R, watch: &mut Watch) -> io::Result<Replayed>
    ensures { IfOk result (λ r. OfFile r) }
{
    let mut header = [0u8; 8];
    let mut block = [0u8; 32768];
    let mut records = [0u32; 512];
    let n = input::fill(rt, input, &mut header, 0, PROGRAM, &mut Watch::silent())?;
    let p = capture_file::begin(&header[..n]);
    if n < 8 {
        return Ok(pieces::finish(rt, p, &[], &mut records, watch));
    }
    replay_blocks(rt, input, p, &mut block, &mut records, watch)
}

// Replays the capture that a reader gives, and writes how it ended, after its name where
// there are several. Where reading or writing fails, standard error says why. Answers whether the
// answer could be written.
pub fn replay<R: Read>(rt: HostRuntime, input: &mut R, several: bool, name: &[u8]) -> bool
    requires { length name.now ≤ 4096 }
{
    let mut watch = Watch::start(rt);
    let judged = judge(rt, input, &mut watch);
    watch.stop(rt);
    match judged {
        Ok(r) => {
            let said = answer_line::say(rt, several, name, r.outcome);
            written(rt, PROGRAM, said)
        }
        Err(e) => {
            tell(rt, PROGRAM, name, e);
            true
        }
    }
}
