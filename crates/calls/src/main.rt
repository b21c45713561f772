// Takes calls from standard input, one to a line, and writes a line of answer for each.
//
// Input is read in blocks. Every whole line of a block is answered, and the answers are written,
// before the next read; what is read of a line that has not ended is held for it. Of a line longer
// than any valid one no more is held than shows that.
#![tactic(auto)]

use arrayvec::ArrayVec;
use blocks::Held;

// What the program is.
const HELP: &[u8] =
    b"usage: calls [--help]\n\nTakes calls from standard input, one to a line, and writes a line of answer for each:\nfresh, load V1 .. V351, state, reset, read A, write A B, sin V, modem V, tick, ticks N,\npins, forecast, level T, run N, replay V W.., part, divisor CLOCK RATE, expect V ROOM W..,\njump N, jumprun N.\nAny other line is answered bad.\n\nThe exit status is always 0. Where reading or writing fails, standard error says so,\nand nothing more is answered.\n";

// How many bytes of answers are put before they are written.
const ROOM: usize = 262144;

// Reads and answers until the input ends. A proved loop has to end, so it has more turns than any run
// uses up.
fn serve(
    rt: HostRuntime,
    block: &mut [u8; 65536],
    numbers: &mut [u32; command::MOST_NUMBERS],
    kept: &mut [u32; numbers::COUNT],
    out: &mut ArrayVec<u8, ROOM>,
) {
    let mut t = Held {
        session: current::start(),
        used: 0,
    };
    for _ in 0..u64::MAX {
        let Some(held) = turns::turn(rt, t, block, numbers, kept, out) else {
            return;
        };
        t = held;
    }
}

// Serves standard input.
fn run(rt: HostRuntime) {
    let mut block = [0u8; 65536];
    let mut numbers = [0u32; command::MOST_NUMBERS];
    let mut kept = [0u32; numbers::COUNT];
    let mut out = ArrayVec::<u8, ROOM>::new();
    serve(rt, &mut block, &mut numbers, &mut kept, &mut out);
}

fn main(rt: HostRuntime) {
    if arguments::count(rt) < 2 {
        arguments::hint(
            rt,
            b"calls: one call to a line, for example: read 5 (Ctrl-D ends)\n",
        );
        run(rt);
    } else {
        arguments::answer_option(rt, b"calls", 1, HELP);
    }
}
