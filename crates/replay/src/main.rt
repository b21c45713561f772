// Replays captures, from files or from standard input, and writes a line for each: agreed, or
// differs with the place, the byte seen and the model's byte, or refused with the number and the
// place.
#![tactic(auto)]

ghost use Rattle.std.specs.Prelude.{◌≤◌, length};

// The program that says all this.
const PROGRAM: &[u8] = b"replay";

// What the program is.
const HELP: &[u8] =
    b"usage: replay [--help] [FILE ..]\n\nReplays each capture FILE on the model, standard input where there is none or for -,\nand writes a line for each, after its name where there are several:\n\nagreed                      every read saw what the model answers\ndiffers PLACE SEEN MODEL    the first read that did not, counted from 0\nrefused NUMBER PLACE        6 no capture, 7 unknown version, 8 bad record, or cut off\n\nThe exit status is always 0; the answer is the line. Where reading or writing fails,\nstandard error says so, and there is no line.\n";

// Replays standard input.
fn replay_input(rt: HostRuntime, several: bool, name: &[u8]) -> bool
    requires { length name.now ≤ 4096 }
{
    arguments::hint(
        rt,
        b"replay: a capture is awaited on standard input (replay FILE takes a file)\n",
    );
    replay_file::replay(rt, &mut rt.stdin(), several, name)
}

// Replays the capture of this name. Its like in `expect` answers nothing: one function for both would
// take a closure with a contract, and be longer than the two.
fn replay_named(rt: HostRuntime, several: bool, name: &[u8]) -> bool
    requires { length name.now ≤ 4096 }
{
    if name == b"-".as_slice() {
        return replay_input(rt, several, name);
    }
    match input::opened(rt, name) {
        Ok(mut file) => replay_file::replay(rt, &mut file, several, name),
        Err(e) => {
            arguments::tell(rt, PROGRAM, name, e);
            true
        }
    }
}

// Replays the capture that an argument names. Answers whether its answer could be written.
fn replay_argument(rt: HostRuntime, several: bool, i: usize) -> bool {
    let mut space = [0u8; 4096];
    match arguments::read(rt, i, &mut space) {
        Ok(n) => replay_named(rt, several, &space[..n]),
        Err(e) => {
            arguments::tell(rt, PROGRAM, b"an argument", e);
            true
        }
    }
}

// Replays the captures that the arguments name, until an answer cannot be written.
fn replay_all(rt: HostRuntime, count: usize) {
    for i in 1..count {
        if !replay_argument(rt, 2 < count, i) {
            return;
        }
    }
}

fn main(rt: HostRuntime) {
    let count = arguments::count(rt);
    if count < 2 {
        replay_input(rt, false, b"standard input");
    } else if let Some(i) = arguments::first_option(rt, count) {
        arguments::answer_option(rt, PROGRAM, i, HELP);
    } else {
        replay_all(rt, count);
    }
}
