// Writes, for a capture from a file or from standard input, the one that is expected of an undisturbed
// chip: its records, each read with the model's byte in it.
#![tactic(auto)]

use std::io::Write;

// The program that says all this.
const PROGRAM: &[u8] = b"expect";

// What the program is.
const HELP: &[u8] =
    b"usage: expect [--help] [FILE]\n\nWrites the capture that is expected of an undisturbed chip for the capture FILE, standard\ninput where there is none or for -, to standard output: the same records, but each read\nwith the byte that the model answers. A capture that is refused ends before the record\nthat is, and standard error has the number in a line of its own:\n\n6    no capture: nothing is written\n7    unknown version: nothing is written\n8    bad record, or cut off\n\nThe exit status is always 0. Where reading or writing fails, standard error says so.\n";

// Writes what is expected for standard input.
fn expect_input(rt: HostRuntime, name: &[u8]) {
    arguments::hint(
        rt,
        b"expect: a capture is awaited on standard input (expect FILE takes a file)\n",
    );
    expect_blocks::expect(rt, &mut rt.stdin(), name);
}

// Writes what is expected for the capture of this name.
fn expect_named(rt: HostRuntime, name: &[u8]) {
    if name == b"-".as_slice() {
        expect_input(rt, name);
        return;
    }
    match input::opened(rt, name) {
        Ok(mut file) => expect_blocks::expect(rt, &mut file, name),
        Err(e) => arguments::tell(rt, PROGRAM, name, e),
    }
}

// Writes what is expected for the capture that the first argument names.
fn expect_argument(rt: HostRuntime) {
    let mut space = [0u8; 4096];
    match arguments::read(rt, 1, &mut space) {
        Ok(n) => expect_named(rt, &space[..n]),
        Err(e) => arguments::tell(rt, PROGRAM, b"an argument", e),
    }
}

fn main(rt: HostRuntime) {
    let count = arguments::count(rt);
    if count < 2 {
        expect_input(rt, b"standard input");
    } else if let Some(i) = arguments::first_option(rt, count) {
        arguments::answer_option(rt, PROGRAM, i, HELP);
    } else if 2 < count {
        let _told = rt
            .stderr()
            .write_all(b"expect: one capture at a time (--help tells more)\n")
            .is_ok();
    } else {
        expect_argument(rt);
    }
}
