// What the programs do with their arguments, and what they say on standard error.
#![tactic(auto)]

ghost use Rattle.std.specs.Prelude.{◌≡◌, ◌≤◌, ◌<◌, length, take, is_ok, IfOk, IfSome};

use std::env::{Env, FillError};
use std::io;
use std::io::{IsTerminal, Write};

// The system's number for a name that is too long.
const NAME_TOO_LONG: i32 = 36;

// How many arguments there are, with the program's name.
pub fn count(rt: HostRuntime) -> usize {
    let mut space = [0u8; 1];
    (0..usize::MAX)
        .find(|i| matches!(rt.arg(*i, &mut space), Err(FillError::NotPresent)))
        .unwrap_or(usize::MAX)
}

// Puts an argument at the start of a buffer, and answers its length. There may be no room for it.
pub fn read(rt: HostRuntime, i: usize, space: &mut [u8]) -> io::Result<usize>
    ensures { IfOk result (λ n. (n ≤ length space.new) × (n ≡ length (take n space.new))) }
{
    rt.arg(i, space)
        .map_err(|_| io::Error::from_raw_os_error(NAME_TOO_LONG))
}

// The same; 0 where there is no such argument, or no room for it.
fn argument(rt: HostRuntime, i: usize, space: &mut [u8]) -> usize
    ensures { (result ≤ length space.new) × (result ≡ length (take result space.new)) }
{
    read(rt, i, space).unwrap_or(0)
}

// Whether an argument is this word.
pub fn is(rt: HostRuntime, i: usize, word: &[u8]) -> bool {
    let mut space = [0u8; 4096];
    let n = argument(rt, i, &mut space);
    &space[..n] == word
}

// Whether an argument is an option: it begins with `-`, and more follows.
pub fn is_option(rt: HostRuntime, i: usize) -> bool {
    let mut space = [0u8; 4096];
    let n = argument(rt, i, &mut space);
    2 <= n && space[0] == b'-'
}

// The first of so many arguments that is an option.
pub fn first_option(rt: HostRuntime, count: usize) -> Option<usize>
    ensures { IfSome result (λ i. (0 < i) × (i < count)) }
{
    (1..count).find(|i| is_option(rt, *i))
}

// Writes the parts of a message.
fn write_parts(rt: HostRuntime, parts: &[&[u8]]) -> io::Result<()> {
    let mut out = rt.stderr();
    for part in parts {
        out.write_all(part)?;
    }
    Ok(())
}

// Tells that a program does not take an argument.
pub fn refuse(rt: HostRuntime, program: &[u8], i: usize) {
    let mut space = [0u8; 4096];
    let n = argument(rt, i, &mut space);
    let last = b" (--help tells which there are)\n";
    let _told = write_parts(rt, &[program, b": unknown argument: ", &space[..n], last]).is_ok();
}

// Answers an argument that is no capture: --help by saying what the program is, any other by telling
// that the program does not take it.
pub fn answer_option(rt: HostRuntime, program: &[u8], i: usize, help: &[u8]) {
    if is(rt, i, b"--help") {
        written(rt, program, rt.stdout().write_all(help));
    } else {
        refuse(rt, program, i);
    }
}

// Tells what is awaited, where standard input is a terminal.
pub fn hint(rt: HostRuntime, text: &[u8]) {
    if rt.stdin().is_terminal() {
        let _told = rt.stderr().write_all(text).is_ok();
    }
}

// Where the words of an error's message end, before the system's number in parentheses.
fn words_end(message: &[u8]) -> usize
    ensures { result ≤ length message.now }
{
    message
        .iter()
        .position(|c| *c == b'(')
        .map_or(message.len(), |open| open.saturating_sub(1))
}

// Tells that a program cannot read or write what has this name, and why.
pub fn tell(rt: HostRuntime, program: &[u8], name: &[u8], error: io::Error) {
    let _told = write_parts(rt, &[program, b": ", name, b": "]).is_ok();
    match format!(in rt.alloc(); "{error}") {
        Ok(text) => {
            let message = text.as_bytes();
            let n = words_end(message);
            let _why = write_parts(rt, &[&message[..n], b"\n"]).is_ok();
        }
        Err(_) => {
            let _why = rt.stderr().write_all(b"out of memory\n").is_ok();
        }
    }
}

// Whether the program could write to standard output; where it could not, that is told.
pub fn written(rt: HostRuntime, program: &[u8], r: io::Result<()>) -> bool
    ensures { result ≡ is_ok r }
{
    match r {
        Ok(()) => true,
        Err(e) => {
            tell(rt, program, b"standard output", e);
            false
        }
    }
}
