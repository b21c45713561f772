// Reads a capture from a reader, 8,192 records at a time, and writes the one that is
// expected, from the fresh state, to standard output.
#![tactic(auto)]

ghost use Rattle.std.specs.Prelude.{◌≡◌, List, ◌++◌, ℕ, ◌*◌, ◌≤◌, length, take, IfOk};
ghost use Rattle.text.specs.Decimal.{word_of};
ghost use Rattle.expected_file.specs.File.{after, rest_of};
ghost use Rattle.expect_blocks.specs.Written.{HeaderOf, NextOf, LastOf, NumberOfRest, NumberOf};

use arguments::tell;
use arrayvec::ArrayVec;
use expected_file::Progress;
use input::progress::Watch;
use sheet::answer;
use std::io;
use std::io::{Read, Write};
use text::decimal;

// The program that says all this.
const PROGRAM: &[u8] = b"expect";

// More blocks than any run reads. A proved loop has to end, so it ends after these.
const BLOCKS: usize = 1125899906842624;

// A read or a write that failed, and why it did.
#[derive(Drop)]
enum Failure {
    Read(io::Error),
    Write(io::Error),
}

// Writes a header.
fn write_header(rt: HostRuntime, p: Progress, header: &[u8]) -> io::Result<()>
    requires { HeaderOf p header.now }
{
    rt.stdout().write_all(header)
}

// Writes what was made of a block.
fn write_next(rt: HostRuntime, p: Progress, q: Progress, made: &[u8]) -> io::Result<()>
    requires { NextOf p q made.now }
{
    rt.stdout().write_all(made)
}

// Writes what was made of the last bytes.
fn write_last(rt: HostRuntime, p: Progress, r: Progress, made: &[u8]) -> io::Result<()>
    requires { LastOf p r made.now }
{
    rt.stdout().write_all(made)
}

// Writes what is expected for a block of whole records.
fn expect_block(rt: HostRuntime, p: Progress, block: &mut [u8; 32768]) -> io::Result<Progress>
    ensures by_index { IfOk result (λ q. (rest : List ℕ) → after (take (4 * q.count) block.new) (rest_of q rest) ≡ rest_of p (block.old ++ rest)) }
    ensures count_bound { IfOk result (λ q. q.count ≤ 8192) }
{
    let q = expected_file::go_on(p, block);
    let n = 4 * q.count;
    write_next(rt, p, q, &block[..n])?;
    Ok(q)
}

// Writes what is expected for a capture that ends with the first n bytes of a block, and answers its
// number.
fn expect_last(rt: HostRuntime, p: Progress, block: &mut [u8], n: usize) -> io::Result<u8>
    requires { n ≤ length block.old }
    ensures { IfOk result (λ number. number ≡ (rest_of p (take n block.old)).number) }
{
    let r = expected_file::end(p, &mut block[..n]);
    let m = 4 * r.count;
    write_last(rt, p, r, &block[..m])?;
    Ok(r.number)
}

// Writes what is expected for the records that follow the header, block by block, and answers the
// number of a refusal.
fn expect_records<R: Read>(
    rt: HostRuntime,
    input: &mut R,
    begun: Progress,
    block: &mut [u8; 32768],
    watch: &mut Watch,
) -> Result<u8, Failure>
    ensures { IfOk result (λ number. NumberOfRest begun number) }
{
    let mut p = begun;
    let mut done: usize = 0;
    for _ in 0..BLOCKS {
        if p.number != answer::DONE {
            return Ok(p.number);
        }
        let n = input::fill(rt, input, block, done, PROGRAM, watch).map_err(Failure::Read)?;
        if n < block.len() {
            return expect_last(rt, p, block, n).map_err(Failure::Write);
        }
        p = expect_block(rt, p, block).map_err(Failure::Write)?;
        done += p.count;
    }
    expect_last(rt, p, block, 0).map_err(Failure::Write)
}

// Writes what is expected for the capture that a reader gives, and answers the number of a refusal.
fn expect_capture<R: Read>(rt: HostRuntime, input: &mut R, watch: &mut Watch) -> Result<u8, Failure>
    ensures { IfOk result (λ number. NumberOf number) }
{
    let mut header = [0u8; 8];
    let mut block = [0u8; 32768];
    let n = input::fill(rt, input, &mut header, 0, PROGRAM, &mut Watch::silent()).map_err(
        Failure::Read,
    )?;
    let p = expected_file::begin(&header[..n]);
    if p.number != answer::DONE {
        return Ok(p.number);
    }
    write_header(rt, p, &header[..n]).map_err(Failure::Write)?;
    expect_records(rt, input, p, &mut block, watch)
}

// Writes this line, which is that of the capture's number.
fn write_number(rt: HostRuntime, number: u8, line: &[u8])
    requires number_of { NumberOf number }
    requires line_value { line.now ≡ word_of number 10 }
{
    let _told = rt.stderr().write_all(line).is_ok();
}

// Tells the number of a refusal, in a line of its own.
fn tell_number(rt: HostRuntime, number: u8)
    requires { NumberOf number }
{
    let mut line = ArrayVec::<u8, 4>::new();
    decimal::put_word(u64::from(number), b'\n', &mut line);
    write_number(rt, number, &line);
}

// Writes what is expected for the capture that a reader gives, and tells the number of a
// refusal on standard error. Where reading or writing fails, standard error says why.
pub fn expect<R: Read>(rt: HostRuntime, input: &mut R, name: &[u8]) {
    let mut watch = Watch::start(rt);
    let expected = expect_capture(rt, input, &mut watch);
    watch.stop(rt);
    match expected {
        Ok(number) => {
            if number != answer::DONE {
                tell_number(rt, number);
            }
        }
        Err(Failure::Read(e)) => tell(rt, PROGRAM, name, e),
        Err(Failure::Write(e)) => tell(rt, PROGRAM, b"standard output", e),
    }
}
