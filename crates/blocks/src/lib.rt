// A block of input: its lines answered, and the answers written to standard output.
#![tactic(auto)]

ghost use Rattle.std.specs.Prelude.{◌≡◌, List, [], ◌++◌, ℕ, suc, ◌≤◌, length, take, drop, IfOk};
ghost use Rattle.command.specs.Command.{longest_line};
ghost use Rattle.current.specs.Current.{longest_answer};
ghost use Rattle.session.specs.Session.{Standing, standing};
ghost use Rattle.lines.specs.Lines.{reading, read_after, Led};
ghost use Rattle.blocks.specs.Written.{AnswersOf, LastOf};

use arrayvec::ArrayVec;
use current::Session;
use lines::Progress;
use std::io;
use std::io::Write;

// What was answered of a block: the current state, and the place after the last line answered.
#[derive(Clone, Copy)]
pub struct Part {
    pub session: Session,
    pub next: usize,
}

// Between two reads: the current state, and the bytes held at the start of the block.
#[derive(Clone, Copy)]
pub struct Held {
    pub session: Session,
    pub used: usize,
}

// Writes the answers to the next lines of a block.
fn write_answers(
    rt: HostRuntime,
    p: Part,
    block: &[u8],
    said: Progress,
    kept: &[u32],
    answers: &[u8],
) -> io::Result<()>
    requires { AnswersOf p.session block.now p.next (standing said.session kept.now) said.next answers.now }
{
    rt.stdout().write_all(answers)
}

// Writes the answer to the last line.
fn write_last(rt: HostRuntime, s: Session, line: &[u8], answer: &[u8]) -> io::Result<()>
    requires { LastOf s line.now answer.now }
{
    rt.stdout().write_all(answer)
}

// Answers all lines of a block, unless an answer cannot be written, and answers where they end. A
// block has no more lines than bytes, and each turn answers one at least.
pub fn answer_block<const N: usize>(
    rt: HostRuntime,
    block: &[u8],
    s: Session,
    numbers: &mut [u32; command::MOST_NUMBERS],
    kept: &mut [u32; numbers::COUNT],
    out: &mut ArrayVec<u8, N>,
) -> io::Result<Part>
    requires { longest_answer ≤ N }
    ensures block_value { IfOk result (λ p. read_after (standing s kept.old) [] block.now ≡ reading (standing p.session kept.new) (drop p.next block.now)) }
    ensures next_in_bounds { IfOk result (λ p. p.next ≤ length block.now) }
{
    let mut p = Part {
        session: s,
        next: 0,
    };
    for _ in 0..block.len() {
        let said = lines::answer_lines(p.session, block, p.next, numbers, kept, out);
        write_answers(rt, p, block, said, kept, out)?;
        p = Part {
            session: said.session,
            next: said.next,
        };
        if !said.full {
            return Ok(p);
        }
    }
    Ok(p)
}

// Answers the lines of a block's bytes up to `end`, which are what was held and what came after it,
// and holds the rest.
pub fn answer_read<const N: usize>(
    rt: HostRuntime,
    s: Session,
    block: &mut [u8],
    end: usize,
    numbers: &mut [u32; command::MOST_NUMBERS],
    kept: &mut [u32; numbers::COUNT],
    out: &mut ArrayVec<u8, N>,
) -> io::Result<Held>
    requires end_in_bounds { end ≤ length block.old }
    requires longest_answer_in_bounds { longest_answer ≤ N }
    ensures led { (w₀ : Standing) (input line came : List ℕ) → take end block.old ≡ line ++ came → Led w₀ input (standing s kept.old) line → IfOk result (λ h. Led w₀ (input ++ came) (standing h.session kept.new) (take h.used block.new)) }
    ensures used_bound { IfOk result (λ h. h.used ≤ suc longest_line) }
{
    let p = answer_block(rt, &block[..end], s, numbers, kept, out)?;
    let used = lines::hold(block, p.next, end);
    Ok(Held {
        session: p.session,
        used,
    })
}

// Answers the last line, if it lacks its newline.
pub fn finish<const N: usize>(
    rt: HostRuntime,
    s: Session,
    line: &[u8],
    numbers: &mut [u32; command::MOST_NUMBERS],
    kept: &mut [u32; numbers::COUNT],
    out: &mut ArrayVec<u8, N>,
) -> io::Result<()>
    requires { longest_answer ≤ N }
{
    lines::answer_last(s, line, numbers, kept, out);
    write_last(rt, s, line, out)
}
