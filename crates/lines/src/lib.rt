// A block of lines answered, and what is held of a line that has not ended.
#![tactic(auto)]

ghost use Rattle.std.specs.Prelude.{◌≡◌, suc, ◌≤◌, length, take, drop};
ghost use Rattle.arrayvec.specs.ArrayVec.{array_vec_len};
ghost use Rattle.command.specs.Command.{longest_line};
ghost use Rattle.current.specs.Current.{longest_answer};
ghost use Rattle.session.specs.Session.{standing};
ghost use Rattle.lines.specs.Lines.{last_said, Answered, Answers, held_of};

use arrayvec::ArrayVec;
use command::MOST_NUMBERS;
use current::{LONGEST_ANSWER, Session};
use numbers::COUNT;
use text::words;

const NEWLINE: u8 = b'\n';

// The most that is held of a line that has not ended: one byte more than any that is no `bad`.
const HELD: usize = command::LONGEST_LINE + 1;

// Where the answering of a block stands: the current state, the place in the block after the last
// line answered, and whether it stopped for want of room: a flag, since the other fields hold in
// either case.
#[derive(Clone, Copy)]
pub struct Progress {
    pub session: Session,
    pub next: usize,
    pub full: bool,
}

// Answers the whole lines of a block from `from` on, until none is left or the next answer may have
// no room.
pub fn answer_lines<const N: usize>(
    s: Session,
    block: &[u8],
    from: usize,
    numbers: &mut [u32; MOST_NUMBERS],
    kept: &mut [u32; COUNT],
    out: &mut ArrayVec<u8, N>,
) -> Progress
    requires from_in_bounds { from ≤ length block.now }
    ensures answered { Answered (standing s kept.old) block.now from (standing result.session kept.new) result.next result.full N }
    ensures answers { Answers (standing s kept.old) block.now from (standing result.session kept.new) result.next out.new.items }
{
    let mut t = s;
    let mut next = from;
    out.clear();
    while out.remaining_capacity() >= LONGEST_ANSWER {
        let stop = words::find(block, next, NEWLINE);
        if stop == block.len() {
            return Progress {
                session: t,
                next,
                full: false,
            };
        }
        t = session::answer_line(t, &block[next..stop], numbers, kept, out);
        next = stop + 1;
    }
    Progress {
        session: t,
        next,
        full: true,
    }
}

// Moves what is held of the bytes of a block from `from` up to `to` to its start, and answers how
// much that is.
pub fn hold(block: &mut [u8], from: usize, to: usize) -> usize
    requires from_le_to { from ≤ to }
    requires to_in_bounds { to ≤ length block.old }
    ensures block_after { take result block.new ≡ held_of (drop from (take to block.old)) }
    ensures upper_bound { result ≤ suc longest_line }
    ensures upper_bound_2 { result ≤ length block.new }
{
    let n = (to - from).min(HELD);
    block.copy_within(from..from + n, 0);
    n
}

// Answers what is left at the end of the input: a line that lacks its newline, or nothing.
pub fn answer_last<const N: usize>(
    s: Session,
    line: &[u8],
    numbers: &mut [u32; MOST_NUMBERS],
    kept: &mut [u32; COUNT],
    out: &mut ArrayVec<u8, N>,
)
    requires longest_answer_in_bounds { longest_answer ≤ N }
    ensures { out.new.items ≡ last_said (standing s kept.old) line.now }
{
    out.clear();
    if line.len() > 0 {
        session::answer_line(s, line, numbers, kept, out);
    }
}
