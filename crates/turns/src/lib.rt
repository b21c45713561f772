// A turn of the program `calls`: standard input is read once, and what came is answered.
#![tactic(auto)]

ghost use Rattle.std.specs.Prelude.{◌≡◌, List, ℕ, suc, ◌+◌, ◌≤◌, length, take, IfOk, IfSome};
ghost use Rattle.command.specs.Command.{longest_line};
ghost use Rattle.current.specs.Current.{longest_answer};
ghost use Rattle.session.specs.Session.{Standing, standing};
ghost use Rattle.lines.specs.Lines.{Led, LedOn};

use arrayvec::ArrayVec;
use blocks::Held;
use std::io;
use std::io::{ErrorKind, Read};

// Reads once into a block, after its first `used` bytes.
fn read_after(rt: HostRuntime, block: &mut [u8], used: usize) -> io::Result<usize>
    requires { used ≤ length block.old }
    ensures block_unchanged { take used block.new ≡ take used block.old }
    ensures count_in_bounds { IfOk result (λ n. used + n ≤ length block.new) }
{
    rt.stdin().read(&mut block[used..])
}

// After a read that failed: one that a signal interrupted is made again, any other is told and ends
// the run.
fn unread(rt: HostRuntime, t: Held, error: io::Error) -> Option<Held>
    ensures { IfSome result (λ h. h ≡ t) }
{
    if error.kind() == ErrorKind::Interrupted {
        return Some(t);
    }
    arguments::tell(rt, b"calls", b"standard input", error);
    None
}

// Tells where what was to be written could not be.
pub fn tell(rt: HostRuntime, written: io::Result<()>) {
    arguments::written(rt, b"calls", written);
}

// Reads once, answers what came, and hands out what is held then; nothing where the run is over: the
// input has ended, or a read or a write has failed.
pub fn turn<const N: usize>(
    rt: HostRuntime,
    t: Held,
    block: &mut [u8; 65536],
    numbers: &mut [u32; command::MOST_NUMBERS],
    kept: &mut [u32; numbers::COUNT],
    out: &mut ArrayVec<u8, N>,
) -> Option<Held>
    requires used_bound { t.used ≤ suc longest_line }
    requires longest_answer_in_bounds { longest_answer ≤ N }
    ensures led_on { (w₀ : Standing) (input : List ℕ) → Led w₀ input (standing t.session kept.old) (take t.used block.old) → IfSome result (λ h. LedOn w₀ input (standing h.session kept.new) (take h.used block.new)) }
    ensures used_bound_2 { IfSome result (λ h. h.used ≤ suc longest_line) }
{
    let used = t.used;
    let s = t.session;
    match read_after(rt, block, used) {
        Err(e) => unread(rt, t, e),
        Ok(n) => {
            if n == 0 {
                tell(
                    rt,
                    blocks::finish(rt, s, &block[..used], numbers, kept, out),
                );
                return None;
            }
            match blocks::answer_read(rt, s, block, used + n, numbers, kept, out) {
                Ok(held) => Some(held),
                Err(e) => {
                    tell(rt, Err(e));
                    None
                }
            }
        }
    }
}
