// The line that says how a replay ended: agreed, differs, or refused.
#![tactic(auto)]

ghost use Rattle.std.specs.Prelude.{◌++◌, ◌≡◌, ◌+◌, ◌≤◌, length};
ghost use Rattle.arrayvec.specs.ArrayVec.{array_vec_len};
ghost use Rattle.outcome.specs.Outcome.{differs_line, refused_line, outcome_line};

use arrayvec::ArrayVec;
use capture::Outcome;
use text::{buffer, decimal};

// Appends the line of a byte that differs.
fn put_differs<const N: usize>(place: usize, seen: u8, model: u8, out: &mut ArrayVec<u8, N>)
    requires { array_vec_len out.old + 40 ≤ N }
    ensures { out.new.items ≡ out.old.items ++ differs_line place seen model }
{
    buffer::put(b"differs ", out);
    decimal::put_word(place as u64, b' ', out);
    decimal::put_word(seen as u64, b' ', out);
    decimal::put_word(model as u64, b'\n', out);
}

// Appends the line of a refusal.
fn put_refused<const N: usize>(number: u8, place: usize, out: &mut ArrayVec<u8, N>)
    requires { array_vec_len out.old + 40 ≤ N }
    ensures { out.new.items ≡ out.old.items ++ refused_line number place }
{
    buffer::put(b"refused ", out);
    decimal::put_word(number as u64, b' ', out);
    decimal::put_word(place as u64, b'\n', out);
}

// Appends the line of an outcome.
#[tactic(auto, unfolding(crate::specs::Outcome::outcome_line))]
pub fn put_outcome<const N: usize>(o: Outcome, out: &mut ArrayVec<u8, N>)
    requires { array_vec_len out.old + 40 ≤ N }
    ensures { out.new.items ≡ out.old.items ++ outcome_line o }
{
    match o {
        Outcome::Agreed => buffer::put(b"agreed\n", out),
        Outcome::Differs { place, seen, model } => put_differs(place, seen, model, out),
        Outcome::Refused { number, place, .. } => put_refused(number, place, out),
    }
}
