// Texts and numbers put into a buffer.
ghost use Rattle.std.specs.Prelude.{◌≡◌, ◌+◌, ◌≤◌, ◌++◌, length};
ghost use Rattle.arrayvec.specs.ArrayVec.{array_vec_len};
ghost use Rattle.text.specs.Text.{Appended};

use arrayvec::ArrayVec;

// Puts a text, or numbers, into out from `at` on, and answers the place after it.
pub fn put_at<T: Copy>(text: &[T], out: &mut [T], at: usize) -> usize
    requires { at + length text.now ≤ length out.old }
    ensures { Appended out.old at text.now out.new result }
{
    let end = at + text.len();
    out[at..end].copy_from_slice(text);
    end
}

// Appends a text.
pub fn put<const N: usize>(text: &[u8], out: &mut ArrayVec<u8, N>)
    requires { array_vec_len out.old + length text.now ≤ N }
    ensures { out.new.items ≡ out.old.items ++ text.now }
{
    let _fits = out.try_extend_from_slice(text);
}
