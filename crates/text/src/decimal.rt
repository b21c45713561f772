// Decimal numbers: of 32 bits read from a word; of 64 bits, and signed ones of 32, written into a buffer.
ghost use Rattle.std.specs.Prelude.{◌≡◌, ◌+◌, ◌≤◌, ◌<◌, ◌++◌, length};
ghost use Rattle.arrayvec.specs.ArrayVec.{array_vec_len};
ghost use Rattle.text.specs.Decimal.{number_after, number_of, long_decimal_of, signed_of, word_of, signed_word_of, line_of};

use crate::buffer;
use arrayvec::ArrayVec;

// The largest number.
const MOST: u64 = u32::MAX as u64;

const ZERO: u8 = b'0';

const MINUS: u8 = b'-';

// The number of a word's digits.
fn number_from(w: &[u8]) -> Option<u32>
    ensures { result ≡ number_after 0 w.now }
{
    let mut value: u64 = 0;
    for &c in w {
        if !c.is_ascii_digit() {
            return None;
        }
        value = value * 10 + u64::from(c - ZERO);
        if value > MOST {
            return None;
        }
    }
    Some(value as u32)
}

// The number that a word spells: digits with no sign and no leading zero.
pub fn number_of(w: &[u8]) -> Option<u32>
    ensures { result ≡ number_of w.now }
{
    if w.is_empty() {
        return None;
    }
    if w.len() == 1 {
        return number_from(w);
    }
    if w[0] == ZERO {
        return None;
    }
    number_from(w)
}

// Appends the digits of n, as the library writes them.
fn put_digits<const N: usize>(n: u64, out: &mut ArrayVec<u8, N>)
    requires { array_vec_len out.old + length (long_decimal_of n) ≤ N }
    ensures { out.new.items ≡ out.old.items ++ long_decimal_of n }
{
    buffer::put(itoa::Buffer::new().format(n).as_bytes(), out);
}

// Appends the digits of n.
pub fn put_number<const N: usize>(n: u64, out: &mut ArrayVec<u8, N>)
    requires { array_vec_len out.old + length (long_decimal_of n) ≤ N }
    ensures { out.new.items ≡ out.old.items ++ long_decimal_of n }
{
    if n < 10 {
        out.push(ZERO + n as u8);
    } else {
        put_digits(n, out);
    }
}

// Appends a signed number.
fn put_signed<const N: usize>(n: i32, out: &mut ArrayVec<u8, N>)
    requires { array_vec_len out.old + length (signed_of n) ≤ N }
    ensures { out.new.items ≡ out.old.items ++ signed_of n }
{
    if n < 0 {
        out.push(MINUS);
    }
    put_number(u64::from(n.unsigned_abs()), out);
}

// Appends the digits of n and the byte that follows them. Most numbers of an answer have one digit, and
// a byte's have three at most: these are appended with what follows at once.
#[inline]
pub fn put_word<const N: usize>(n: u64, after: u8, out: &mut ArrayVec<u8, N>)
    requires { array_vec_len out.old + length (long_decimal_of n) < N }
    ensures { out.new.items ≡ out.old.items ++ word_of n after }
{
    if n < 10 {
        buffer::put(&[ZERO + n as u8, after], out);
    } else if n < 100 {
        buffer::put(&[ZERO + (n / 10) as u8, ZERO + (n % 10) as u8, after], out);
    } else if n < 1000 {
        let tens = ZERO + (n / 10 % 10) as u8;
        buffer::put(
            &[ZERO + (n / 100) as u8, tens, ZERO + (n % 10) as u8, after],
            out,
        );
    } else {
        put_digits(n, out);
        out.push(after);
    }
}

// Appends a signed number and the byte that follows it.
pub fn put_signed_word<const N: usize>(n: i32, after: u8, out: &mut ArrayVec<u8, N>)
    requires { array_vec_len out.old + length (signed_of n) < N }
    ensures { out.new.items ≡ out.old.items ++ signed_word_of n after }
{
    put_signed(n, out);
    out.push(after);
}

// Appends a line of numbers, with its newline.
pub fn put_line<const N: usize>(numbers: &[u32], out: &mut ArrayVec<u8, N>)
    requires { array_vec_len out.old + length (line_of numbers.now) ≤ N }
    ensures { out.new.items ≡ out.old.items ++ line_of numbers.now }
{
    for (i, &n) in numbers.iter().enumerate() {
        let after = if i + 1 < numbers.len() { b' ' } else { b'\n' };
        put_word(u64::from(n), after, out);
    }
}
