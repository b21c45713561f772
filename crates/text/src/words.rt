// The words of a line, with one space between two.
ghost use Rattle.std.specs.Prelude.{◌≡◌, ◌+◌, ◌≤◌, length, drop};
ghost use Rattle.text.specs.Text.{before};
ghost use Rattle.text.specs.Text.{same as «same_text»};

const SPACE: u8 = b' ';

// The place of the first byte b in line, at or after `from`; the end of the line where none is.
pub fn find(line: &[u8], from: usize, b: u8) -> usize
    requires { from ≤ length line.now }
    ensures value { result ≡ from + before b (drop from line.now) }
    ensures upper_bound { result ≤ length line.now }
{
    let rest = &line[from..];
    from + rest.iter().position(|&c| c == b).unwrap_or(rest.len())
}

// The end of the word that begins at `from`.
pub fn word_end(line: &[u8], from: usize) -> usize
    requires { from ≤ length line.now }
    ensures value { result ≡ from + before 32 (drop from line.now) }
    ensures upper_bound { result ≤ length line.now }
{
    find(line, from, SPACE)
}

// Whether a word is this one.
pub fn same(word: &[u8], name: &[u8]) -> bool
    ensures { result ≡ «same_text» word.now name.now }
{
    word == name
}
