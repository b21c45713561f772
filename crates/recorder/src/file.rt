// The file: words of its bytes and bytes of its words, and its header.
ghost use Rattle.std.specs.Prelude.{◌≡◌, [], ◌∷◌, ◌≤◌, ◌*◌, ◌/◌, length, take, drop};
ghost use Rattle.recorder.specs.File.{words_of, bytes_of, good_header, version as «version_of», known as «known-version», bad_header, headed as headed_of, header_of};

use sheet::answer;

// U, T, R and a zero byte.
const MARK: u32 = 5395541;

// Why a header is refused: the mark is bad or the pad is not zero, the version is not known, or the
// file ends within it.
#[derive(Clone, Copy, PartialEq, Eq)]
pub enum HeaderError {
    NoMark,
    UnknownVersion,
    CutOff,
}

impl HeaderError {
    // The number of the refusal.
    pub fn number(self) -> u8
        ensures { result ≡ bad_header self }
    {
        match self {
            HeaderError::NoMark => answer::BAD_HEADER,
            HeaderError::UnknownVersion => answer::UNKNOWN_VERSION,
            HeaderError::CutOff => answer::BAD_RECORD,
        }
    }
}

// Puts the whole words of bytes at the start of words, and answers how many they are.
pub fn decode(bytes: &[u8], words: &mut [u32]) -> usize
    requires { length bytes.now ≤ 4 * length words.old }
    ensures words_after { take result words.new ≡ words_of bytes.now }
    ensures value { result ≡ length bytes.now / 4 }
    ensures upper_bound { result ≤ length words.new }
    ensures value_2 { result ≡ length (take result words.new) }
{
    let (quads, _) = bytes.as_chunks::<4>();
    for (i, &quad) in quads.iter().enumerate() {
        words[i] = u32::from_le_bytes(quad);
    }
    quads.len()
}

// Puts the bytes of words, little-endian, at the start of bytes.
pub fn encode(words: &[u32], bytes: &mut [u8])
    requires { 4 * length words.now ≤ length bytes.old }
    ensures bytes_after { take (4 * length words.now) bytes.new ≡ bytes_of words.now }
    ensures bytes_unchanged { drop (4 * length words.now) bytes.new ≡ drop (4 * length words.now) bytes.old }
{
    for (i, w) in words.iter().enumerate() {
        bytes[4 * i..4 * i + 4].copy_from_slice(&w.to_le_bytes());
    }
}

// Whether a header's two words have the mark and a zero pad.
fn good_header(first: u32, second: u32) -> bool
    ensures { result ≡ good_header first second }
{
    first == MARK && second / 65536 == 0
}

// The version in a header's second word.
fn version(second: u32) -> u32
    ensures { result ≡ «version_of» second }
{
    second % 65536
}

// Whether a version is known.
pub fn known(version: u32) -> bool
    ensures { result ≡ «known-version» version }
{
    version == 1
}

// The version in the header of these two words.
fn headed(first: u32, second: u32) -> Result<u32, HeaderError>
    ensures { result ≡ headed_of (first ∷ second ∷ []) }
{
    if !good_header(first, second) {
        return Err(HeaderError::NoMark);
    }
    let v = version(second);
    if !known(v) {
        return Err(HeaderError::UnknownVersion);
    }
    Ok(v)
}

// The version in the header of a file that begins with these bytes.
pub fn header_of(first: &[u8]) -> Result<u32, HeaderError>
    ensures { result ≡ header_of first.now }
{
    if first.len() < 8 {
        return Err(HeaderError::CutOff);
    }
    let mut words = [0u32; 2];
    decode(&first[..8], &mut words);
    headed(words[0], words[1])
}
