// Frames: what a format (bits 0..5 of LCR) makes of a byte on the line.
//
// Numbers and lists only. The contracts cite `specs/Format.antt`, `specs/Frame.antt` and `specs/Low.antt`.
#![tactic(auto)]

ghost use Rattle.std.specs.Prelude.{◌≡◌, ◌≤◌, ◌<◌, ◌+◌, ◌-◌, ◌*◌, ◌/◌, ◌%◌, get_or};
ghost use Rattle.frame.specs.Format.{data_bits, parity_bits, stop_pulses, frame_length, character_of, parity_bit};
ghost use Rattle.frame.specs.Frame.{frame_bits, frame_levels, line_level};
ghost use Rattle.frame.specs.Low.{low_bits};

use sheet::bits;

// Data bits, 5 to 8.
pub fn data_bits(format: u8) -> u32
    ensures { (result ≡ data_bits format) × (result ≤ 8) }
{
    5 + u32::from(format % 4)
}

// Parity bits, 0 or 1.
pub fn parity_bits(format: u8) -> u32
    ensures { (result ≡ parity_bits format) × (result ≤ 1) }
{
    u32::from(format / bits::LCR_PARITY % 2)
}

// Pulses of the stop.
fn stop_pulses(format: u8) -> u32
    ensures { (result ≡ stop_pulses format) × (result ≤ 32) }
{
    if !flag::has(format, bits::LCR_STOP) {
        return 16;
    }
    if data_bits(format) == 5 {
        return 24;
    }
    32
}

// F, the pulses of a frame.
pub fn frame_length(format: u8) -> u32
    ensures value { result ≡ frame_length format }
    ensures lower_bound { (112 ≤ result) × (result ≤ 192) }
{
    16 * (1 + data_bits(format) + parity_bits(format)) + stop_pulses(format)
}

// The byte's bits within the word length.
fn character(byte: u8, format: u8) -> u8
    ensures { result ≡ character_of byte format }
{
    match format % 4 {
        0 => byte % 32,
        1 => byte % 64,
        2 => byte % 128,
        _ => byte,
    }
}

// The parity bit that a frame of this byte has in this format.
pub fn parity_bit(byte: u8, format: u8) -> u8
    ensures { (result ≡ parity_bit byte format) × (result < 2) }
{
    let even = flag::has(format, bits::LCR_EPAR);
    if flag::has(format, bits::LCR_SPAR) {
        return u8::from(!even);
    }
    let odd = (u8::count_ones(character(byte, format)) % 2) as u8;
    if even {
        return odd;
    }
    1 - odd
}

// The level of the frame of this byte at a place, counted from 0 in pulses; high after the frame.
pub fn frame_level(byte: u8, format: u8, place: u32) -> u8
    ensures { (result ≡ get_or (frame_levels byte format) place 1) × (result < 2) }
{
    let at = place / 16;
    let last = data_bits(format);
    if at == 0 {
        return 0;
    }
    if at <= last {
        return (byte >> (at - 1)) % 2;
    }
    if at == last + 1 && flag::has(format, bits::LCR_PARITY) {
        return parity_bit(byte, format);
    }
    1
}

// The bits of the frame of this byte that are low, from the start bit on, as a number.
pub fn low_bits(byte: u8, format: u8) -> u32
    ensures { (result ≡ low_bits (frame_bits byte format)) × (result < 1024) }
{
    let n = data_bits(format);
    let low = (1u32 << n) - 1 - u32::from(character(byte, format));
    if flag::has(format, bits::LCR_PARITY) {
        return 1 + 2 * low + (u32::from(1 - parity_bit(byte, format)) << (n + 1));
    }
    1 + 2 * low
}

// The transmitter's line with `left` pulses left of the frame of this byte.
pub fn line_level(left: u32, byte: u8, format: u8) -> u8
    ensures { (result ≡ line_level left byte format) × (result < 2) }
{
    if left == 0 {
        return 1;
    }
    frame_level(byte, format, frame_length(format).saturating_sub(left))
}
