// The formulas of document 01 on numbers: p, T, q, and the level at a place by division and
// remainder.
ghost use Rattle.std.specs.Prelude.{◌≡◌, ◌≤◌, ◌<◌, ◌/◌, ◌%◌, get_or};
ghost use Rattle.frame.specs.Format.{frame_length};
ghost use Rattle.frame.specs.Frame.{frame_levels};
ghost use Rattle.frame.specs.Forecast.{pulses_left, ticks_left, place_after, spelled, level_at};
ghost use Rattle.queue.specs.Queue.{contents};

use device::Frame;
use queue::ByteQueue;

// p, the pulses to come, with L pulses left of the frame now sent and `count` bytes queued, whose
// frames have `length` pulses.
pub fn pulses_left(left: u32, count: u32, length: u32) -> u32
    requires { (left ≤ 192) × (count ≤ 64) × (length ≤ 192) }
    ensures { result ≡ pulses_left left count length }
{
    if 0 < left {
        return left + count * length;
    }
    if 0 < count {
        return 1 + count * length;
    }
    0
}

// T, the ticks to come, with k ticks to the next pulse and p pulses to come.
pub fn ticks_left(k: u32, divisor: u32, p: u32) -> u32
    requires { (k ≤ divisor) × (divisor ≤ 65535) × (p ≤ 12480) }
    ensures { result ≡ ticks_left k divisor p }
{
    if p == 0 {
        return 0;
    }
    k + (p - 1) * divisor
}

// q, the place in the string of p levels after t ticks.
pub fn place_after(k: u32, divisor: u32, p: u32, t: u32) -> u32
    requires { ((p ≡ 0 → ⊥) → 1 ≤ k) × ((p ≡ 0 → ⊥) → 1 ≤ divisor) }
    ensures { result ≡ place_after k divisor p t }
{
    if p == 0 {
        return 0;
    }
    if t < k {
        return 0;
    }
    1 + (t - k) / divisor
}

// The level at a place behind the current frame: that of the queued byte's frame it falls into.
fn queued_level(q: ByteQueue, format: u8, place: u32) -> u8
    requires { place / frame_length format < 64 }
    ensures { result ≡ get_or (frame_levels (get_or q.bytes (place / frame_length format) 0) format) (place % frame_length format) 1 }
{
    let length = frame::frame_length(format);
    let at = (place / length) as usize;
    let byte = q.bytes[at];
    frame::frame_level(byte, format, place % length)
}

// The level at place q of what the rest of the frame and the queued bytes spell, p levels long;
// high from place p on.
pub fn level_at(x: Frame, tx: ByteQueue, format: u8, p: u32, q: u32) -> u8
    requires { (x.left ≤ frame_length x.format) × (tx.count ≤ 64) × (p ≡ pulses_left x.left tx.count (frame_length format)) }
    ensures { result ≡ level_at p (spelled x.left x.byte x.format format (contents tx.count tx.bytes)) q }
{
    if p <= q {
        return 1;
    }
    let left = x.left;
    if q < left {
        let length = frame::frame_length(x.format);
        return frame::frame_level(x.byte, x.format, length - left + q);
    }
    if left == 0 {
        if q == 0 {
            return 1;
        }
        return queued_level(tx, format, q - 1);
    }
    queued_level(tx, format, q - left)
}
