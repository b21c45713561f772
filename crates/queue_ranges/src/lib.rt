// The ranges of the queues, of the frame now sent and of the receiver: parts 3 and 4 of `Ranges.antt`.
#![tactic(auto)]

ghost use Rattle.std.specs.Prelude.{◌≡◌, cond, ◌&&◌, ◌^◌, ◌≤◌, ltb, eqb};
ghost use Rattle.queue.specs.Queue.{errors_within, entries_within};
ghost use Rattle.flag.specs.Flag.{every, implies as «implies-of»};
ghost use Rattle.device.specs.Ranges.{transmit_ranges, receive_ranges, character_ranges, outside_ranges};

use device::{FifoControl, Frame, Receiver};
use queue::{ByteQueue, EntryQueue, Errors};
use settings::{fifo, sampling};
use sheet::limits;

// A frame has a byte and a format only while some of it is left.
fn frame_in_range(x: Frame) -> bool
    ensures { result ≡ «implies-of» (eqb x.left 0) (eqb x.byte 0 && eqb x.format 0) }
{
    x.left != 0 || x.byte == 0 && x.format == 0
}

// Part 3: transmit queue and frame.
pub fn transmit_in_range(f: FifoControl, q: ByteQueue, x: Frame) -> bool
    ensures { result ≡ every (transmit_ranges f q x) }
{
    let left = x.left;
    q.count <= fifo::capacity(f)
        && queue::bytes::rest_is_zero(q)
        && left <= limits::LEFT_MOST
        && x.format <= limits::FORMAT_MOST
        && left <= frame::frame_length(x.format)
        && frame_in_range(x)
}

// Only the n lowest bits of x may be set.
fn within(x: u8, n: u32) -> bool
    requires { n ≤ 8 }
    ensures { result ≡ ltb x (2 ^ n) }
{
    u32::from(x) < 1 << n
}

// In a character: P below its stop position, samples not yet taken zero.
fn character_in_range(v: Receiver) -> bool
    ensures { result ≡ every (character_ranges v) }
{
    let format = v.format;
    let position = v.position;
    let taken = sampling::samples_taken(position);
    let bits = frame::data_bits(format);
    let parity = frame::parity_bits(format).min(taken.saturating_sub(bits));
    format <= limits::FORMAT_MOST
        && position < sampling::stop_position(format)
        && within(v.samples, bits.min(taken))
        && u32::from(v.parity) <= parity
}

// Outside a character: nothing of one is kept.
fn outside_in_range(v: Receiver) -> bool
    ensures { result ≡ every (outside_ranges v) }
{
    v.format == 0 && v.position == 0 && v.samples == 0 && v.parity == 0
}

// The receiver is idle, waits for mark, or is in a character.
fn receiver_in_range(v: Receiver) -> bool
    ensures { result ≡ cond (eqb v.phase 2) (every (character_ranges v)) (every (outside_ranges v)) }
{
    if v.phase == device::CHARACTER {
        return character_in_range(v);
    }
    outside_in_range(v)
}

// The errors of an entry are 0 or 1 with FIFO on, else 0. Each limit is a constant where it is tested,
// so that the compiler looks at many places at once.
fn entries_in_range(q: EntryQueue, on: bool) -> bool
    ensures { result ≡ entries_within (cond on 1 0) q }
{
    if on {
        return queue::entries::entries_within(q, 1);
    }
    queue::entries::entries_within(q, 0)
}

// The kept errors are 0 with FIFO on, else 0 or 1.
fn kept_in_range(k: Errors, on: bool) -> bool
    ensures { result ≡ errors_within (cond on 0 1) k }
{
    if on {
        return queue::entries::errors_within(k, 0);
    }
    queue::entries::errors_within(k, 1)
}

// Part 4: receive queue, receiver and kept errors.
pub fn receive_in_range(f: FifoControl, q: EntryQueue, v: Receiver, k: Errors) -> bool
    ensures { result ≡ every (receive_ranges f q v k) }
{
    let on = f.enabled == 1;
    q.count <= fifo::capacity(f)
        && queue::entries::rest_is_zero(q)
        && entries_in_range(q, on)
        && kept_in_range(k, on)
        && v.phase <= device::CHARACTER
        && receiver_in_range(v)
}
