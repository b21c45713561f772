// The transmitter's part of a pulse.
ghost use Rattle.std.specs.Prelude.{◌≡◌, cond, not, ◌&&◌, ◌<◌, eqb, get_or};
ghost use Rattle.frame.specs.Format.{format_of};
ghost use Rattle.device.specs.State.{no_frame, with_empty};
ghost use Rattle.device.specs.Autoflow.{held};
ghost use Rattle.device.specs.Transmitter.{frame_of, shifted_out, loaded, transmitted};

use device::{FifoControl, Frame, Inputs, Latches, Registers, State};
use queue::ByteQueue;
use settings::autoflow;
use sheet::limits;

// No frame is sent.
pub fn no_frame() -> Frame
    ensures { result ≡ no_frame }
{
    Frame {
        left: 0,
        byte: 0,
        format: 0,
    }
}

// The frame one pulse later: L falls by 1, and at 0 nothing is left of it.
#[tactic(auto, unfolding(device::specs::Transmitter::shifted_out))]
pub fn shift_out(x: Frame) -> Frame
    ensures { result ≡ shifted_out x }
{
    if x.left <= 1 {
        return no_frame();
    }
    Frame {
        left: x.left - 1,
        ..x
    }
}

// Whether a byte would be loaded, with `count` of them queued: there is one, and the transmitter is
// not held.
pub fn ready(count: u32, r: Registers, f: FifoControl, i: Inputs) -> bool
    ensures { result ≡ (not (eqb count 0) && not (held r f i)) }
{
    count != 0 && !autoflow::held(r, f, i)
}

// The frame of the oldest byte queued, in the format of LCR, at its start.
pub fn next_frame(q: ByteQueue, lcr: u8) -> Frame
    ensures { result ≡ frame_of (get_or q.bytes 0 0) (format_of lcr) }
{
    let format = lcr % limits::SIX_BITS;
    Frame {
        left: frame::frame_length(format),
        byte: q.bytes[0],
        format,
    }
}

// The latches after one of `count` bytes is loaded: emptying the queue sets the transmit-empty latch.
pub fn emptied(count: u32, l: Latches) -> Latches
    ensures { result ≡ cond (eqb count 1) (with_empty l 1) l }
{
    if count == 1 {
        return device::with_empty(l, 1);
    }
    l
}

// The oldest byte goes into the shift register, in the format of LCR. Emptying the queue sets the
// transmit-empty latch.
#[tactic(auto, unfolding(device::specs::Transmitter::loaded))]
fn load(s: State) -> State
    requires { 0 < s.tx.count }
    ensures { result ≡ loaded s }
{
    State {
        frame: next_frame(s.tx, s.registers.lcr),
        latches: emptied(s.tx.count, s.latches),
        tx: queue::bytes::take(s.tx),
        ..s
    }
}

// The transmitter's part of a pulse: L falls by 1, and at 0 the next byte is loaded, where one is
// queued and the transmitter is not held.
#[tactic(auto, unfolding(device::specs::Transmitter::ready, device::specs::Transmitter::transmitted))]
pub fn transmit(s: State) -> State
    ensures { result ≡ transmitted s }
{
    let x = shift_out(s.frame);
    if x.left == 0 && ready(s.tx.count, s.registers, s.fifo, s.inputs) {
        return load(s);
    }
    State { frame: x, ..s }
}
