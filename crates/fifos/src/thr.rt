// THR, transmitter holding register.
ghost use Rattle.std.specs.Prelude.{◌≡◌};
ghost use Rattle.device.specs.Thr.{thr_write};

use device::{Latches, State};
use queue::ByteQueue;

// What a write changes: the transmit queue, and the latches.
#[derive(Clone, Copy)]
pub struct Queued {
    pub tx: ByteQueue,
    pub latches: Latches,
}

// The byte is put into the transmit queue; the transmit-empty latch goes to 0.
#[tactic(auto, unfolding(device::specs::Thr::thr_write))]
pub fn put(s: State, b: u8) -> Queued
    ensures { result ≡ record { tx = (thr_write s b).tx; latches = (thr_write s b).latches } }
{
    Queued {
        tx: queue::bytes::put(s.tx, settings::fifo::capacity(s.fifo), b),
        latches: device::with_empty(s.latches, 0),
    }
}

// The state after a write.
#[tactic(auto, unfolding(device::specs::Thr::thr_write))]
pub fn write(s: State, b: u8) -> State
    ensures { result ≡ thr_write s b }
{
    let queued = put(s, b);
    State {
        tx: queued.tx,
        latches: queued.latches,
        ..s
    }
}
