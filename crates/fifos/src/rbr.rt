// RBR, receiver buffer register.
ghost use Rattle.std.specs.Prelude.{◌≡◌, false, ◌<◌};
ghost use Rattle.device.specs.Rbr.{oldest as «oldest-of», restart_idle, rbr_read};

use device::{Latches, State};
use queue::{Entry, EntryQueue};

// The oldest received entry, which stands at place 0.
pub fn oldest(q: EntryQueue) -> Entry
    ensures { result ≡ «oldest-of» q }
{
    q.entries[0]
}

// The latches with the time-out latch and the idle count 0.
pub fn restart_idle(l: Latches) -> Latches
    ensures { result ≡ restart_idle l }
{
    Latches {
        timeout: 0,
        idle: 0,
        ..l
    }
}

// The oldest byte; 0 where none is queued.
#[tactic(auto, unfolding(device::specs::Rbr::rbr_read))]
pub fn value(s: State) -> u8
    ensures { result ≡ (rbr_read s).byte }
{
    if s.rx.count == 0 {
        return 0;
    }
    oldest(s.rx).byte
}

// Whether a read changes the state.
#[tactic(auto, unfolding(device::specs::Rbr::rbr_read))]
pub fn read_changes(s: State) -> bool
    ensures { result ≡ false → (rbr_read s).state ≡ s }
{
    s.rx.count != 0
}

// What a read changes where something is received: the receive queue, and the latches.
#[derive(Clone, Copy)]
pub struct Taken {
    pub rx: EntryQueue,
    pub latches: Latches,
}

// The oldest byte is removed; time-out latch and idle count go to 0.
#[tactic(auto, unfolding(device::specs::Rbr::rbr_read))]
pub fn take(s: State) -> Taken
    requires { 0 < s.rx.count }
    ensures { result ≡ record { rx = (rbr_read s).state.rx; latches = (rbr_read s).state.latches } }
{
    Taken {
        rx: queue::entries::take(s.rx),
        latches: restart_idle(s.latches),
    }
}

// The state after a read.
#[tactic(auto, unfolding(device::specs::Rbr::rbr_read))]
pub fn after_read(s: State) -> State
    ensures { result ≡ (rbr_read s).state }
{
    if s.rx.count == 0 {
        return s;
    }
    let taken = take(s);
    State {
        rx: taken.rx,
        latches: taken.latches,
        ..s
    }
}
