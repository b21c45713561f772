// What the FIFO's settings mean.
ghost use Rattle.std.specs.Prelude.{◌≡◌, ◌≤◌};
ghost use Rattle.device.specs.Fifo.{capacity as «capacity-of», trigger_level};

use device::FifoControl;
use sheet::limits;

// The capacity of each queue: 1, 16 or 64.
#[tactic(auto, unfolding(device::specs::Fifo::capacity))]
pub fn capacity(f: FifoControl) -> u32
    ensures { (result ≡ «capacity-of» f) × (1 ≤ result) × (result ≤ 64) }
{
    if f.enabled != 1 {
        return 1;
    }
    if f.size == 1 { 64 } else { 16 }
}

// The trigger level of the receive queue.
#[tactic(auto, unfolding(device::specs::Fifo::trigger_level))]
pub fn trigger_level(f: FifoControl) -> u32
    ensures { result ≡ trigger_level f }
{
    let levels: [u32; 4] = if f.size == 1 {
        [1, 16, 32, 56]
    } else {
        [1, 4, 8, 14]
    };
    levels[usize::from(f.trigger.min(limits::TRIGGER_MOST))]
}
