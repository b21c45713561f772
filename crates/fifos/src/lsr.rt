// LSR, line status register.
ghost use Rattle.std.specs.Prelude.{◌≡◌, true, false};
ghost use Rattle.queue.specs.Queue.{no_errors, any_error};
ghost use Rattle.device.specs.Lsr.{shown_errors, lsr as «lsr-of», clear_errors, lsr_read};

use crate::rbr;
use device::State;
use queue::{EntryQueue, Errors};
use settings::errors;

// The errors that show: with FIFO on those of the oldest entry, in character mode the kept ones.
#[tactic(auto, unfolding(device::specs::Lsr::shown_errors))]
pub fn shown_errors(s: State) -> Errors
    ensures { result ≡ shown_errors s }
{
    if s.fifo.enabled == 1 {
        return queue::entries::errors_of(rbr::oldest(s.rx));
    }
    s.kept
}

// Whether PE, FE or BI shows.
pub fn shows_error(s: State) -> bool
    ensures { result ≡ any_error (shown_errors s) }
{
    queue::entries::any_set(shown_errors(s))
}

// The register, its lower and its upper four bits.
#[tactic(auto, unfolding(device::specs::Lsr::lsr, device::specs::Lsr::temt))]
pub fn value(s: State) -> u8
    ensures { result ≡ «lsr-of» s }
{
    let e = shown_errors(s);
    let idle = s.tx.count == 0 && s.frame.left == 0;
    let error = s.fifo.enabled == 1 && queue::entries::any_error(s.rx);
    let low = flag::nibble(0 < s.rx.count, s.latches.overrun == 1, e.pe == 1, e.fe == 1);
    let high = flag::nibble(e.bi == 1, s.tx.count == 0, idle, error);
    low + 16 * high
}

// The queue with its oldest entry's errors cleared.
#[tactic(auto, unfolding(device::specs::Lsr::clear_errors))]
fn clear_errors(q: EntryQueue) -> EntryQueue
    ensures { result ≡ clear_errors q }
{
    let mut next = q;
    next.entries[0] = errors::without_errors(rbr::oldest(q));
    next
}

// Whether there are none of these errors.
fn none_of(e: Errors) -> bool
    ensures { result ≡ true → e ≡ no_errors }
{
    queue::entries::errors_within(e, 0)
}

// Whether a read changes the state.
#[tactic(auto, using(crate::proofs::Laws::lsr_kept))]
pub fn read_changes(s: State) -> bool
    ensures { result ≡ false → (lsr_read s).state ≡ s }
{
    s.latches.overrun != 0
        || !none_of(queue::entries::errors_of(rbr::oldest(s.rx)))
        || !none_of(s.kept)
}

// After a read: OE, the oldest entry's errors and the kept ones are cleared.
#[tactic(auto, unfolding(device::specs::Lsr::lsr_read))]
pub fn after_read(s: State) -> State
    ensures { result ≡ (lsr_read s).state }
{
    let mut next = s;
    next.rx = clear_errors(s.rx);
    next.latches.overrun = 0;
    next.kept = queue::entries::no_errors();
    next
}
