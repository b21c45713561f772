// FCR, FIFO control register.
ghost use Rattle.std.specs.Prelude.{◌≡◌, cond, ◌&&◌, ◌||◌, ◌<◌, ◌/◌, ◌%◌, eqb};
ghost use Rattle.flag.specs.Flag.{bit, bit_of};
ghost use Rattle.queue.specs.Queue.{no_errors};
ghost use Rattle.device.specs.Fcr.{fifo_after, turned as «turned-of», switched as «switched-of», clear_receive, clear_transmit, fcr_write};

use crate::rbr;
use device::{FifoControl, Registers, State};
use queue::Errors;
use sheet::bits;

// The size bit after a write, which sets it only with LCR7.
fn size_after(lcr: u8, size: u8, b: u8) -> u8
    ensures { result ≡ cond (bit 7 lcr) (bit_of (bit 5 b)) size }
{
    if !flag::has(lcr, bits::LCR_DLAB) {
        return size;
    }
    u8::from(flag::has(b, bits::FCR_64BYTE))
}

// The settings after a write.
#[tactic(auto, unfolding(device::specs::Fcr::fifo_after))]
fn fifo_after(r: Registers, f: FifoControl, b: u8) -> FifoControl
    ensures { result ≡ fifo_after r f b }
{
    if !flag::has(b, bits::FCR_ENABLE_FIFO) {
        return FifoControl { enabled: 0, ..f };
    }
    FifoControl {
        enabled: 1,
        size: size_after(r.lcr, f.size, b),
        dma: u8::from(flag::has(b, bits::FCR_DMA_SELECT)),
        trigger: b / bits::FCR_TRIGGER,
    }
}

// Whether FIFO on/off changes, which clears the kept errors.
#[tactic(auto, unfolding(device::specs::Fcr::turned))]
fn turned(f: FifoControl, g: FifoControl) -> bool
    ensures { result ≡ «turned-of» f g }
{
    (f.enabled == 1) != (g.enabled == 1)
}

// Whether FIFO on/off or the size changes, which clears both queues.
#[tactic(auto, unfolding(device::specs::Fcr::switched))]
fn switched(f: FifoControl, g: FifoControl) -> bool
    ensures { result ≡ «switched-of» f g }
{
    turned(f, g) || (f.size == 1) != (g.size == 1)
}

// Whether a write clears the queue whose bit `clear` is: its bit with FIFO on, or both are cleared.
fn clears(both: bool, b: u8, clear: u8) -> bool
    requires { 0 < clear }
    ensures { result ≡ (both || (bit 0 b && eqb (b / clear % 2) 1)) }
{
    both || flag::has(b, bits::FCR_ENABLE_FIFO) && flag::has(b, clear)
}

// The receive queue cleared where a test says so, with its time-out latch and idle count.
#[tactic(auto, unfolding(device::specs::Fcr::clear_receive))]
fn receive_after(s: State, clear: bool) -> State
    ensures { result ≡ cond clear (clear_receive s) s }
{
    if !clear {
        return s;
    }
    State {
        rx: queue::entries::clear(),
        latches: rbr::restart_idle(s.latches),
        ..s
    }
}

// The transmit queue cleared where a test says so, which sets its latch where bytes were queued.
#[tactic(auto, unfolding(device::specs::Fcr::clear_transmit))]
fn transmit_after(s: State, clear: bool) -> State
    ensures { result ≡ cond clear (clear_transmit s) s }
{
    if !clear {
        return s;
    }
    let mut next = s;
    next.tx = queue::bytes::clear();
    if s.tx.count == 0 {
        return next;
    }
    next.latches = device::with_empty(s.latches, 1);
    next
}

// The kept errors cleared where a test says so.
fn kept_after(k: Errors, clear: bool) -> Errors
    ensures { result ≡ cond clear no_errors k }
{
    if clear {
        queue::entries::no_errors()
    } else {
        k
    }
}

// The settings, then what is cleared.
#[tactic(auto, unfolding(device::specs::Fcr::fcr_write))]
pub fn write(s: State, b: u8) -> State
    ensures { result ≡ fcr_write s b }
{
    let f = fifo_after(s.registers, s.fifo, b);
    let both = switched(s.fifo, f);
    let receive = clears(both, b, bits::FCR_CLEAR_RCVR);
    let transmit = clears(both, b, bits::FCR_CLEAR_XMIT);
    let kept = kept_after(s.kept, turned(s.fifo, f));
    let next = State { fifo: f, kept, ..s };
    transmit_after(receive_after(next, receive), transmit)
}
