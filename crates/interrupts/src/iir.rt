// IIR, interrupt identification register.
ghost use Rattle.std.specs.Prelude.{◌≡◌, cond, false, ◌≤◌, leb, ltb};
ghost use Rattle.flag.specs.Flag.{on};
ghost use Rattle.queue.specs.Queue.{any_error};
ghost use Rattle.device.specs.Fifo.{trigger_level};
ghost use Rattle.device.specs.Lsr.{shown_errors};
ghost use Rattle.device.specs.Iir.{interrupt_code, fifo_code, iir_read};

use device::{FifoControl, State};
use fifos::lsr;
use sheet::bits;

// Whether so many received characters are enough: the trigger level, or one in character mode.
fn enough(f: FifoControl, count: u32) -> bool
    ensures { result ≡ cond (on f.enabled) (leb (trigger_level f) count) (ltb 0 count) }
{
    if f.enabled != 1 {
        return 0 < count;
    }
    settings::fifo::trigger_level(f) <= count
}

// The identification code, that of the first cause that applies, where it is known whether PE, FE or BI
// shows. Each cause counts where IER enables its interrupt. (With that test inside, the compiler no longer
// makes one function of the code and the pins, and a step's answer is copied three times more.)
#[tactic(auto, unfolding(device::specs::Iir::line_status, device::specs::Iir::data_available, device::specs::Iir::time_out, device::specs::Iir::thr_empty, device::specs::Iir::modem_status, device::specs::Iir::interrupt_code))]
pub fn interrupt_code(s: State, error: bool) -> u8
    requires { error ≡ any_error (shown_errors s) }
    ensures { (result ≡ interrupt_code s) × (result ≤ 12) }
{
    let ier = s.registers.ier;
    let l = s.latches;
    let data = flag::has(ier, bits::IER_RDI);
    if flag::has(ier, bits::IER_RLSI) && (l.overrun == 1 || error) {
        return bits::IIR_RLSI;
    }
    if data && enough(s.fifo, s.rx.count) {
        return bits::IIR_RDI;
    }
    if data && l.timeout == 1 {
        return bits::IIR_RX_TIMEOUT;
    }
    if flag::has(ier, bits::IER_THRI) && l.empty == 1 {
        return bits::IIR_THRI;
    }
    if flag::has(ier, bits::IER_MSI) && 0 < l.changes {
        return bits::IIR_MSI;
    }
    bits::IIR_NO_INT
}

// The FIFO's bits.
#[tactic(auto, unfolding(device::specs::Iir::fifo_code))]
fn fifo_code(f: FifoControl) -> u8
    ensures { (result ≡ fifo_code f) × (result ≤ 0xe0) }
{
    if f.enabled != 1 {
        return 0;
    }
    if f.size == 1 {
        bits::IIR_FIFO_ENABLED + bits::IIR_64BYTE_FIFO
    } else {
        bits::IIR_FIFO_ENABLED
    }
}

// The code and the FIFO's bits.
#[tactic(auto, unfolding(device::specs::Iir::iir_read))]
pub fn value(s: State) -> u8
    ensures { result ≡ (iir_read s).byte }
{
    interrupt_code(s, lsr::shows_error(s)) + fifo_code(s.fifo)
}

// Whether a read may change the state.
#[tactic(auto, unfolding(device::specs::Iir::iir_read))]
pub fn read_changes(s: State) -> bool
    ensures { result ≡ false → (iir_read s).state ≡ s }
{
    s.latches.empty != 0
}

// After a read: answering 02 clears the transmit-empty latch.
#[tactic(auto, unfolding(device::specs::Iir::iir_read))]
pub fn after_read(s: State) -> State
    ensures { result ≡ (iir_read s).state }
{
    if interrupt_code(s, lsr::shows_error(s)) == bits::IIR_THRI {
        return State {
            latches: device::with_empty(s.latches, 0),
            ..s
        };
    }
    s
}
