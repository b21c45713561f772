// The output pins.
ghost use Rattle.std.specs.Prelude.{◌≡◌, cond, not, ◌&&◌};
ghost use Rattle.flag.specs.Flag.{on, bit, bit_of};
ghost use Rattle.device.specs.Transmitter.{line};
ghost use Rattle.device.specs.Pins.{outputs as «outputs-of»};

use crate::iir;
use device::{Frame, Outputs, State};
use fifos::lsr;
use settings::modem;
use sheet::bits;

// SOUT: outside loopback LCR6 makes it low; else it is high in loopback, the transmitter's line
// outside.
fn sout(loopback: bool, lcr: u8, x: Frame) -> u8
    ensures { result ≡ cond loopback 1 (cond (bit 6 lcr) 0 (line x)) }
{
    if loopback {
        return 1;
    }
    if flag::has(lcr, bits::LCR_SBC) {
        return 0;
    }
    frame::line_level(x.left, x.byte, x.format)
}

// The pins outside loopback: RTS, DTR, OUT1 and OUT2 are bits of MCR, RTS without hold.
fn outside(mcr: u8, hold: u8, sout: u8, intrpt: u8) -> Outputs
    ensures { result ≡ record { sout = sout; rts = bit_of (bit 1 mcr && not (on hold)); dtr = bit_of (bit 0 mcr); out1 = bit_of (bit 2 mcr); out2 = bit_of (bit 3 mcr); intrpt = intrpt } }
{
    Outputs {
        sout,
        rts: u8::from(flag::has(mcr, bits::MCR_RTS) && hold != 1),
        dtr: u8::from(flag::has(mcr, bits::MCR_DTR)),
        out1: u8::from(flag::has(mcr, bits::MCR_OUT1)),
        out2: u8::from(flag::has(mcr, bits::MCR_OUT2)),
        intrpt,
    }
}

// The levels of the output pins; in loopback no modem output is asserted. INTRPT is high exactly when
// the code is not 01.
#[tactic(auto, unfolding(device::specs::Pins::intrpt, device::specs::Pins::outputs))]
pub fn outputs(s: State) -> Outputs
    ensures { result ≡ «outputs-of» s }
{
    let r = s.registers;
    let loopback = modem::loopback(r);
    let sout = sout(loopback, r.lcr, s.frame);
    let intrpt = u8::from(iir::interrupt_code(s, lsr::shows_error(s)) != bits::IIR_NO_INT);
    if !loopback {
        return outside(r.mcr, s.latches.hold, sout, intrpt);
    }
    Outputs {
        sout,
        rts: 0,
        dtr: 0,
        out1: 0,
        out2: 0,
        intrpt,
    }
}
