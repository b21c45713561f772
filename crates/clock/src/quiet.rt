// The quiet pulse, in which no byte is loaded and no character ends: numbers alone.
ghost use Rattle.std.specs.Prelude.{◌≡◌, ◌≤◌, cond};
ghost use Rattle.device.specs.Idle.{counted};
ghost use Rattle.receiver.specs.Needs.{Placed};
ghost use Rattle.clock.specs.Needs.{Quieting};
ghost use Rattle.clock.specs.Quiet.{setting_of, steady as «steady-of», stepped, quiet_of};

use crate::{QuietPulse, Setting};
use device::{CHARACTER, Frame, IDLE, Latches, Receiver, State};
use line::{idle, transmitter};
use settings::modem;

// What the pulses until the next event look at.
#[tactic(auto, unfolding(crate::specs::Quiet::setting_of, device::specs::Transmitter::ready))]
pub fn setting(s: State) -> Setting
    ensures { result ≡ setting_of s }
{
    Setting {
        lcr: s.registers.lcr,
        sin: s.inputs.sin,
        loopback: modem::loopback(s.registers),
        ready: transmitter::ready(s.tx.count, s.registers, s.fifo, s.inputs),
        counts: idle::counts(s.fifo, s.rx.count),
        limit: idle::limit(s.registers.lcr),
    }
}

// Whether the pulse only steps on, with so many pulses left of the frame: between two samples of a
// character, or idle on a line that is high because nothing is sent, or because SIN is. No level is
// computed for it.
#[tactic(auto, unfolding(crate::specs::Quiet::steady))]
fn steady(loopback: bool, left: u32, sin: u8, v: Receiver) -> bool
    requires { Placed v }
    ensures { result ≡ «steady-of» loopback left sin v }
{
    if v.phase == CHARACTER {
        return (v.position + 1) % 16 != 8;
    }
    if v.phase != IDLE {
        return false;
    }
    if loopback {
        return left == 0;
    }
    sin == 1
}

// The receiver after such a pulse: in a character at the next position, else as it was.
#[tactic(auto, unfolding(crate::specs::Quiet::stepped))]
fn step(v: Receiver) -> Receiver
    requires { Placed v }
    ensures { result ≡ stepped v }
{
    if v.phase == CHARACTER {
        return receiver::at_position(v.position + 1, v);
    }
    v
}

// The latches after a pulse in which no character ends.
fn later(c: Setting, l: Latches) -> Latches
    requires { l.idle ≤ 769 }
    ensures { result ≡ cond c.counts (counted c.limit l) l }
{
    if c.counts {
        return idle::counted(c.limit, l);
    }
    l
}

// What a quiet pulse leaves; none where the pulse is not quiet.
#[tactic(auto, using(crate::proofs::Quieted::steady_receives), unfolding(crate::specs::Quiet::quiet_of))]
pub fn quiet_pulse(c: Setting, x: Frame, v: Receiver, l: Latches) -> Option<QuietPulse>
    requires { Quieting c x v l }
    ensures { result ≡ quiet_of c x v l }
{
    let next = transmitter::shift_out(x);
    if next.left == 0 && c.ready {
        return None;
    }
    if steady(c.loopback, next.left, c.sin, v) {
        return Some(QuietPulse {
            frame: next,
            receiver: step(v),
            latches: later(c, l),
        });
    }
    let r = receiver::listen(c.loopback, next, c.sin, c.lcr, v);
    if r.entry.is_some() {
        return None;
    }
    Some(QuietPulse {
        frame: next,
        receiver: r.receiver,
        latches: later(c, l),
    })
}
