// The pulses, and a single one.
ghost use Rattle.std.specs.Prelude.{◌≡◌, true};
ghost use Rattle.device.specs.State.{with_k};
ghost use Rattle.device.specs.Autoflow.{settled};
ghost use Rattle.device.specs.Tick.{pulsed};
ghost use Rattle.device.specs.Ranges.{well_formed};
ghost use Rattle.quiet_pulses.specs.Quiet.{pulses_of};
ghost use Rattle.clock.specs.Needs.{Pulsing};

use device::State;
use line::{idle, transmitter};
use settings::{autoflow, errors, fifo, modem};

// n pulses of the state with another k, from event to event: the quiet ones before it at once, then
// the one in which it happens, transmitter, receiver, idle count and the rules that end a step. Each
// stores what it changes where it stands; a call that hands a state on would copy it. (`&` takes both
// tests, without a way out that the loop and its proof would have to join again.)
pub fn pulses(s: State, k: u32, n: u32) -> State
    requires { well_formed (with_k s k) ≡ true }
    ensures { result ≡ pulses_of n (with_k s k) }
{
    let mut t = s;
    t.baud.k = k;
    let mut left = n;
    while 0 < left {
        let r = t.registers;
        let f = t.fifo;
        let i = t.inputs;
        let looped = modem::loopback(r);
        let m = quiet_pulses::reach(t, left);
        let before = t.frame;
        if 0 < m {
            t.frame = quiet_pulses::shift_by(m, before);
            t.receiver = quiet_pulses::hear_by(looped, before, i.sin, m, t.receiver);
            t.latches = quiet_pulses::later_by(f, t.rx.count, r.lcr, m, t.latches);
            left -= m;
            continue;
        }
        let x = transmitter::shift_out(before);
        t.frame = x;
        let loads = (x.left == 0) & transmitter::ready(t.tx.count, r, f, i);
        if loads {
            let q = t.tx;
            t.frame = transmitter::next_frame(q, r.lcr);
            t.latches = transmitter::emptied(q.count, t.latches);
            t.tx = queue::bytes::take(q);
        }
        let h = receiver::listen(looped, t.frame, i.sin, r.lcr, t.receiver);
        let v = h.receiver;
        t.receiver = v;
        let full = receiver::is_full(f, t.rx.count);
        if let Some(e) = h.entry {
            let q = t.rx;
            t.latches = receiver::overrun(full, t.latches);
            t.rx = queue::entries::put(q, fifo::capacity(f), errors::entering(f, e));
            t.kept = errors::kept_after(f, e, t.kept);
        }
        let entered = h.entry.is_some() & !full;
        let l = idle::later(f, t.rx.count, r.lcr, entered, t.latches);
        t.latches = autoflow::settle_latches(r, f, t.rx.count, l);
        left -= 1;
    }
    t
}

// One pulse: transmitter, receiver, idle count, and the rules that end a step.
pub fn pulse(s: State) -> State
    requires { Pulsing s }
    ensures { result ≡ settled (pulsed s) }
{
    let t = transmitter::transmit(s);
    let r = receiver::hear(t);
    let entered = receiver::enters(t, r.entry.is_some());
    let u = receiver::accept(t, r);
    autoflow::settle(idle::idle(entered, u))
}
