// Several pulses of a character at once, with the samples that they take.
ghost use Rattle.std.specs.Prelude.{◌≡◌, suc, ◌≤◌, ◌<◌, ◌^◌};
ghost use Rattle.frame.specs.Format.{data_bits};
ghost use Rattle.receiver.specs.Needs.{Sampled};
ghost use Rattle.receiver.specs.Samples.{samples_heard, with_all, sampled_by};

use device::Receiver;
use settings::sampling;

// The samples of n bits of the line from the one at a place on, the first lowest.
fn samples_heard(low: u32, place: u32, n: u32) -> u32
    requires { (place < 512) × (n ≤ 9) }
    ensures { result ≡ samples_heard low place n }
{
    let all = 1u32 << n;
    all - 1 - (low >> (place / 16)) % all
}

// The character with all its samples from one number: data from bit 0, then parity.
fn with_all(all: u32, v: Receiver) -> Receiver
    requires { all < 2 ^ suc (data_bits v.format) }
    ensures { result ≡ with_all all v }
{
    let bits = frame::data_bits(v.format);
    Receiver {
        samples: (all % (1u32 << bits)) as u8,
        parity: (all >> bits) as u8,
        ..v
    }
}

// The character m pulses later, before its stop sample: `low` has the low bits of the line,
// `place` is the place in them now. Where a sample is taken, the parity was not sampled before.
pub fn sample_by(low: u32, place: u32, m: u32, v: Receiver) -> Receiver
    requires { Sampled place m v }
    ensures { result ≡ sampled_by low place m v }
{
    let p = v.position;
    let later = p + m;
    let before = sampling::samples_taken(p);
    let after = sampling::samples_taken(later);
    let next = Receiver {
        position: later,
        ..v
    };
    if after == before {
        return next;
    }
    let heard = samples_heard(low, place + 24 + 16 * before - p, after - before);
    with_all((v.samples as u32) + (heard << before), next)
}
