// PE, FE and BI of an arriving character: with FIFO on they go with its entry, in character mode they
// are kept apart from the byte.
ghost use Rattle.std.specs.Prelude.{◌≡◌, cond};
ghost use Rattle.device.specs.Lsr.{without_errors, entering as «entering-of», kept_after};

use device::FifoControl;
use queue::{Entry, Errors};

// The entry without its errors.
pub fn without_errors(e: Entry) -> Entry
    ensures { result ≡ without_errors e }
{
    Entry {
        byte: e.byte,
        ..queue::entries::none()
    }
}

// The entry of an arriving character: in character mode it has no errors of its own.
#[tactic(auto, unfolding(device::specs::Lsr::entering))]
pub fn entering(f: FifoControl, e: Entry) -> Entry
    ensures { result ≡ «entering-of» f e }
{
    if f.enabled == 1 {
        return e;
    }
    without_errors(e)
}

// An error flag that a test sets; else it is as it was.
pub fn set_if(test: bool, before: u8) -> u8
    ensures { result ≡ cond test 1 before }
{
    if test { 1 } else { before }
}

// The kept errors after a character arrived: in character mode it sets those that it has and clears none.
#[tactic(auto, unfolding(device::specs::Lsr::kept_after))]
pub fn kept_after(f: FifoControl, e: Entry, k: Errors) -> Errors
    ensures { result ≡ kept_after f e k }
{
    if f.enabled == 1 {
        return k;
    }
    Errors {
        pe: set_if(e.pe == 1, k.pe),
        fe: set_if(e.fe == 1, k.fe),
        bi: set_if(e.bi == 1, k.bi),
    }
}
