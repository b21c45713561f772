// The transmitter's and the idle count's parts of a pulse. `clock` puts them together with the
// receiver's.
#![tactic(auto)]

pub mod idle;
pub mod transmitter;
