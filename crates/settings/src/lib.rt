// What the settings of a state mean: the capacity and the trigger level that FCR sets, the effective levels
// of the modem pins, autoflow and the rules that end a step, where a format puts the samples of a
// character, and where the FIFO puts its errors.
#![tactic(auto)]

pub mod autoflow;
pub mod errors;
pub mod fifo;
pub mod modem;
pub mod sampling;
