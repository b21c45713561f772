// What the recorder writes: a file's header, and the records, words of 32 bits.
#![tactic(auto)]

pub mod file;
pub mod record;
