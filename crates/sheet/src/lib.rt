// The numbers of the papers, one table of each kind for all code: the registers' addresses and bits,
// the limits and the parts of the state, and the numbers answered.
#![tactic(auto)]

pub mod answer;
pub mod bits;
pub mod limits;
pub mod part;
