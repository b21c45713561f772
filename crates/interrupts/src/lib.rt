// The interrupt code, IIR and the output pins.
//
// The definitions that the contracts cite are the device's.
#![tactic(auto)]

pub mod iir;
pub mod pins;
