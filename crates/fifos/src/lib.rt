// The registers at the FIFOs: RBR, THR, FCR and LSR, for each its byte, what a read changes of the
// state, and its write.
//
// A module for each register, named as the sheet names it. The definitions that the contracts cite
// are the device's. The crate `bus` has the registers by address.
#![tactic(auto)]

pub mod fcr;
pub mod lsr;
pub mod rbr;
pub mod thr;
