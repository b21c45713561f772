// The invariant of the device, theorems of its definitions and no code: every step on a well-formed
// state gives a well-formed state, so that every range of document 01 holds for ever.
#![tactic(auto)]
