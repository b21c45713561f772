// Texts as bytes: put into a lent buffer (`buffer`), split into words and searched (`words`), and
// decimal numbers read and written (`decimal`).
#![tactic(auto)]

pub mod buffer;
pub mod decimal;
pub mod words;
