// The Goppa code of a seed: its support and zeros, the polynomial with these zeros, and the columns
// of the check matrix.
#![tactic(auto)]

pub mod code;
pub mod columns;
pub mod mixed;
pub mod zeros;
