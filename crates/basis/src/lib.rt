// An echelon basis of a code's parity rows over any list of its columns.
//
// `packed` has rows of bits, and `elimination` makes the basis. What it says of words over those columns is read in `systematic`.
#![tactic(auto)]

pub mod elimination;
pub mod packed;

// The number of a column of the code.
pub type Column = u16;
