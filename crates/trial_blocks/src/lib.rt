// Blocks made by hand, byte by byte, for the programs of the gate: with them the library's blocks are compared. None of the
// library's code is used here, only its definitions, so that a mistake there is not made here again.
#![tactic(auto)]

mod bitwise;
mod block;

pub use bitwise::bit_by_bit;
pub use block::{head, put, sealed};
