//! What functions mean: the value of each operation on whole tensors, and the program that a function
//! in device form is for the machine of turns. The definitions stand in `specs/`; the code reads
//! types and tensors.
#![tactic(auto)]

mod reading;
mod typing;

pub use reading::{cells_of, count_of};
pub use typing::{dims_of, width_of};
