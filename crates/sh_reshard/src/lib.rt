//! Reshards as instructions of device form: what each device runs so that the cuts of a tensor by
//! one sharding become those by another.
#![tactic(auto)]

mod kinds;
mod laws;
mod lowering;
mod numbers;

pub use laws::{reshard_laws, soundness_laws};
pub use lowering::lower;
