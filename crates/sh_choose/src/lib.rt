//! The least option of an operation: of the ways to split its loops that its known shardings
//! propose, the first that differs from the fewest of them and leaves the largest device the least.
#![tactic(auto)]

mod bounds;
mod chosen;
mod exact;
mod laws;
mod proposing;
mod search;
mod weighing;

pub use chosen::{Chosen, Known, Weight};
pub use laws::least_laws;
pub use search::least_option;
