//! The laws by which structured operations are split among the devices of a grid: folds in parts,
//! loops of the output split in any way, and reduction loops whose parts are combined.
#![tactic(auto)]

mod laws;

pub use laws::{fold_laws, parallel_loops, split_reduction};
