//! Least ways in a graph: distances over numbered states, and the first of the least ways.
#![tactic(auto)]

mod laws;
mod search;
mod walk;

pub use laws::{least_plan, numbered};
pub use search::{Edge, distances};
pub use walk::first_way;
