//! The names that a region takes of its function.
#![tactic(auto)]

mod captures;

pub use captures::captured_by;
