//! Numbers of the integer widths, and the element operations of the `arith` dialect on cells.
//!
//! Each operation is defined by arithmetic on unbounded numbers, reduced at the end (`specs/Elements.antt`); the code
//! computes by machine words. No call takes memory.
#![tactic(auto)]

mod casts;
mod complement;
mod elements;
mod predicates;
mod reduction;
#[cfg(test)]
mod tests;

pub use casts::cast;
pub use complement::signed_laws;
pub use elements::apply;
pub use predicates::compare;
pub use reduction::{combine_laws, neutral, reduce_cell};
