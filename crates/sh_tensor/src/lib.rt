//! Tensors: a shape, a width, and one cell for each index of the shape, in row-major order.
#![tactic(auto)]

mod joins;
mod shaping;
mod slices;
mod tensors;
#[cfg(test)]
mod tests;

pub use joins::concat;
pub use shaping::with_extent;
pub use slices::slice;
pub use tensors::{Tensor, build, copy, reshape};
