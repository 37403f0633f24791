//! Structured operations but convolutions. Their loops are those of their maps, and each dimension
//! follows the loop that its map gives. Fills, products and copies of cells have their interface here;
//! of reductions and generics the laws are proved, and what they are made of stands ready.
#![tactic(auto)]

mod bodies;
mod iface;
mod kinds;
mod local;
mod loops;
mod maps;
mod names;
mod operation;

pub use bodies::body_kind;
pub use kinds::LinalgKind;
pub use names::renumbered_body;
pub use operation::{LinalgIface, linalg_of};
