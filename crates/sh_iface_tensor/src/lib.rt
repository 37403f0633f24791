//! Slices of tensors: dimensions that are taken whole can be split.
#![tactic(auto)]

mod slice_iface;
mod slice_local;
mod slices;

pub use slices::{SliceIface, SliceKind, slice_of};
