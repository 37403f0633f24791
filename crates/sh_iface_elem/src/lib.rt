//! Element operations, which go cell by cell: their loops are the dimensions of the result, and all
//! their values are split alike.
#![tactic(auto)]

mod element;
mod iface;
mod local;

pub use element::{ElemIface, ElementKind, elem_of};
