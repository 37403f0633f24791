//! The vocabulary of every other crate: places in a text, rule codes, integer widths, cells, the
//! names of element operations, shapes, and lists that contracts see as lists.
#![tactic(auto)]

mod construct;
mod duplicate;
mod items;
mod memory;
mod numbers;
mod operations;
mod orders;
mod places;
mod rules;
mod same;
mod shapes;

pub use construct::shape;
pub use duplicate::Duplicate;
pub use items::{AxisLists, Cells, Ids, Items, Numbers, Text, Widths};
pub use memory::Mem;
pub use numbers::{Cell, Width};
pub use operations::{BinOp, CastOp, Kind, Predicate};
pub use orders::{Order, Traversal};
pub use places::{Place, Refusal};
pub use rules::Rule;
pub use same::Same;
pub use shapes::{MAX_CELLS, MAX_RANK, Shape, count, flat, unflat};
