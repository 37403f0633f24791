//! Structured operations, computed: a nest of loops over the cells of the operands, whose step
//! copies, adds a product or runs a region. The definitions stand in `sh_sem`.
#![tactic(auto)]

mod formulas;
mod loops;
mod nest_sizes;
mod nests;
mod operands;
mod placing;
mod points;
mod regions;
mod rows;
mod sizes;
mod steps;
mod structures;
mod visits;
mod words;

pub use formulas::Formula;
pub use loops::natural;
pub use nest_sizes::{NestSize, is_structured, nest_size};
pub use operands::{made, shape_of};
pub use structures::structured_op;
