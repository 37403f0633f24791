//! Literals: what is written in `dense<..>`, and what it holds by its type.
#![tactic(auto)]

mod contents;
mod elements;
mod literals;
mod quoted;
mod rests;
mod shapes;

pub use contents::{dense, scalar};
pub use literals::{Element, Literal, Nested};
pub use rests::Rest;
pub use shapes::{in_front, no_list, single};
