//! The grammar as data, and the machine that reads token lists by it.
#![tactic(auto)]

mod forms;
mod keywords;
mod laws;
mod left_out;
mod lexemes;
mod machine;
mod reader;
mod reading;
mod symbols;
mod table;
mod tables;

pub use forms::Form;
pub use laws::{fronts_go_on, one_tree, one_way};
pub use reader::read;
pub use reading::{Reading, Stop};
pub use symbols::{Beginning, Event, Symbol};

#[cfg(test)]
mod tests;
