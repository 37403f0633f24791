//! What the text of a module stands for.
#![tactic(auto)]

mod laws;
mod leaves;
mod maps;
mod parts;
mod reader;
mod refusals;
mod rows;

pub use laws::{formed_module, one_module};
pub use reader::parse;
pub use refusals::ParseRefusal;
