//! The names of a text: which are one, their numbers, and the rules on them.
#![tactic(auto)]

mod definers;
mod lexemes;
mod mentions;
mod numbering;
mod numbers;
mod passing;
mod rules;
mod scopes;

pub use lexemes::bytes_of;
pub use mentions::{Named, number_names};
pub use scopes::{Role, Scope};
