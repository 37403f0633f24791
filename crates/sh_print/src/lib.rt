//! The printer: the text of a module, in the one layout that this repository writes.
//!
//! `specs/Tokens.antt` says which tokens a module's text has, form by form in the order of the
//! grammar, and `specs/Layout.antt` how a list of tokens is laid out. [`print`] writes exactly that
//! text, and a formed module's text has exactly these tokens ([`printed_tokens`]).
#![tactic(auto)]

mod arith;
mod behind;
mod items;
mod laws;
mod linalg;
mod names;
mod operations;
mod phrases;
mod printer;
mod regions;
mod scopes;
mod shard;
mod spelled;
mod spellings;
mod tensor;
mod words;

pub use items::print;
pub use laws::{examples, layout_keeps_tokens, printed_tokens};
