//! The lexer: the tokens of a text, each with its kind, its span and its place.
#![tactic(auto)]

mod bytes;
mod fronts;
mod gaps;
mod laws;
mod lexer;
mod positions;
mod tokens;

pub use laws::{one_refusal, one_token_list, spans};
pub use lexer::lex;
pub use tokens::{LexRefusal, Token, TokenKind};

#[cfg(test)]
mod tests;
