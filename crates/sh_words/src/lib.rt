//! The command words of both programs, and the options that they give.
//!
//! `specs/Tables.antt` has one table a program, and says which words are accepted;
//! `specs/Meaning.antt` says what accepted words mean. [`read_words`] first looks whether the words
//! are accepted, by a check of its own, and then lets `clap` read their values. So no help, no
//! abbreviation and no message of `clap`'s ever reaches a user.
#![tactic(auto)]

mod acceptance;
mod commands;
mod options;
mod reading;
mod values;

pub use options::{Generate, Options, Tool, WordsRefusal};
pub use reading::read_words;

#[cfg(test)]
mod tests;
