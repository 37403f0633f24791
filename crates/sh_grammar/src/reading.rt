use crate::Event;
use sh_base::Rule;

/// What a list of tokens comes to.
#[derive(Drop)]
pub enum Reading {
    /// The tokens are a file: these steps are its tree.
    Whole(Vec<Event>),
    /// The tokens are no file.
    Stopped(Stop),
}

/// The first token with which no file goes on.
#[derive(Drop)]
pub struct Stop {
    /// The steps over the tokens before it, with which every file begins that goes on from those
    /// tokens.
    pub events: Vec<Event>,
    /// Its number, from 0.
    pub token: usize,
    /// `P3` for a token of a form that is left out by name, else `P2` for a word where an operation is
    /// due, else `P1`.
    pub rule: Rule,
}
