//! Shardings and tensors from lines of text, and the tests of `sh_sharding` on them: each call that may
//! want memory, with its whole answer. Other crates' tests take their examples from here.
#![tactic(auto)]

#[cfg(test)]
mod admissions;
#[cfg(test)]
mod cuts;
#[cfg(test)]
mod descriptions;
mod examples;
#[cfg(test)]
mod readings;
mod tensors;
mod unread;
#[cfg(test)]
mod views;

pub use examples::{Example, Sharded, admit_example, read_example};
pub use tensors::{all_cuts, counting, parts_with};
pub use unread::Unread;
