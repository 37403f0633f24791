//! The tests of `sh_plan` on pairs of shardings from lines of text: each call with its whole answer.
#![tactic(auto)]

#[cfg(test)]
mod allowed;
#[cfg(test)]
mod certificates;
#[cfg(test)]
mod costs;
#[cfg(test)]
mod moved;
mod pairs;
#[cfg(test)]
mod plans;
#[cfg(test)]
mod shown;
#[cfg(test)]
mod ways;

pub use pairs::{Pair, read_pair, read_shardings, read_state, states};
