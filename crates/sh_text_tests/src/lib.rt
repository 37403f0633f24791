//! Short texts that keep or break each limit and rule, and where.
#![tactic(auto)]

#[cfg(test)]
mod admissions;
#[cfg(test)]
mod devices;
#[cfg(test)]
mod elements;
#[cfg(test)]
mod generics;
mod judging;
#[cfg(test)]
mod layouts;
#[cfg(test)]
mod modules;
#[cfg(test)]
mod notes;
#[cfg(test)]
mod rows;
#[cfg(test)]
mod sizes;
#[cfg(test)]
mod structured;

pub use judging::{Unsound, judge, judge_shardings};
