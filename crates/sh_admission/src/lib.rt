//! Whether the shardings of a module are admitted: those of the notes of source form, and those of
//! the cuts that device form carries.
//!
//! What each rule asks of one sharding stands in the specifications of `sh_sharding` (`Admission`).
//! Here each note and each cut has the first rule that it breaks as its fault, at its place, and
//! [`admit_module`] answers the least fault.
#![tactic(auto)]

mod admission;
mod grids;
mod least;
mod notes;
mod rules;

pub use admission::{ModuleRefusal, admit_module};
