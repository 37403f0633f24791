//! The limits and rules that a module must keep: where it breaks one, the first place and there the least
//! rule.
//!
//! What each limit and rule asks is defined with the types of modules, in the specifications of `sh_ir`
//! (`Faults`, `Rules`), as a list of faults in no order, and what more is asked of carried cuts in those of
//! `sh_sharding` (`CutRules`). [`limits`] answers the least of those of limits, [`verify`] that of those of
//! rules. A [`Verified`] is a module that keeps all of them.
#![tactic(auto)]

mod agreement;
mod argument_names;
mod attributes;
mod axis_lists;
mod context;
mod counts;
mod cut_rules;
mod forms;
mod joins;
mod least;
mod loop_maps;
mod maps;
mod module_limits;
mod module_rules;
mod names;
mod numbers;
mod op_limits;
mod op_rules;
mod operands;
mod own_values;
mod region_rules;
mod region_types;
mod regions;
mod relations;
mod results;
mod sizes;
mod slices;
mod tables;
mod typing;
mod uses;
mod values;
mod verification;
mod verified;
mod written;

pub use module_limits::limits;
pub use verification::{VerifyRefusal, verify};
pub use verified::Verified;
