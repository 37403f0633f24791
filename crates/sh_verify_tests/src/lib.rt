//! Operations and modules that break each limit and each rule, and neighbors that don't.
#![tactic(auto)]

mod samples;

pub use samples::{
    cuts_give_local_types, modules_break_rules, network_keeps_limits, operations_break_rules,
};
