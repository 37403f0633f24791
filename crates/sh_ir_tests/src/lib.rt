//! Modules that are built by hand: a small network whose module is formed, and one for each part of
//! being formed that breaks it alone.
#![tactic(auto)]

mod formed;
mod lists;

pub use formed::{each_part_counts, network_is_formed};
pub use lists::text;
