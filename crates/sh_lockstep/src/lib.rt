//! Running a function in device form in step: each instruction on all devices of a grid, then the
//! next one.
#![tactic(auto)]

mod axes;
mod laws;
mod lock;
mod steps;
mod table;

pub use laws::can_lock_laws;
pub use lock::{Lock, lockstep};
