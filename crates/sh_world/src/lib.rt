//! Devices of a grid that run one function in device form, one device turn at a time, as the machine
//! of turns says. A world stands for lists of turns; what it answers is what the machine answers after
//! them, in whatever order the devices made their turns.
#![tactic(auto)]

mod answers;
mod groups;
mod laws;
mod places;
mod scripts;
mod states;
mod steps;
mod turning;
mod worlds;

pub use laws::{runnable_laws, world_laws};
pub use steps::LocalSteps;
pub use worlds::{Tensors, World};
