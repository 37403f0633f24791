//! Grids of devices, and the groups of devices along a list of axes.
//!
//! Devices are numbered row-major over their coordinates. Devices that have equal coordinates on
//! each axis outside a list of axes form a group. The place of a device in its group is the
//! mixed-radix number of its coordinates on the listed axes, the first listed axis outermost.
#![tactic(auto)]

mod grids;
mod groups;
mod laws;

pub use grids::{Grid, MAX_AXES, MAX_DEVICES, coords, devices, extents, make, name};
pub use groups::{group_size, member, place_in_group, size_along};
pub use laws::group_laws;
