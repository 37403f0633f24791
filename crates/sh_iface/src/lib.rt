//! What propagation and the partitioner ask of an operation: its loops, what each dimension of its
//! values follows, which ways to split the loops are valid, how its values are split then, and its
//! local part, with the laws between these.
#![tactic(auto)]

mod iface;
mod laws;
mod making;
mod options;
mod parts;
mod validity;
mod viewing;

pub use iface::{HasLoops, ShardIface};
pub use laws::{element_laws, unsplit_is_valid};
pub use making::implied_sharding;
pub use options::{Follow, How, LoopOption, Split};
pub use parts::{LocalPart, local_type, operand_names};
pub use validity::is_valid;
