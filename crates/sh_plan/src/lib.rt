//! Reshards: the moves that lead from one sharding of a tensor to another, and what they cost.
#![tactic(auto)]

mod allowed;
mod apart;
mod candidates;
mod checking;
mod checks;
mod costs;
mod exploring;
mod laws;
mod leading;
mod moves;
mod moving;
mod named;
mod places;
mod planning;
mod plans;
mod prices;
mod tables;
mod viewing;

pub use allowed::is_allowed;
pub use candidates::allowed_moves;
pub use checks::check_plan;
pub use costs::cost;
pub use laws::{certificate_law, cost_law, reach_law, replication_law, split_law};
pub use moves::Move;
pub use moving::moved;
pub use named::is_named;
pub use planning::plan;
pub use plans::{Distance, Distances, Moves, Plan};
