use crate::Move;
use sh_base::Items;
use sh_sharding::Sharding;

/// Moves, one after the other.
pub type Moves = Items<Move>;

/// A sharding without halos, and what the least list of moves from there to the target costs.
#[derive(Drop)]
pub struct Distance {
    /// The sharding.
    pub sharding: Sharding,
    /// The cost.
    pub cost: u64,
}

/// A table of distances to one target.
pub type Distances = Items<Distance>;

/// How one sharding of a tensor is made into another: halos are dropped first and added last, both
/// at no cost, and between the two the moves lead from source to target.
#[derive(Drop)]
pub struct Plan {
    /// Whether the shardings differ and the source has halos.
    pub drop_halos: bool,
    /// The moves, in order.
    pub moves: Moves,
    /// Whether the shardings differ and the target has halos.
    pub add_halos: bool,
    /// What the moves cost together.
    pub cost: u64,
    /// The distances to the target from states that no move leaves, in rising order of the states.
    /// It shows that no list of moves costs less.
    pub table: Distances,
}
