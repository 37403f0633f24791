use sh_iface::LoopOption;
use sh_sharding::Sharding;

/// A sharding that is known of an operand, or of the result.
#[derive(Drop)]
pub struct Known {
    /// The number of the operand; their count means the result.
    pub v: u64,
    pub sharding: Sharding,
    /// Whether it is a user's.
    pub user: bool,
}

/// By what options are compared: the first number before the second, and that before the third.
#[derive(Clone, Copy)]
pub struct Weight {
    /// How many of a user's shardings aren't the same as those that the option implies.
    pub user_differ: u64,
    /// How many of the other known shardings aren't.
    pub other_differ: u64,
    /// The loop points on the largest device.
    pub points: u128,
}

/// The least option of an operation.
#[derive(Drop)]
pub struct Chosen {
    /// For each loop its split, or none.
    pub option: LoopOption,
    /// How many of a user's shardings aren't the same as those that it implies.
    pub user_differ: u64,
    /// How many of the other known shardings aren't.
    pub other_differ: u64,
    /// The loop points on the largest device.
    pub points: u128,
}
