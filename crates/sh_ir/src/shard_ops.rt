use crate::types::{Types, ValueType};
use sh_base::{AxisLists, Kind, Numbers, Text};

/// The attribute of `shard.shard`.
#[derive(Drop)]
pub struct Shard {
    /// Whether the sharding is that of the value at its users, and not where it is defined.
    pub annotate_for_users: bool,
}

/// What `on @g grid_axes = [0, 1]` writes: the groups of devices that differ along these axes alone.
/// In a group the first listed axis is outermost. Without `grid_axes` the list is empty.
#[derive(Drop)]
pub struct GridAxes {
    pub grid: Text,
    pub grid_axes: Numbers,
}

/// The attributes of `shard.all_gather`.
#[derive(Drop)]
pub struct AllGather {
    pub on: GridAxes,
    pub gather_axis: u64,
    /// The type before `->`.
    pub operand_type: ValueType,
}

/// The attributes of `shard.all_slice`.
#[derive(Drop)]
pub struct AllSlice {
    pub on: GridAxes,
    pub slice_axis: u64,
    /// The type before `->`.
    pub operand_type: ValueType,
}

/// The attributes of `shard.all_reduce`.
#[derive(Drop)]
pub struct AllReduce {
    pub on: GridAxes,
    /// How cells are combined; `sum` where it isn't written.
    pub reduction: Kind,
    /// The type before `->`.
    pub operand_type: ValueType,
}

/// The attributes of `shard.reduce_scatter`.
#[derive(Drop)]
pub struct ReduceScatter {
    pub on: GridAxes,
    /// How cells are combined; `sum` where it isn't written.
    pub reduction: Kind,
    pub scatter_axis: u64,
    /// The type before `->`.
    pub operand_type: ValueType,
}

/// The attributes of `shard.all_to_all`.
#[derive(Drop)]
pub struct AllToAll {
    pub on: GridAxes,
    pub split_axis: u64,
    pub concat_axis: u64,
    /// The type before `->`.
    pub operand_type: ValueType,
}

/// The attributes of `shard.shift`.
#[derive(Drop)]
pub struct Shift {
    pub on: GridAxes,
    pub shift_axis: u64,
    pub offset: i128,
    /// Whether the devices stand in a ring.
    pub rotate: bool,
    /// The type before `->`.
    pub operand_type: ValueType,
}

/// The attributes of `shard.update_halo`.
#[derive(Drop)]
pub struct UpdateHalo {
    pub grid: Text,
    /// For each tensor dimension the grid axes that split it.
    pub split_axes: AxisLists,
    /// Two numbers for each split dimension, at its start and at its end.
    pub halo_sizes: Numbers,
}

/// The attributes of `shardrun.take`: one start and one size for each place of a group.
#[derive(Drop)]
pub struct Take {
    pub on: GridAxes,
    pub axis: u64,
    pub starts: Numbers,
    pub sizes: Numbers,
    /// The type before `->`.
    pub operand_type: ValueType,
}

/// The attributes of `shardrun.pad`: one number of each list for each dimension.
#[derive(Drop)]
pub struct Pad {
    pub low: Numbers,
    pub high: Numbers,
    /// The type before `->`.
    pub operand_type: ValueType,
}

/// The attributes of `shardrun.join`.
#[derive(Drop)]
pub struct Join {
    pub axis: u64,
    /// The types before `->`.
    pub operand_types: Types,
}
