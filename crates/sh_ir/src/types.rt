use sh_base::{AxisLists, Items, Numbers, Text, Width};

/// An extent in a tensor type.
#[derive(Clone, Copy, Debug, PartialEq, Eq)]
pub enum Dim {
    /// A number of indices, written as it is.
    Known(u64),
    /// An extent that isn't the same on all devices, written `?`. It stands in device form alone.
    Differs,
}

/// The extents of a tensor type, outermost first.
pub type Dims = Items<Dim>;

/// The type of a tensor, as `tensor<4x?xi32>`.
#[derive(Drop)]
pub struct TensorType {
    pub dims: Dims,
    pub width: Width,
}

/// The type of a value.
#[derive(Drop)]
pub enum ValueType {
    /// The type of no value: what an operation has that defines none.
    Nothing,
    /// An integer type, as `i32`.
    Scalar(Width),
    /// A tensor type, as `tensor<4x8xi32>`.
    Tensor(TensorType),
    /// The type `!shard.sharding`.
    Sharding,
    /// The type of a loop's index in the region of `linalg.generic`, written `index` there alone.
    Index,
}

/// Types in a written order, as those of an operation's operands.
pub type Types = Items<ValueType>;

/// A sharding as a text writes it: `@grid split_axes = [[0], [1]] halo_sizes = [1, 1]`.
///
/// Nothing is asked of it here: axes may not exist and offsets may not fit. A list that isn't written
/// is empty.
#[derive(Drop)]
pub struct RawSharding {
    /// The name of its grid.
    pub grid: Text,
    /// For each tensor dimension the grid axes that split it; missing trailing lists are empty.
    pub split: AxisLists,
    /// The cells that a shard holds besides its own: two numbers for each split dimension, at its
    /// start and at its end.
    pub halos: Numbers,
    /// For each split dimension the start of each part, then the extent.
    pub offsets: Numbers,
}
