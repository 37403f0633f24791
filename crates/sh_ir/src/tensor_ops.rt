use crate::types::ValueType;
use sh_base::{AxisLists, Numbers};

/// The cells of a slice: along each dimension `size` cells from `offset` on, `stride` apart.
#[derive(Drop)]
pub struct Slice {
    pub offsets: Numbers,
    pub sizes: Numbers,
    pub strides: Numbers,
}

/// The attributes of `tensor.extract_slice`.
#[derive(Drop)]
pub struct ExtractSlice {
    pub slice: Slice,
    /// The type before `to`, that of the tensor that is read.
    pub source_type: ValueType,
}

/// The attributes of `tensor.insert_slice`.
#[derive(Drop)]
pub struct InsertSlice {
    pub slice: Slice,
    /// The type before `into`, that of the tensor that is written into the other.
    pub source_type: ValueType,
}

/// The attributes of `tensor.collapse_shape`.
#[derive(Drop)]
pub struct CollapseShape {
    /// For each result dimension the source dimensions that it stands for.
    pub reassociation: AxisLists,
    /// The type before `into`.
    pub source_type: ValueType,
}

/// The attributes of `tensor.expand_shape`.
#[derive(Drop)]
pub struct ExpandShape {
    /// For each source dimension the result dimensions that stand for it.
    pub reassociation: AxisLists,
    /// The extents of the result.
    pub output_shape: Numbers,
    /// The type before `into`.
    pub source_type: ValueType,
}
