use crate::bodies::Body;
use crate::types::Types;
use sh_base::{Ids, Items, Numbers};

/// What `ins(%a, %b : T, U) outs(%c : V)` writes. The values that both name are the first operands of
/// the operation, in this order.
#[derive(Drop)]
pub struct InsOuts {
    /// How many values `ins` names.
    pub ins_count: usize,
    /// The types that `ins` writes.
    pub ins_types: Types,
    /// How many values `outs` names.
    pub outs_count: usize,
    /// The types that `outs` writes.
    pub outs_types: Types,
}

/// The attributes of `linalg.transpose`.
#[derive(Drop)]
pub struct Transpose {
    pub ins_outs: InsOuts,
    /// For each result dimension the input dimension that it is.
    pub permutation: Numbers,
}

/// The attributes of `linalg.broadcast`.
#[derive(Drop)]
pub struct Broadcast {
    pub ins_outs: InsOuts,
    /// The result dimensions that the input lacks.
    pub dimensions: Numbers,
}

/// The attributes and the region of `linalg.reduce`.
#[derive(Drop)]
pub struct Reduce {
    pub ins_outs: InsOuts,
    /// The input dimensions that the result lacks.
    pub dimensions: Numbers,
    pub body: Body,
}

/// The map of loops to the dimensions of one operand, as `affine_map<(d0, d1) -> (d1)>`.
///
/// Its words are numbered by first occurrence, so their spelling is lost: the words on the left of a
/// map that names each loop once are 0, 1 and so on.
#[derive(Drop)]
pub struct AffineMap {
    /// The words on the left, which name the loops.
    pub loops: Ids,
    /// The words on the right: for each dimension a loop.
    pub results: Ids,
}

/// The maps of an operation's operands, the output's last.
pub type AffineMaps = Items<AffineMap>;

/// What a loop of `linalg.generic` is.
#[derive(Clone, Copy, PartialEq, Eq)]
pub enum IteratorType {
    /// Written `"parallel"`: a dimension of the output.
    Parallel,
    /// Written `"reduction"`: the output is folded over it.
    Reduction,
    /// Another string, which no verified module has.
    Unknown,
}

/// One entry for each loop.
pub type IteratorTypes = Items<IteratorType>;

/// The attributes and the region of `linalg.generic`.
#[derive(Drop)]
pub struct Generic {
    pub ins_outs: InsOuts,
    pub indexing_maps: AffineMaps,
    pub iterator_types: IteratorTypes,
    pub body: Body,
}
