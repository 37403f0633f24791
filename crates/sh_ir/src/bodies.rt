use crate::arith_ops::{Cast, Compare, Constant, Select};
use crate::types::ValueType;
use sh_base::{BinOp, Ids, Items, Place, Width, Widths};

/// The attribute of `linalg.index`.
#[derive(Clone, Copy, PartialEq, Eq)]
pub struct Index {
    /// The number of the loop, the outermost being 0.
    pub dimension: u64,
}

/// What an operation of a region body is.
///
/// The first five are those of the `arith` dialect on scalars; their syntax and meaning stand at the
/// variants of [`crate::OpKind`] of the same names. The last two stand in the region of
/// `linalg.generic` alone.
#[derive(Drop)]
pub enum BodyKind {
    Constant(Constant),
    Binary(BinOp),
    Compare(Compare),
    Select(Select),
    Cast(Cast),

    /// `%i = linalg.index N : index`
    ///
    /// The coordinate of the loop point along loop `N`. It has the type [`ValueType::Index`].
    ///
    /// `%i = linalg.index 1 : index`
    Index(Index),

    /// `%r = arith.index_cast %i : index to WIDTH`
    ///
    /// The index as a scalar of the width, modulo two to the width.
    ///
    /// `%r = arith.index_cast %i : index to i32`
    IndexCast,
}

/// An operation of a region body. Each defines a value.
#[derive(Drop)]
pub struct BodyOp {
    pub kind: BodyKind,
    /// Names of the body or of the function.
    pub operands: Ids,
    /// The name that it defines.
    pub defines: u32,
    pub result: ValueType,
    pub place: Place,
}

/// The operations of a region body in order, without its `linalg.yield`.
pub type BodyOps = Items<BodyOp>;

/// The region body of `linalg.reduce` or `linalg.generic`: what is done at one loop point.
///
/// Its block arguments stand for the cells of the inputs and then for the value so far of the output.
/// What it yields is the next value of the output.
#[derive(Drop)]
pub struct Body {
    /// The block arguments.
    pub args: Ids,
    /// The written types of the block arguments.
    pub widths: Widths,
    pub ops: BodyOps,
    /// The operand of `linalg.yield`.
    pub yields: u32,
    /// The written type of that operand.
    pub width: Width,
    /// Where the `linalg.yield` stands.
    pub place: Place,
}
