use crate::types::ValueType;
use sh_base::{CastOp, Cells, Predicate};

/// A literal with its type: that of `arith.constant`, or an argument of a call item.
#[derive(Drop)]
pub struct Constant {
    pub value_type: ValueType,
    pub contents: Contents,
}

/// What a literal holds.
///
/// A literal of a type with an extent of 0 holds no cell. One whose cells are all equal holds that
/// cell once. Every other one holds all its cells, row-major.
#[derive(Drop)]
pub enum Contents {
    /// Cells, each a number below two to the width.
    Held(Cells),
    /// The literal doesn't fit its type: a number is out of range, a nested list hasn't the type's
    /// shape, or a dense literal has a scalar type.
    Broken,
}

/// The attributes of `arith.cmpi`.
#[derive(Drop)]
pub struct Compare {
    pub predicate: Predicate,
    /// The written type, that of both operands.
    pub operand_type: ValueType,
}

/// The attributes of `arith.select`.
#[derive(Drop)]
pub struct Select {
    /// The first written type. Where one type alone is written this is the scalar `i1`.
    pub condition_type: ValueType,
}

/// The attributes of `arith.extsi`, `arith.extui` and `arith.trunci`.
#[derive(Drop)]
pub struct Cast {
    pub op: CastOp,
    /// The type before `to`, that of the operand.
    pub operand_type: ValueType,
}
