ghost use Rattle.std.specs.Prelude.{◌≡◌, nat_eq, length};
ghost use Rattle.std.specs.Cmp.Lexicographic.{pointwise};
ghost use Rattle.sh_base.specs.Cells.{bits_of};
ghost use Rattle.sh_ir.specs.Agreement as agreement;

use crate::sizes::dims;
use sh_base::Width;
use sh_ir::{Dim, TensorType, ValueType};

/// How many bits a number of a width has.
pub(crate) fn bits(width: Width) -> u64
    ensures { result ≡ bits_of width }
{
    match width {
        Width::I1 => 1,
        Width::I8 => 8,
        Width::I16 => 16,
        Width::I32 => 32,
        Width::I64 => 64,
    }
}

/// How many bits a cell of a type has; 0 where the type has none.
pub(crate) fn cell_bits(value_type: &ValueType) -> u64
    ensures { result ≡ agreement.cell_bits value_type.now }
{
    match value_type {
        ValueType::Tensor(tensor) => bits(tensor.width),
        ValueType::Scalar(width) => bits(*width),
        ValueType::Nothing | ValueType::Sharding | ValueType::Index => 0,
    }
}

pub(crate) fn is_tensor(value_type: &ValueType) -> bool
    ensures { result ≡ agreement.is_tensor value_type.now }
{
    match value_type {
        ValueType::Tensor(_) => true,
        ValueType::Nothing | ValueType::Scalar(_) | ValueType::Sharding | ValueType::Index => false,
    }
}

fn same_dim(left: Dim, right: Dim) -> bool
    ensures { result ≡ agreement.same_dim left right }
{
    match left {
        Dim::Known(m) => match right {
            Dim::Known(n) => m == n,
            Dim::Differs => false,
        },
        Dim::Differs => match right {
            Dim::Known(_) => false,
            Dim::Differs => true,
        },
    }
}

/// Whether two extents agree: `?` may stand for any.
pub(crate) fn dim_agrees(left: Dim, right: Dim) -> bool
    ensures { result ≡ agreement.dims_agree left right }
{
    match left {
        Dim::Known(m) => match right {
            Dim::Known(n) => m == n,
            Dim::Differs => true,
        },
        Dim::Differs => true,
    }
}

fn same_dims(left: &[Dim], right: &[Dim]) -> bool
    ensures { result ≡ pointwise agreement.same_dim left.now right.now }
{
    if left.len() != right.len() {
        return false;
    }
    for (at, dim) in left.iter().enumerate() {
        if !same_dim(*dim, right[at]) {
            return false;
        }
    }
    true
}

/// Whether two shapes agree: one rank, and extents that agree.
pub(crate) fn shape_agrees(left: &[Dim], right: &[Dim]) -> bool
    ensures { result ≡ agreement.shapes_agree left.now right.now }
{
    if left.len() != right.len() {
        return false;
    }
    for (at, dim) in left.iter().enumerate() {
        if !dim_agrees(*dim, right[at]) {
            return false;
        }
    }
    true
}

fn same_tensor_type(left: &TensorType, right: &TensorType) -> bool
    ensures { result ≡ agreement.same_tensor_type left.now right.now }
{
    bits(left.width) == bits(right.width) && same_dims(left.dims.as_slice(), right.dims.as_slice())
}

/// Whether two types are one.
pub(crate) fn same_type(left: &ValueType, right: &ValueType) -> bool
    ensures { result ≡ agreement.same_type left.now right.now }
{
    match left {
        ValueType::Tensor(t) => match right {
            ValueType::Tensor(u) => same_tensor_type(t, u),
            _ => false,
        },
        ValueType::Scalar(v) => match right {
            ValueType::Scalar(w) => bits(*v) == bits(*w),
            _ => false,
        },
        ValueType::Nothing => matches!(right, ValueType::Nothing),
        ValueType::Sharding => matches!(right, ValueType::Sharding),
        ValueType::Index => matches!(right, ValueType::Index),
    }
}

pub(crate) fn has_same_bits(left: &ValueType, right: &ValueType) -> bool
    ensures { result ≡ agreement.same_bits left.now right.now }
{
    cell_bits(left) == cell_bits(right)
}

pub(crate) fn has_same_rank_and_bits(left: &ValueType, right: &ValueType) -> bool
    ensures { result ≡ agreement.same_rank_and_bits left.now right.now }
{
    has_same_bits(left, right) && dims(left).len() == dims(right).len()
}

/// Whether two types are tensor types of one width whose shapes agree.
#[tactic(auto, unfolding(sh_ir::specs::Agreement::types_agree))]
pub(crate) fn type_agrees(left: &ValueType, right: &ValueType) -> bool
    ensures { result ≡ agreement.types_agree left.now right.now }
{
    if !is_tensor(left) || !is_tensor(right) {
        return false;
    }
    has_same_bits(left, right) && shape_agrees(dims(left), dims(right))
}
