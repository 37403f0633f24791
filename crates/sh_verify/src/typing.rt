ghost use Rattle.std.specs.Prelude.{◌≡◌, length, not};
ghost use Rattle.std.specs.List.{list_all};
ghost use Rattle.sh_ir.specs.Typing as typing;
ghost use Rattle.sh_ir.specs.Operands as fitting;
ghost use Rattle.sh_ir.specs.Results as results;
ghost use Rattle.sh_ir.specs.Formed as formed;
ghost use Rattle.sh_ir.specs.Written.{written_by};

use crate::agreement::{cell_bits, is_tensor, shape_agrees, type_agrees};
use crate::sizes::dims;
use crate::written::{writes_result, written_types};
use sh_base::CastOp;
use sh_ir::{InsOuts, OpKind, ValueType};

pub(crate) fn is_scalar(value_type: &ValueType) -> bool
    ensures { result ≡ formed.is_scalar value_type.now }
{
    match value_type {
        ValueType::Scalar(_) => true,
        ValueType::Nothing | ValueType::Tensor(_) | ValueType::Sharding | ValueType::Index => false,
    }
}

fn names_typed(x: &InsOuts) -> bool
    ensures { result ≡ typing.names_typed x.now }
{
    x.ins_types.len() == x.ins_count && x.outs_types.len() == x.outs_count
}

fn names(inputs: usize, x: &InsOuts) -> bool
    ensures { result ≡ typing.names inputs x.now }
{
    x.ins_count == inputs && x.outs_count == 1 && names_typed(x)
}

/// As many operands as the kind has, and a type for each.
#[tactic(auto, unfolding(sh_ir::specs::Typing::counts_fit))]
pub(crate) fn counts_fit(kind: &OpKind, operands: &[u32]) -> bool
    ensures { result ≡ typing.counts_fit kind.now operands.now }
{
    match kind {
        OpKind::Fill(x) => names(1, x),
        OpKind::Matmul(x) => names(2, x),
        OpKind::BatchMatmul(x) => names(2, x),
        OpKind::Matvec(x) => names(2, x),
        OpKind::Vecmat(x) => names(2, x),
        OpKind::Dot(x) => names(2, x),
        OpKind::Conv1d(x) => names(2, x),
        OpKind::Conv2d(x) => names(2, x),
        OpKind::Transpose(x) => names(1, &x.ins_outs),
        OpKind::Broadcast(x) => names(1, &x.ins_outs),
        OpKind::Reduce(x) => names(1, &x.ins_outs),
        OpKind::Generic(x) => names_typed(&x.ins_outs),
        OpKind::Join(x) => operands.len() > 0 && operands.len() == x.operand_types.len(),
        OpKind::Call(x) => operands.len() == x.operand_types.len(),
        OpKind::Return(x) => operands.len() == x.operand_types.len(),
        _ => true,
    }
}

fn no_scalars(types: &[ValueType]) -> bool
    ensures { result ≡ list_all (λ t. not (formed.is_scalar t)) types.now }
{
    types.iter().all(|value_type| !is_scalar(value_type))
}

fn writes_no_scalars(kind: &OpKind, result_type: &ValueType) -> bool
    ensures { result ≡ list_all (λ t. not (formed.is_scalar t)) (formed.types_in (written_by kind.now) result_type.now) }
{
    let types = written_types(kind);
    no_scalars(types.first)
        && no_scalars(types.second)
        && (!writes_result(kind) || !is_scalar(result_type))
}

/// Whether no scalar type stands where none may.
#[tactic(auto, unfolding(sh_ir::specs::Typing::tensor_types))]
pub(crate) fn has_no_scalars(kind: &OpKind, result_type: &ValueType) -> bool
    ensures { result ≡ typing.has_no_scalars kind.now result_type.now }
{
    match kind {
        OpKind::Constant(_) | OpKind::Return(_) => true,
        OpKind::Fill(x) => no_scalars(x.outs_types.as_slice()) && !is_scalar(result_type),
        _ => writes_no_scalars(kind, result_type),
    }
}

pub(crate) fn changes_bits(op: CastOp, from: u64, to: u64) -> bool
    ensures { result ≡ results.changes_bits op from to }
{
    match op {
        CastOp::Extsi | CastOp::Extui => from < to,
        CastOp::Trunci => to < from,
    }
}

/// Whether a cast widens or narrows as it should, and keeps the shape.
#[tactic(auto, unfolding(sh_ir::specs::Results::is_cast))]
pub(crate) fn is_cast(op: CastOp, from: &ValueType, to: &ValueType) -> bool
    ensures { result ≡ results.is_cast op from.now to.now }
{
    changes_bits(op, cell_bits(from), cell_bits(to)) && shape_agrees(dims(from), dims(to))
}

/// The type of the output; where a generic has none, its maps are refused.
pub(crate) fn has_output_type(outs: &[ValueType], result_type: &ValueType) -> bool
    ensures { result ≡ results.has_output_type outs.now result_type.now }
{
    match outs.first() {
        Some(value_type) => type_agrees(value_type, result_type),
        None => true,
    }
}

/// Whether a condition is `i1` in the shape of a type.
#[tactic(auto, unfolding(sh_ir::specs::Operands::is_test_of))]
pub(crate) fn is_test_of(condition: &ValueType, value_type: &ValueType) -> bool
    ensures { result ≡ fitting.is_test_of condition.now value_type.now }
{
    is_tensor(condition)
        && cell_bits(condition) == 1
        && shape_agrees(dims(condition), dims(value_type))
}
