ghost use Rattle.std.specs.Prelude.{◌≡◌, ◌∷◌, [], Some, None, map, slice_get};
ghost use Rattle.std.specs.Option.{option_copied};
ghost use Rattle.sh_ir.specs.Classes.{class_of};
ghost use Rattle.sh_ir.specs.Typing.{operand_types, typing_of};
ghost use Rattle.sh_sem.specs.Given.{have_all_extents as all_have_extents};

use crate::shapes::has_extents;
use sh_ir::{InsOuts, OpClass, OpKind, ValueType};
use sh_sem::dims_of;
use sh_tensor::Tensor;

/// One of two types.
fn either<'a>(first: &'a ValueType, second: &'a ValueType, at: usize) -> Option<&'a ValueType>
    ensures { option_copied result ≡ slice_get (first.now ∷ second.now ∷ []) at }
{
    match at {
        0 => Some(first),
        1 => Some(second),
        _ => None,
    }
}

/// A type, for the first operand alone.
fn alone(first: &ValueType, at: usize) -> Option<&ValueType>
    ensures { option_copied result ≡ slice_get (first.now ∷ []) at }
{
    if at == 0 { Some(first) } else { None }
}

/// The types of a choice's operands: one of the condition, and one of both others.
fn choice_type<'a>(
    condition: &'a ValueType,
    others: &'a ValueType,
    at: usize,
) -> Option<&'a ValueType>
    ensures { option_copied result ≡ slice_get (condition.now ∷ others.now ∷ others.now ∷ []) at }
{
    match at {
        0 => Some(condition),
        1 | 2 => Some(others),
        _ => None,
    }
}

/// The types of the inputs and the output of a structured operation.
fn structured_type(types: &InsOuts, at: usize) -> Option<&ValueType>
    ensures { option_copied result ≡ slice_get (operand_types types.now) at }
{
    let count = types.ins_types.len();
    if at < count {
        return types.ins_types.as_slice().get(at);
    }
    types.outs_types.as_slice().get(at - count)
}

/// The type that is written for an operand, if one is; not asked of a note.
#[tactic(auto, unfolding(sh_ir::specs::Typing::typing_of))]
fn written_type<'a>(
    kind: &'a OpKind,
    result_type: &'a ValueType,
    at: usize,
) -> Option<&'a ValueType>
    ensures { (class_of kind.now ≡ OpClass.Note → ⊥)
        → option_copied result ≡ slice_get (typing_of kind.now result_type.now) at }
{
    match kind {
        OpKind::Binary(_) => either(result_type, result_type, at),
        OpKind::Compare(x) => either(&x.operand_type, &x.operand_type, at),
        OpKind::Select(x) => choice_type(&x.condition_type, result_type, at),
        OpKind::Cast(x) => alone(&x.operand_type, at),
        OpKind::ExtractSlice(x) => alone(&x.source_type, at),
        OpKind::InsertSlice(x) => either(&x.source_type, result_type, at),
        OpKind::CollapseShape(x) => alone(&x.source_type, at),
        OpKind::ExpandShape(x) => alone(&x.source_type, at),
        OpKind::Fill(x) => structured_type(x, at),
        OpKind::Matmul(x) => structured_type(x, at),
        OpKind::BatchMatmul(x) => structured_type(x, at),
        OpKind::Matvec(x) => structured_type(x, at),
        OpKind::Vecmat(x) => structured_type(x, at),
        OpKind::Dot(x) => structured_type(x, at),
        OpKind::Conv1d(x) => structured_type(x, at),
        OpKind::Conv2d(x) => structured_type(x, at),
        OpKind::Transpose(x) => structured_type(&x.ins_outs, at),
        OpKind::Broadcast(x) => structured_type(&x.ins_outs, at),
        OpKind::Reduce(x) => structured_type(&x.ins_outs, at),
        OpKind::Generic(x) => structured_type(&x.ins_outs, at),
        OpKind::AllGather(x) => alone(&x.operand_type, at),
        OpKind::AllSlice(x) => alone(&x.operand_type, at),
        OpKind::AllReduce(x) => alone(&x.operand_type, at),
        OpKind::ReduceScatter(x) => alone(&x.operand_type, at),
        OpKind::AllToAll(x) => alone(&x.operand_type, at),
        OpKind::Shift(x) => alone(&x.operand_type, at),
        OpKind::UpdateHalo(_) => alone(result_type, at),
        OpKind::Take(x) => alone(&x.operand_type, at),
        OpKind::Pad(x) => alone(&x.operand_type, at),
        OpKind::Join(x) => x.operand_types.as_slice().get(at),
        OpKind::Call(x) => x.operand_types.as_slice().get(at),
        OpKind::Return(x) => x.operand_types.as_slice().get(at),
        OpKind::Constant(_) | OpKind::Empty | OpKind::Sharding(_) | OpKind::Shard(_) => None,
    }
}

/// Whether the operands have the extents that the types which are written for them know; not asked
/// of a note.
pub(crate) fn are_known(kind: &OpKind, result_type: &ValueType, ts: &[&Tensor]) -> bool
    ensures { (class_of kind.now ≡ OpClass.Note → ⊥) → result ≡ all_have_extents
        (typing_of kind.now result_type.now) (map (λ t. t.shape) (map (λ t. t.now) ts.now)) }
{
    for at in 0..ts.len() {
        match written_type(kind, result_type, at) {
            Some(t) => {
                if !has_extents(dims_of(t), ts[at].shape().extents()) {
                    return false;
                }
            }
            None => return true,
        }
    }
    true
}
