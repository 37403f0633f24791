ghost use Rattle.std.specs.Prelude.{◌≡◌, ◌++◌, ◌∷◌, []};
ghost use Rattle.std.specs.Option.{option_copied};
ghost use Rattle.sh_ir.specs.Loops.{generic_of};
ghost use Rattle.sh_ir.specs.Written.{written_by, written_in_body};
ghost use Rattle.sh_verify.specs.LimitFaults.{is_written};

use sh_ir::{Body, BodyKind, Generic, InsOuts, OpKind, ValueType};
use std::slice::from_ref;

/// The types that the text of an operation writes besides that of the value: two lists, one after the
/// other.
#[derive(Clone, Copy)]
pub(crate) struct WrittenTypes<'a> {
    pub first: &'a [ValueType],
    pub second: &'a [ValueType],
}

fn one(value_type: &ValueType) -> WrittenTypes<'_>
    ensures { result.first.now ++ result.second.now ≡ value_type.now ∷ [] }
{
    WrittenTypes {
        first: from_ref(value_type),
        second: &[],
    }
}

fn none<'a>() -> WrittenTypes<'a>
    ensures { result.first.now ++ result.second.now ≡ [] }
{
    WrittenTypes {
        first: &[],
        second: &[],
    }
}

fn many(types: &[ValueType]) -> WrittenTypes<'_>
    ensures { result.first.now ++ result.second.now ≡ types.now }
{
    WrittenTypes {
        first: types,
        second: &[],
    }
}

fn both(x: &InsOuts) -> WrittenTypes<'_>
    ensures { result.first.now ++ result.second.now ≡ x.now.ins_types ++ x.now.outs_types }
{
    WrittenTypes {
        first: x.ins_types.as_slice(),
        second: x.outs_types.as_slice(),
    }
}

/// The types that an operation writes besides that of its value.
pub(crate) fn written_types(kind: &OpKind) -> WrittenTypes<'_>
    ensures { result.first.now ++ result.second.now ≡ (written_by kind.now).types }
{
    match kind {
        OpKind::Constant(x) => one(&x.value_type),
        OpKind::Binary(_) | OpKind::Empty | OpKind::Sharding(_) | OpKind::Shard(_) => none(),
        OpKind::Compare(x) => one(&x.operand_type),
        OpKind::Select(x) => one(&x.condition_type),
        OpKind::Cast(x) => one(&x.operand_type),
        OpKind::ExtractSlice(x) => one(&x.source_type),
        OpKind::InsertSlice(x) => one(&x.source_type),
        OpKind::CollapseShape(x) => one(&x.source_type),
        OpKind::ExpandShape(x) => one(&x.source_type),
        OpKind::Fill(x) => both(x),
        OpKind::Matmul(x) => both(x),
        OpKind::BatchMatmul(x) => both(x),
        OpKind::Matvec(x) => both(x),
        OpKind::Vecmat(x) => both(x),
        OpKind::Dot(x) => both(x),
        OpKind::Conv1d(x) => both(x),
        OpKind::Conv2d(x) => both(x),
        OpKind::Transpose(x) => both(&x.ins_outs),
        OpKind::Broadcast(x) => both(&x.ins_outs),
        OpKind::Reduce(x) => both(&x.ins_outs),
        OpKind::Generic(x) => both(&x.ins_outs),
        OpKind::AllGather(x) => one(&x.operand_type),
        OpKind::AllSlice(x) => one(&x.operand_type),
        OpKind::AllReduce(x) => one(&x.operand_type),
        OpKind::ReduceScatter(x) => one(&x.operand_type),
        OpKind::AllToAll(x) => one(&x.operand_type),
        OpKind::Shift(x) => one(&x.operand_type),
        OpKind::UpdateHalo(_) => none(),
        OpKind::Take(x) => one(&x.operand_type),
        OpKind::Pad(x) => one(&x.operand_type),
        OpKind::Join(x) => many(x.operand_types.as_slice()),
        OpKind::Call(x) => many(x.operand_types.as_slice()),
        OpKind::Return(x) => many(x.operand_types.as_slice()),
    }
}

/// Whether the text of an operation gives the type of its value.
pub(crate) fn writes_result(kind: &OpKind) -> bool
    ensures { result ≡ is_written (written_by kind.now).result }
{
    match kind {
        OpKind::Constant(_)
        | OpKind::Compare(_)
        | OpKind::Transpose(_)
        | OpKind::Broadcast(_)
        | OpKind::Reduce(_)
        | OpKind::Sharding(_)
        | OpKind::Return(_) => false,
        _ => true,
    }
}

/// The region of an operation.
pub(crate) fn region(kind: &OpKind) -> Option<&Body>
    ensures { option_copied result ≡ (written_by kind.now).body }
{
    match kind {
        OpKind::Reduce(x) => Some(&x.body),
        OpKind::Generic(x) => Some(&x.body),
        _ => None,
    }
}

/// The generic that an operation is, if it is one.
#[tactic(auto, unfolding(sh_ir::specs::Loops::generic_of))]
pub(crate) fn generic(kind: &OpKind) -> Option<&Generic>
    ensures { option_copied result ≡ generic_of kind.now }
{
    match kind {
        OpKind::Generic(x) => Some(x),
        _ => None,
    }
}

/// The types that an operation of a region writes besides that of its value.
pub(crate) fn types_in_body(kind: &BodyKind) -> WrittenTypes<'_>
    ensures { result.first.now ++ result.second.now ≡ (written_in_body kind.now).types }
{
    match kind {
        BodyKind::Constant(x) => one(&x.value_type),
        BodyKind::Compare(x) => one(&x.operand_type),
        BodyKind::Select(x) => one(&x.condition_type),
        BodyKind::Cast(x) => one(&x.operand_type),
        BodyKind::Binary(_) | BodyKind::Index(_) | BodyKind::IndexCast => none(),
    }
}

pub(crate) fn writes_result_in_body(kind: &BodyKind) -> bool
    ensures { result ≡ is_written (written_in_body kind.now).result }
{
    match kind {
        BodyKind::Constant(_) | BodyKind::Compare(_) | BodyKind::Index(_) => false,
        BodyKind::Binary(_) | BodyKind::Select(_) | BodyKind::Cast(_) | BodyKind::IndexCast => true,
    }
}
