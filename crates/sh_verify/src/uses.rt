ghost use Rattle.std.specs.Prelude.{◌≡◌, ◌+◌, ◌++◌, [], ◌∷◌, drop, take};
ghost use Rattle.std.specs.List.{list_all};
ghost use Rattle.sh_ir.specs.Rules as rules;
ghost use Rattle.sh_ir.specs.Scope.{is_defined};
ghost use Rattle.sh_ir.specs.Typing as typing;
ghost use Rattle.sh_ir.specs.Written.{written_by};
ghost use Rattle.sh_verify.specs.OperandLists.{listed_types, sharding_if};
ghost use Rattle.sh_ir.specs.declared.types.ValueType.TheVariants as value_types;

use crate::agreement::same_type;
use crate::context::Context;
use crate::operands::operands_fit;
use crate::typing::{counts_fit, has_no_scalars};
use sh_ir::{InsOuts, Op, OpKind, ValueType};
use std::slice::from_ref;

// ---- the operands that the text writes

fn count_named(x: &InsOuts) -> u128
    ensures { result ≡ x.now.ins_count + x.now.outs_count }
{
    x.ins_count as u128 + x.outs_count as u128
}

/// How many operands the text of an operation writes, where the form leaves no choice.
fn written_count(kind: &OpKind) -> Option<u128>
    ensures { result ≡ (written_by kind.now).operands }
{
    match kind {
        OpKind::Constant(_) | OpKind::Empty | OpKind::Sharding(_) => Some(0),
        OpKind::Binary(_) | OpKind::Compare(_) | OpKind::InsertSlice(_) | OpKind::Shard(_) => Some(
            2,
        ),
        OpKind::Select(_) => Some(3),
        OpKind::Cast(_)
        | OpKind::ExtractSlice(_)
        | OpKind::CollapseShape(_)
        | OpKind::ExpandShape(_)
        | OpKind::AllGather(_)
        | OpKind::AllSlice(_)
        | OpKind::AllReduce(_)
        | OpKind::ReduceScatter(_)
        | OpKind::AllToAll(_)
        | OpKind::Shift(_)
        | OpKind::UpdateHalo(_)
        | OpKind::Take(_)
        | OpKind::Pad(_) => Some(1),
        OpKind::Fill(x) => Some(count_named(x)),
        OpKind::Matmul(x) => Some(count_named(x)),
        OpKind::BatchMatmul(x) => Some(count_named(x)),
        OpKind::Matvec(x) => Some(count_named(x)),
        OpKind::Vecmat(x) => Some(count_named(x)),
        OpKind::Dot(x) => Some(count_named(x)),
        OpKind::Conv1d(x) => Some(count_named(x)),
        OpKind::Conv2d(x) => Some(count_named(x)),
        OpKind::Transpose(x) => Some(count_named(&x.ins_outs)),
        OpKind::Broadcast(x) => Some(count_named(&x.ins_outs)),
        OpKind::Reduce(x) => Some(count_named(&x.ins_outs)),
        OpKind::Generic(x) => Some(count_named(&x.ins_outs)),
        OpKind::Join(_) | OpKind::Call(_) | OpKind::Return(_) => None,
    }
}

/// So many of the first names.
fn first_names(names: &[u32], count: u128) -> &[u32]
    ensures { result.now ≡ take count names.now }
{
    if count < names.len() as u128 {
        let (front, _) = names.split_at(count as usize);
        front
    } else {
        names
    }
}

/// The operands that the text writes; behind them come those that a region takes.
fn written_operands(op: &Op) -> &[u32]
    ensures { result.now ≡ typing.written_operands op.now }
{
    match written_count(&op.kind) {
        Some(count) => first_names(op.operands.as_slice(), count),
        None => op.operands.as_slice(),
    }
}

/// Whether a name is defined before.
pub(crate) fn is_defined(context: &Context<'_>, name: u32) -> bool
    ensures { result ≡ is_defined context.now.values name }
{
    match context.value_type(name) {
        Some(_) => true,
        None => false,
    }
}

fn are_defined(context: &Context<'_>, names: &[u32]) -> bool
    ensures { result ≡ list_all (is_defined context.now.values) names.now }
{
    for name in names {
        if !is_defined(context, *name) {
            return false;
        }
    }
    true
}

/// Whether each written operand is defined before.
#[tactic(auto, unfolding(sh_ir::specs::Rules::uses_defined))]
pub(crate) fn uses_defined(context: &Context<'_>, op: &Op) -> bool
    ensures { result ≡ rules.uses_defined context.now op.now }
{
    are_defined(context, written_operands(op))
}

// ---- their types

/// The types that are written for the operands: lists, one after the other.
#[derive(Clone, Copy)]
pub(crate) struct OperandTypes<'a> {
    first: &'a [ValueType],
    second: &'a [ValueType],
    third: &'a [ValueType],
    /// Whether a sharding comes last.
    sharding: bool,
}

fn none<'a>() -> OperandTypes<'a>
    ensures { listed_types result ≡ [] }
{
    OperandTypes {
        first: &[],
        second: &[],
        third: &[],
        sharding: false,
    }
}

fn one(value_type: &ValueType) -> OperandTypes<'_>
    ensures { listed_types result ≡ value_type.now ∷ [] }
{
    OperandTypes {
        first: from_ref(value_type),
        second: &[],
        third: &[],
        sharding: false,
    }
}

fn two<'a>(first: &'a ValueType, second: &'a ValueType) -> OperandTypes<'a>
    ensures { listed_types result
        ≡ first.now ∷ second.now ∷ [] }
{
    OperandTypes {
        first: from_ref(first),
        second: from_ref(second),
        third: &[],
        sharding: false,
    }
}

fn choice<'a>(condition: &'a ValueType, arm: &'a ValueType) -> OperandTypes<'a>
    ensures { listed_types result
        ≡ condition.now ∷ arm.now ∷ arm.now ∷ [] }
{
    OperandTypes {
        first: from_ref(condition),
        second: from_ref(arm),
        third: from_ref(arm),
        sharding: false,
    }
}

fn named(x: &InsOuts) -> OperandTypes<'_>
    ensures { listed_types result ≡ typing.operand_types x.now }
{
    OperandTypes {
        first: x.ins_types.as_slice(),
        second: x.outs_types.as_slice(),
        third: &[],
        sharding: false,
    }
}

fn listed(types: &[ValueType]) -> OperandTypes<'_>
    ensures { listed_types result ≡ types.now }
{
    OperandTypes {
        first: types,
        second: &[],
        third: &[],
        sharding: false,
    }
}

fn noted(value_type: &ValueType) -> OperandTypes<'_>
    ensures { listed_types result ≡ value_type.now ∷ value_types.Sharding ∷ [] }
{
    OperandTypes {
        first: from_ref(value_type),
        second: &[],
        third: &[],
        sharding: true,
    }
}

/// The types that are written for the operands, in order.
#[tactic(auto, unfolding(sh_ir::specs::Typing::typing_of))]
fn operand_types<'a>(kind: &'a OpKind, result_type: &'a ValueType) -> OperandTypes<'a>
    ensures { listed_types result
        ≡ typing.typing_of kind.now result_type.now }
{
    match kind {
        OpKind::Constant(_) | OpKind::Empty | OpKind::Sharding(_) => none(),
        OpKind::Binary(_) => two(result_type, result_type),
        OpKind::Compare(x) => two(&x.operand_type, &x.operand_type),
        OpKind::Select(x) => choice(&x.condition_type, result_type),
        OpKind::Cast(x) => one(&x.operand_type),
        OpKind::ExtractSlice(x) => one(&x.source_type),
        OpKind::InsertSlice(x) => two(&x.source_type, result_type),
        OpKind::CollapseShape(x) => one(&x.source_type),
        OpKind::ExpandShape(x) => one(&x.source_type),
        OpKind::Fill(x) => named(x),
        OpKind::Matmul(x) => named(x),
        OpKind::BatchMatmul(x) => named(x),
        OpKind::Matvec(x) => named(x),
        OpKind::Vecmat(x) => named(x),
        OpKind::Dot(x) => named(x),
        OpKind::Conv1d(x) => named(x),
        OpKind::Conv2d(x) => named(x),
        OpKind::Transpose(x) => named(&x.ins_outs),
        OpKind::Broadcast(x) => named(&x.ins_outs),
        OpKind::Reduce(x) => named(&x.ins_outs),
        OpKind::Generic(x) => named(&x.ins_outs),
        OpKind::Shard(_) => noted(result_type),
        OpKind::AllGather(x) => one(&x.operand_type),
        OpKind::AllSlice(x) => one(&x.operand_type),
        OpKind::AllReduce(x) => one(&x.operand_type),
        OpKind::ReduceScatter(x) => one(&x.operand_type),
        OpKind::AllToAll(x) => one(&x.operand_type),
        OpKind::Shift(x) => one(&x.operand_type),
        OpKind::UpdateHalo(_) => one(result_type),
        OpKind::Take(x) => one(&x.operand_type),
        OpKind::Pad(x) => one(&x.operand_type),
        OpKind::Join(x) => listed(x.operand_types.as_slice()),
        OpKind::Call(x) => listed(x.operand_types.as_slice()),
        OpKind::Return(x) => listed(x.operand_types.as_slice()),
    }
}

/// Whether a value is of a type; of one that isn't defined no type is asked.
fn is_of_type(context: &Context<'_>, value_type: &ValueType, name: u32) -> bool
    ensures { result ≡ typing.is_of_type context.now.values value_type.now name }
{
    match context.value_type(name) {
        Some(own) => same_type(own, value_type),
        None => true,
    }
}

fn are_of_types(context: &Context<'_>, types: &[ValueType], names: &[u32]) -> bool
    ensures { result ≡ typing.are_of_types context.now.values types.now names.now }
{
    for (at, value_type) in types.iter().enumerate() {
        match names.get(at) {
            Some(name) => {
                if !is_of_type(context, value_type, *name) {
                    return false;
                }
            }
            None => return true,
        }
    }
    true
}

/// The names behind so many.
pub(crate) fn other_names(names: &[u32], count: usize) -> &[u32]
    ensures { result.now ≡ drop count names.now }
{
    if count < names.len() {
        let (_, back) = names.split_at(count);
        back
    } else {
        &[]
    }
}

/// Whether the first name, if there is one and a sharding is wanted, is of one.
fn is_of_sharding(context: &Context<'_>, wanted: bool, names: &[u32]) -> bool
    ensures { result ≡ typing.are_of_types context.now.values (sharding_if wanted) names.now }
{
    match names.first() {
        Some(name) => !wanted || is_sharding(context, *name),
        None => true,
    }
}

fn is_sharding(context: &Context<'_>, name: u32) -> bool
    ensures { result ≡ typing.is_of_type context.now.values value_types.Sharding name }
{
    match context.value_type(name) {
        Some(own) => matches!(own, ValueType::Sharding),
        None => true,
    }
}

/// From the third list on.
fn are_last_typed(context: &Context<'_>, types: OperandTypes<'_>, names: &[u32]) -> bool
    ensures { result ≡ typing.are_of_types context.now.values
        (types.entry.third.now ++ sharding_if types.entry.sharding) names.now }
{
    let others = other_names(names, types.third.len());
    are_of_types(context, types.third, names) && is_of_sharding(context, types.sharding, others)
}

/// From the second list on.
fn are_others_typed(context: &Context<'_>, types: OperandTypes<'_>, names: &[u32]) -> bool
    ensures { result ≡ typing.are_of_types context.now.values (types.entry.second.now
        ++ (types.entry.third.now ++ sharding_if types.entry.sharding)) names.now }
{
    let others = other_names(names, types.second.len());
    are_of_types(context, types.second, names) && are_last_typed(context, types, others)
}

fn are_typed(context: &Context<'_>, types: OperandTypes<'_>, names: &[u32]) -> bool
    ensures { result ≡ typing.are_of_types context.now.values (listed_types types.entry) names.now }
{
    let others = other_names(names, types.first.len());
    are_of_types(context, types.first, names) && are_others_typed(context, types, others)
}

fn has_types(context: &Context<'_>, op: &Op) -> bool
    ensures { result ≡ typing.are_of_types context.now.values
        (typing.typing_of op.now.kind op.now.result) (typing.written_operands op.now) }
{
    are_typed(
        context,
        operand_types(&op.kind, &op.result),
        written_operands(op),
    )
}

/// Whether there are as many operands as the kind has, of the types that are written, which are
/// types that it takes.
#[tactic(auto, unfolding(sh_ir::specs::Rules::takes_operands))]
pub(crate) fn takes_operands(context: &Context<'_>, op: &Op) -> bool
    ensures { result ≡ rules.takes_operands context.now op.now }
{
    counts_fit(&op.kind, op.operands.as_slice())
        && has_types(context, op)
        && has_no_scalars(&op.kind, &op.result)
        && operands_fit(context, &op.kind, &op.result)
}
