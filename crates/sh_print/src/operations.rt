ghost use Rattle.std.specs.Prelude.{◌≡◌, OnOk, flat_map};
ghost use Rattle.sh_print.specs.Pages.{written};
ghost use Rattle.sh_print.specs.Tokens as tokens;

use crate::arith::{binary, cast, compare, constant, select};
use crate::linalg::{along, generic, reduce, structured};
use crate::printer::Printer;
use crate::scopes::Scope;
use crate::{shard, tensor};
use sh_base::Mem;
use sh_ir::{Op, OpKind};
use std::alloc::Global;

/// The operations of a function.
pub(crate) fn operations(
    alloc: Global,
    printer: &mut Printer,
    scope: &Scope,
    ops: &[Op],
) -> Result<(), Mem>
    ensures { OnOk result (printer.new ≡ written printer.old
        (flat_map (tokens.op_pieces scope.now) ops.now)) }
{
    for op in ops {
        operation(alloc, printer, scope, op)?;
    }
    Ok(())
}

/// An operation.
#[tactic(auto, unfolding(crate::specs::Tokens::op_pieces))]
fn operation(alloc: Global, printer: &mut Printer, scope: &Scope, op: &Op) -> Result<(), Mem>
    ensures { OnOk result (printer.new ≡ written printer.old (tokens.op_pieces scope.now op.now)) }
{
    defined(printer, scope, op.defines)?;
    right_side(alloc, printer, scope, op)?;
    printer.end_line()
}

/// The name of an operation's value, if it has one, and `=`.
#[tactic(auto, unfolding(crate::specs::Tokens::defined))]
fn defined(printer: &mut Printer, scope: &Scope, id: Option<u32>) -> Result<(), Mem>
    ensures { OnOk result (printer.new ≡ written printer.old (tokens.defined scope.now id)) }
{
    if let Some(id) = id {
        printer.value(scope.name(id))?;
        printer.sign(b'=')?;
    }
    Ok(())
}

/// The right side of an operation.
#[tactic(auto, unfolding(crate::specs::Tokens::kind_pieces))]
fn right_side(alloc: Global, printer: &mut Printer, scope: &Scope, op: &Op) -> Result<(), Mem>
    ensures { OnOk result (printer.new ≡ written printer.old
        (tokens.kind_pieces scope.now op.now.kind op.now.operands op.now.result)) }
{
    let ids = op.operands.as_slice();
    let a = scope.operand(ids, 0);
    let b = scope.operand(ids, 1);
    let c = scope.operand(ids, 2);
    let t = &op.result;
    match &op.kind {
        OpKind::Constant(it) => constant(printer, it),
        OpKind::Binary(it) => binary(printer, *it, a, b, t),
        OpKind::Compare(it) => compare(printer, it, a, b),
        OpKind::Select(it) => select(printer, &it.condition_type, a, b, c, t),
        OpKind::Cast(it) => cast(printer, it, a, t),
        OpKind::Empty => tensor::empty(printer, t),
        OpKind::ExtractSlice(it) => tensor::extract_slice(printer, it, a, t),
        OpKind::InsertSlice(it) => tensor::insert_slice(printer, it, a, b, t),
        OpKind::CollapseShape(it) => tensor::collapse_shape(printer, it, a, t),
        OpKind::ExpandShape(it) => tensor::expand_shape(printer, it, a, t),
        OpKind::Fill(it) => structured(printer, "linalg.fill", scope, it, ids, t),
        OpKind::Matmul(it) => structured(printer, "linalg.matmul", scope, it, ids, t),
        OpKind::BatchMatmul(it) => structured(printer, "linalg.batch_matmul", scope, it, ids, t),
        OpKind::Matvec(it) => structured(printer, "linalg.matvec", scope, it, ids, t),
        OpKind::Vecmat(it) => structured(printer, "linalg.vecmat", scope, it, ids, t),
        OpKind::Dot(it) => structured(printer, "linalg.dot", scope, it, ids, t),
        OpKind::Conv1d(it) => structured(printer, "linalg.conv_1d", scope, it, ids, t),
        OpKind::Conv2d(it) => structured(printer, "linalg.conv_2d", scope, it, ids, t),
        OpKind::Transpose(it) => along(
            printer,
            "linalg.transpose",
            scope,
            &it.ins_outs,
            ids,
            ("permutation", &it.permutation),
        ),
        OpKind::Broadcast(it) => along(
            printer,
            "linalg.broadcast",
            scope,
            &it.ins_outs,
            ids,
            ("dimensions", &it.dimensions),
        ),
        OpKind::Reduce(it) => reduce(alloc, printer, scope, it, ids),
        OpKind::Generic(it) => generic(alloc, printer, scope, it, ids, t),
        OpKind::Sharding(it) => shard::sharding(printer, it),
        OpKind::Shard(it) => shard::shard(printer, it, a, b, t),
        OpKind::AllGather(it) => shard::all_gather(printer, it, a, t),
        OpKind::AllSlice(it) => shard::all_slice(printer, it, a, t),
        OpKind::AllReduce(it) => shard::all_reduce(printer, it, a, t),
        OpKind::ReduceScatter(it) => shard::reduce_scatter(printer, it, a, t),
        OpKind::AllToAll(it) => shard::all_to_all(printer, it, a, t),
        OpKind::Shift(it) => shard::shift(printer, it, a, t),
        OpKind::UpdateHalo(it) => shard::update_halo(printer, it, a, t),
        OpKind::Take(it) => shard::take(printer, it, a, t),
        OpKind::Pad(it) => shard::pad(printer, it, a, t),
        OpKind::Join(it) => shard::join(printer, scope, it, ids, t),
        OpKind::Call(it) => shard::call(printer, scope, it, ids, t),
        OpKind::Return(it) => shard::returned(printer, scope, it, ids),
    }
}
