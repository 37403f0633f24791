ghost use Rattle.std.specs.Prelude.{◌≡◌, ◌&&◌, flat_map};
ghost use Rattle.sh_ir.specs.Limits.{has_few_inputs, has_few_loops};
ghost use Rattle.sh_ir.specs.Rules.{op_types_of};
ghost use Rattle.sh_verify.specs.Least.{by_place, least_of};
ghost use Rattle.sh_verify.specs.LimitFaults.{are_few_cells, are_few_dims, body_op_limits, body_op_types, op_limits, region_limits};

use crate::least::unless_kept;
use crate::sizes::{all_few_cells, all_few_dims, is_few_cells, is_few_dims};
use crate::written::{
    generic, region, types_in_body, writes_result, writes_result_in_body, written_types,
};
use sh_base::{Refusal, Rule};
use sh_ir::{BodyOp, Op, OpKind};

/// The greatest number of loops of an operation.
pub const MAX_LOOPS: usize = 6;

/// The greatest number of inputs of `linalg.generic` in source form.
pub const MAX_SOURCE_INPUTS: usize = 3;

/// The same in device form, where the starts of loops join them.
pub const MAX_DEVICE_INPUTS: usize = 9;

fn has_small_ranks(op: &Op) -> bool
    ensures { result ≡ are_few_dims (op_types_of op.now) }
{
    let types = written_types(&op.kind);
    all_few_dims(types.first)
        && all_few_dims(types.second)
        && (!writes_result(&op.kind) || is_few_dims(&op.result))
}

fn has_small_types(op: &Op) -> bool
    ensures { result ≡ are_few_cells (op_types_of op.now) }
{
    let types = written_types(&op.kind);
    all_few_cells(types.first)
        && all_few_cells(types.second)
        && (!writes_result(&op.kind) || is_few_cells(&op.result))
}

#[tactic(auto, unfolding(sh_ir::specs::Limits::has_few_loops))]
fn loops_fit(kind: &OpKind) -> bool
    ensures { result ≡ has_few_loops kind.now }
{
    match generic(kind) {
        Some(x) => x.iterator_types.len() <= MAX_LOOPS,
        None => true,
    }
}

#[tactic(auto, unfolding(sh_ir::specs::Limits::has_few_inputs))]
fn inputs_fit(in_device: bool, kind: &OpKind) -> bool
    ensures { result ≡ has_few_inputs in_device kind.now }
{
    let most = if in_device {
        MAX_DEVICE_INPUTS
    } else {
        MAX_SOURCE_INPUTS
    };
    match generic(kind) {
        Some(x) => x.ins_outs.ins_count <= most,
        None => true,
    }
}

fn has_small_ranks_in_body(op: &BodyOp) -> bool
    ensures { result ≡ are_few_dims (body_op_types op.now) }
{
    let types = types_in_body(&op.kind);
    all_few_dims(types.first)
        && all_few_dims(types.second)
        && (!writes_result_in_body(&op.kind) || is_few_dims(&op.result))
}

fn has_small_types_in_body(op: &BodyOp) -> bool
    ensures { result ≡ are_few_cells (body_op_types op.now) }
{
    let types = types_in_body(&op.kind);
    all_few_cells(types.first)
        && all_few_cells(types.second)
        && (!writes_result_in_body(&op.kind) || is_few_cells(&op.result))
}

#[tactic(auto, using(crate::proofs::LeastLaws::least_of_both), unfolding(crate::specs::LimitFaults::body_op_limits))]
fn check_body_op(least: Option<Refusal>, op: &BodyOp) -> Option<Refusal>
    ensures { result ≡ least_of by_place least (body_op_limits op.now) }
{
    let least = unless_kept(least, has_small_ranks_in_body(op), op.place, Rule::L2);
    unless_kept(least, has_small_types_in_body(op), op.place, Rule::L4)
}

fn check_body_ops(least: Option<Refusal>, ops: &[BodyOp]) -> Option<Refusal>
    ensures { result ≡ least_of by_place least (flat_map body_op_limits ops.now) }
{
    let mut found = least;
    for op in ops {
        found = check_body_op(found, op);
    }
    found
}

#[tactic(auto, unfolding(crate::specs::LimitFaults::region_limits))]
fn check_region(least: Option<Refusal>, op: &Op) -> Option<Refusal>
    ensures { result ≡ least_of by_place least (region_limits op.now) }
{
    match region(&op.kind) {
        Some(body) => check_body_ops(least, body.ops.as_slice()),
        None => least,
    }
}

/// The least of the refusals so far and of what breaks a limit in an operation.
#[tactic(auto, using(crate::proofs::LeastLaws::least_of_both), unfolding(crate::specs::LimitFaults::op_limits))]
fn check_op(least: Option<Refusal>, in_device: bool, op: &Op) -> Option<Refusal>
    ensures { result ≡ least_of by_place least (op_limits in_device op.now) }
{
    let ranks = has_small_ranks(op) && loops_fit(&op.kind);
    let least = unless_kept(least, ranks, op.place, Rule::L2);
    let least = unless_kept(least, has_small_types(op), op.place, Rule::L4);
    let least = unless_kept(least, inputs_fit(in_device, &op.kind), op.place, Rule::L6);
    check_region(least, op)
}

/// The same of operations.
pub(crate) fn check_ops(least: Option<Refusal>, in_device: bool, ops: &[Op]) -> Option<Refusal>
    ensures { result ≡ least_of by_place least (flat_map (op_limits in_device) ops.now) }
{
    let mut found = least;
    for op in ops {
        found = check_op(found, in_device, op);
    }
    found
}
