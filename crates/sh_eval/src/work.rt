ghost use Rattle.std.specs.Prelude.{◌≡◌, ◌≤◌, ◌⊎◌, IfOk, None, length, map, option_map};
ghost use Rattle.sh_base.specs.Shape.{max_rank};
ghost use Rattle.sh_eval.specs.Cuts.{cut_extent};
ghost use Rattle.sh_eval.specs.Evaluations.{CanEvaluate, FitsKind, KindGivesFew};
ghost use Rattle.sh_eval.specs.VerifiedOps.{HasTensor};
ghost use Rattle.sh_eval.specs.Sizes.{kind_sized, sized};
ghost use Rattle.sh_eval.specs.Work.{work_of as work_by_shapes};
ghost use Rattle.sh_ir.specs.Agreement.{dims_of as dims_of_type};
ghost use Rattle.sh_ir.specs.Classes.{class_of};
ghost use Rattle.sh_ir.specs.Loops.{structure_of};
ghost use Rattle.sh_sem.specs.Given.{alone, shape_given};

use crate::extents::extents_of;
use crate::layouts::fitting;
use crate::shapes::has_extents;
use crate::typing::are_known;
use sh_base::Mem;
use sh_ir::{Op, OpClass};
use sh_loops::{NestSize, is_structured, nest_size};
use sh_sem::{count_of, dims_of};
use sh_tensor::Tensor;
use std::alloc::Global;

/// The work of each operation, beside its cells and its loop points.
const BASE_WORK: u128 = 16;

/// How large what a structured operation gives is.
fn structured_size(alloc: Global, op: &Op, ts: &[&Tensor]) -> Result<Option<NestSize>, Mem>
    requires fits { FitsKind op.now.kind op.now.operands op.now.result (map (λ t. t.now) ts.now) }
    requires class { (class_of op.now.kind ≡ OpClass.Structured)
        ⊎ (class_of op.now.kind ≡ OpClass.Convolution) }
    ensures { IfOk result (λ out. out
        ≡ kind_sized op.now (map (λ t. t.shape) (map (λ t. t.now) ts.now))) }
{
    match nest_size(alloc, &op.kind, ts)? {
        Some(size) => {
            if has_extents(dims_of(&op.result), size.shape.extents()) {
                Ok(Some(size))
            } else {
                Ok(None)
            }
        }
        None => Ok(None),
    }
}

/// How large what another operation gives is.
fn plain_size(alloc: Global, op: &Op, ts: &[&Tensor]) -> Result<Option<NestSize>, Mem>
    requires rank { length (dims_of_type op.now.result) ≤ max_rank }
    requires few { KindGivesFew op.now alone (map (λ t. t.now) ts.now) }
    requires none { structure_of op.now.kind ≡ None }
    requires class { (class_of op.now.kind ≡ OpClass.Structured)
        ⊎ (class_of op.now.kind ≡ OpClass.Convolution) → ⊥ }
    requires source { class_of op.now.kind ≡ OpClass.DeviceLayout → ⊥ }
    ensures { IfOk result (λ out. out
        ≡ kind_sized op.now (map (λ t. t.shape) (map (λ t. t.now) ts.now))) }
{
    match extents_of(alloc, op, ts)? {
        Some(extents) => match fitting(alloc, dims_of(&op.result), extents.as_slice()) {
            Some(shape) => Ok(Some(NestSize { shape, points: 0 })),
            None => Ok(None),
        },
        None => Ok(None),
    }
}

/// How large what an operation gives is; none where it is stuck by the shapes.
fn size_of(alloc: Global, op: &Op, ts: &[&Tensor]) -> Result<Option<NestSize>, Mem>
    requires can { CanEvaluate op.now alone (map (λ t. t.now) ts.now) }
    requires computes { HasTensor (class_of op.now.kind) }
    ensures { IfOk result (λ out. out
        ≡ sized op.now (map (λ t. t.shape) (map (λ t. t.now) ts.now))) }
{
    if !are_known(&op.kind, &op.result, ts) {
        return Ok(None);
    }
    if is_structured(&op.kind) {
        return structured_size(alloc, op, ts);
    }
    plain_size(alloc, op, ts)
}

/// The work of an operation, at most one less than 2 to the 128; none where it is stuck by the
/// shapes.
pub(crate) fn work_of(alloc: Global, op: &Op, ts: &[&Tensor]) -> Result<Option<u128>, Mem>
    requires can { CanEvaluate op.now alone (map (λ t. t.now) ts.now) }
    requires computes { HasTensor (class_of op.now.kind) }
    ensures { IfOk result (λ out. out ≡ option_map
        (λ shape. cut_extent (work_by_shapes op.now (map (λ t. t.shape) (map (λ t. t.now) ts.now)) shape))
        (shape_given op.now alone (map (λ t. t.shape) (map (λ t. t.now) ts.now)))) }
{
    match size_of(alloc, op, ts)? {
        Some(size) => {
            let cells = count_of(&size.shape) as u128;
            Ok(Some((BASE_WORK + cells).saturating_add(size.points)))
        }
        None => Ok(None),
    }
}
