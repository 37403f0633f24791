ghost use Rattle.std.specs.Prelude.{◌≡◌, IfOk, map, nat_eq, option_map};
ghost use Rattle.std.specs.Cmp.Lexicographic.{pointwise};
ghost use Rattle.std.specs.List.{list_all};
ghost use Rattle.sh_eval.specs.Cuts.{cut_shape};
ghost use Rattle.sh_ir.specs.Classes.{class_of};
ghost use Rattle.sh_sem.specs.Given.{alone, gives_collapse, gives_constant, gives_expansion};
ghost use Rattle.sh_sem.specs.Given.{gives_insertion, gives_slice, gives_undefined, shape_by};
ghost use Rattle.sh_sem.specs.Pieces.{common_shape};

use crate::creators::known_extents;
use crate::evaluation::is_of;
use crate::reshapes::{collapsed_shape, expanded_shape};
use crate::shapes::{is_same, wide};
use crate::slices::{are_extents, are_inside, ranges_of, sizes};
use sh_base::Mem;
use sh_ir::{
    CollapseShape, Constant, Dim, ExpandShape, ExtractSlice, InsertSlice, Op, OpClass, OpKind,
};
use sh_sem::dims_of;
use sh_tensor::Tensor;
use std::alloc::Global;

// Extents of what operations give, which are cut as memory holds them, or none where the operands'
// shapes don't agree.

/// Whether the shapes of all tensors are this one.
fn are_same(s: &[u64], ts: &[&Tensor]) -> bool
    ensures { result
        ≡ list_all (pointwise nat_eq s.now) (map (λ t. t.shape) (map (λ t. t.now) ts.now)) }
{
    for at in 0..ts.len() {
        if !is_same(s, ts[at].shape().extents()) {
            return false;
        }
    }
    true
}

/// Those of tensors of one shape.
fn common_extents(alloc: Global, ts: &[&Tensor]) -> Result<Option<Vec<u128>>, Mem>
    ensures { IfOk result (λ out. option_map (λ all. all.items) out ≡ option_map cut_shape
        (common_shape (map (λ t. t.shape) (map (λ t. t.now) ts.now)))) }
{
    if ts.len() == 0 {
        return Ok(None);
    }
    let first = ts[0].shape().extents();
    let (_, others) = ts.split_at(1);
    if !are_same(first, others) {
        return Ok(None);
    }
    Ok(Some(wide(alloc, first)?))
}

/// Those of a literal.
fn constant_extents(
    alloc: Global,
    literal: &Constant,
    ts: &[&Tensor],
) -> Result<Option<Vec<u128>>, Mem>
    ensures { IfOk result (λ out. option_map (λ all. all.items) out ≡ option_map cut_shape
        ((gives_constant literal.now).shape (map (λ t. t.shape) (map (λ t. t.now) ts.now)))) }
{
    if ts.len() != 0 {
        return Ok(None);
    }
    known_extents(alloc, dims_of(&literal.value_type))
}

/// Those of a tensor of undefined cells.
fn empty_extents(alloc: Global, dims: &[Dim], ts: &[&Tensor]) -> Result<Option<Vec<u128>>, Mem>
    ensures { IfOk result (λ out. option_map (λ all. all.items) out ≡ option_map cut_shape
        ((gives_undefined dims.now).shape (map (λ t. t.shape) (map (λ t. t.now) ts.now)))) }
{
    if ts.len() != 0 {
        return Ok(None);
    }
    known_extents(alloc, dims)
}

/// Those of a slice.
fn slice_extents(alloc: Global, x: &ExtractSlice, ts: &[&Tensor]) -> Result<Option<Vec<u128>>, Mem>
    ensures { IfOk result (λ out. option_map (λ all. all.items) out ≡ option_map cut_shape
        ((gives_slice x.now).shape (map (λ t. t.shape) (map (λ t. t.now) ts.now)))) }
{
    if ts.len() != 1 {
        return Ok(None);
    }
    let source = ts[0].shape().extents();
    let ranges = ranges_of(alloc, &x.slice, dims_of(&x.source_type), source)?;
    if !are_inside(ranges.as_slice()) {
        return Ok(None);
    }
    Ok(Some(sizes(alloc, ranges.as_slice())?))
}

/// Those of a tensor with another in it.
fn insertion_extents(
    alloc: Global,
    x: &InsertSlice,
    dims: &[Dim],
    ts: &[&Tensor],
) -> Result<Option<Vec<u128>>, Mem>
    ensures { IfOk result (λ out. option_map (λ all. all.items) out ≡ option_map cut_shape
        ((gives_insertion x.now dims.now).shape (map (λ t. t.shape) (map (λ t. t.now) ts.now)))) }
{
    if ts.len() != 2 {
        return Ok(None);
    }
    let source = ts[0].shape().extents();
    let extents = ts[1].shape().extents();
    let ranges = ranges_of(alloc, &x.slice, dims, extents)?;
    if !are_inside(ranges.as_slice()) {
        return Ok(None);
    }
    if !are_extents(ranges.as_slice(), source) {
        return Ok(None);
    }
    Ok(Some(wide(alloc, extents)?))
}

/// Those of a tensor under fewer dimensions.
fn collapsed_extents(
    alloc: Global,
    x: &CollapseShape,
    ts: &[&Tensor],
) -> Result<Option<Vec<u128>>, Mem>
    ensures { IfOk result (λ out. option_map (λ all. all.items) out ≡ option_map cut_shape
        ((gives_collapse x.now).shape (map (λ t. t.shape) (map (λ t. t.now) ts.now)))) }
{
    if ts.len() != 1 {
        return Ok(None);
    }
    collapsed_shape(alloc, x.reassociation.as_slice(), ts[0].shape().extents())
}

/// Those of a tensor under more dimensions.
fn expanded_extents(
    alloc: Global,
    x: &ExpandShape,
    dims: &[Dim],
    ts: &[&Tensor],
) -> Result<Option<Vec<u128>>, Mem>
    ensures { IfOk result (λ out. option_map (λ all. all.items) out ≡ option_map cut_shape
        ((gives_expansion x.now dims.now).shape (map (λ t. t.shape) (map (λ t. t.now) ts.now)))) }
{
    if ts.len() != 1 {
        return Ok(None);
    }
    let reassociation = x.reassociation.as_slice();
    expanded_shape(alloc, dims, reassociation, ts[0].shape().extents())
}

/// Those of a creator or a layout; none of other kinds.
#[tactic(none)]
fn layout_extents(alloc: Global, op: &Op, ts: &[&Tensor]) -> Result<Option<Vec<u128>>, Mem>
    ensures { (class_of op.now.kind ≡ OpClass.Element → ⊥)
        → (class_of op.now.kind ≡ OpClass.Structured → ⊥)
        → (class_of op.now.kind ≡ OpClass.Convolution → ⊥)
        → (class_of op.now.kind ≡ OpClass.DeviceLayout → ⊥) → IfOk result
        (λ out. option_map (λ all. all.items) out ≡ option_map cut_shape
        (shape_by op.now alone (map (λ t. t.shape) (map (λ t. t.now) ts.now)))) }
{
    let dims = dims_of(&op.result);
    match &op.kind {
        OpKind::Constant(x) => constant_extents(alloc, x, ts),
        OpKind::Empty => empty_extents(alloc, dims, ts),
        OpKind::ExtractSlice(x) => slice_extents(alloc, x, ts),
        OpKind::InsertSlice(x) => insertion_extents(alloc, x, dims, ts),
        OpKind::CollapseShape(x) => collapsed_extents(alloc, x, ts),
        OpKind::ExpandShape(x) => expanded_extents(alloc, x, dims, ts),
        _ => Ok(None),
    }
}

/// Those of an operation that isn't structured.
pub(crate) fn extents_of(alloc: Global, op: &Op, ts: &[&Tensor]) -> Result<Option<Vec<u128>>, Mem>
    ensures { (class_of op.now.kind ≡ OpClass.Structured → ⊥)
        → (class_of op.now.kind ≡ OpClass.Convolution → ⊥)
        → (class_of op.now.kind ≡ OpClass.DeviceLayout → ⊥) → IfOk result
        (λ out. option_map (λ all. all.items) out ≡ option_map cut_shape
        (shape_by op.now alone (map (λ t. t.shape) (map (λ t. t.now) ts.now)))) }
{
    if is_of(op.kind.class(), OpClass::Element) {
        return common_extents(alloc, ts);
    }
    layout_extents(alloc, op, ts)
}
