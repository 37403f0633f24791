ghost use Rattle.std.specs.Prelude.{◌≡◌, ◌≤◌, ◌<◌, ◌^◌, ◌↔◌, ℕ, List, Option, All, IfOk, IfSome, IsTrue, Some, ◌∷◌, [], length, map};
ghost use Rattle.std.specs.Prelude.{option_and_then, option_map, get_or};
ghost use Rattle.std.specs.List.{AllByRecursion};
ghost use Rattle.sh_base.specs.Shape.{cell_count, max_cells, max_rank};
ghost use Rattle.sh_eval.specs.Cuts.{cut_shape};
ghost use Rattle.sh_eval.specs.Rules.{rule_cell};
ghost use Rattle.sh_eval.specs.Values.{GivesFew, IsFew, known_value, piece_in};
ghost use Rattle.sh_sem.specs.Given.{built_of, gives_collapse, gives_expansion, gives_insertion};
ghost use Rattle.sh_sem.specs.Given.{gives_join, gives_padding, gives_piece, gives_slice, of_dims};
ghost use Rattle.sh_sem.specs.Pieces.{Piece};

use crate::pieces::TensorPiece;
use crate::reshapes::{collapsed_shape, expanded_shape};
use crate::rules::CellRule;
use crate::shapes::{has_cut_extents, joined_shape, narrow, padded_shape, wide, with_extent};
use crate::slices::{are_extents, are_inside, ranges_of, sizes};
use sh_base::{Duplicate, Mem, Shape, Width, count};
use sh_ir::{CollapseShape, Dim, ExpandShape, ExtractSlice, InsertSlice, Pad};
use sh_loops::made;
use sh_sem::dims_of;
use sh_tensor::Tensor;
use std::alloc::Global;

// ---- by the shape

/// Whether each extent is below two to the 64.
fn are_words(extents: &[u128]) -> bool
    ensures { IsTrue result ↔ All (λ n. n < 2 ^ 64) extents.now }
{
    for extent in extents {
        if *extent > u128::from(u64::MAX) {
            return false;
        }
    }
    true
}

/// The shape of extents, which are cut, if it has those that a type knows, and few cells.
pub(crate) fn fitting(alloc: Global, dims: &[Dim], extents: &[u128]) -> Option<Shape>
    requires rank { length dims.now ≤ max_rank }
    ensures value { (s : List ℕ) → extents.now ≡ cut_shape s → IfSome (of_dims dims.now s) IsFew
        → result ≡ of_dims dims.now s }
    ensures small { IfSome result (λ shape. cell_count shape ≤ max_cells) }
{
    if !has_cut_extents(dims, extents) {
        return None;
    }
    if !are_words(extents) {
        return None;
    }
    let shape = narrow(alloc, extents);
    match count(&shape) {
        Some(_) => Some(shape),
        None => None,
    }
}

/// The tensor of these extents, which are cut, by the rule of its cells; none where it hasn't the
/// extents that its type knows. The first operand is `t`.
fn laid_out(
    alloc: Global,
    dims: &[Dim],
    width: Width,
    rule: &CellRule,
    t: &Tensor,
    ts: &[&Tensor],
    extents: &[u128],
) -> Result<Option<Tensor>, Mem>
    requires rank { length dims.now ≤ max_rank }
    requires first { t.now.width ≡ width }
    requires widths { AllByRecursion (λ t. t.width ≡ width) (map (λ t. t.now) ts.now) }
    ensures { (s : List ℕ) → extents.now ≡ cut_shape s → IfSome (of_dims dims.now s) IsFew
        → IfOk result (λ out. out ≡ option_and_then (λ shape. built_of shape width
        (λ i. Some (rule_cell rule.now t.now (map (λ t. t.now) ts.now) shape i)))
        (of_dims dims.now s)) }
{
    match fitting(alloc, dims, extents) {
        Some(shape) => {
            let cells = rule.cells(alloc, t, ts, width, &shape)?;
            Ok(made(shape, width, Some(cells)))
        }
        None => Ok(None),
    }
}

// ---- by kinds

/// What a slice of a tensor gives.
pub(crate) fn extract_op(
    alloc: Global,
    x: &ExtractSlice,
    dims: &[Dim],
    width: Width,
    ts: &[&Tensor],
) -> Result<Option<Tensor>, Mem>
    requires rank { length dims.now ≤ max_rank }
    requires widths { AllByRecursion (λ t. t.width ≡ width) (map (λ t. t.now) ts.now) }
    requires few { GivesFew (gives_slice x.now) dims.now (map (λ t. t.now) ts.now) }
    ensures { IfOk result (λ out. out
        ≡ known_value (gives_slice x.now) dims.now width (map (λ t. t.now) ts.now)) }
{
    if ts.len() != 1 {
        return Ok(None);
    }
    let t = ts[0];
    let ranges = ranges_of(
        alloc,
        &x.slice,
        dims_of(&x.source_type),
        t.shape().extents(),
    )?;
    if !are_inside(ranges.as_slice()) {
        return Ok(None);
    }
    let extents = sizes(alloc, ranges.as_slice())?;
    let rule = CellRule::Sliced(ranges);
    laid_out(alloc, dims, width, &rule, t, ts, extents.as_slice())
}

/// What a tensor gives that is put into another.
pub(crate) fn insert_op(
    alloc: Global,
    x: &InsertSlice,
    dims: &[Dim],
    width: Width,
    ts: &[&Tensor],
) -> Result<Option<Tensor>, Mem>
    requires rank { length dims.now ≤ max_rank }
    requires widths { AllByRecursion (λ t. t.width ≡ width) (map (λ t. t.now) ts.now) }
    requires few { GivesFew (gives_insertion x.now dims.now) dims.now (map (λ t. t.now) ts.now) }
    ensures { IfOk result (λ out. out
        ≡ known_value (gives_insertion x.now dims.now) dims.now width (map (λ t. t.now) ts.now)) }
{
    if ts.len() != 2 {
        return Ok(None);
    }
    let t = ts[0];
    let extents = ts[1].shape().extents();
    let ranges = ranges_of(alloc, &x.slice, dims, extents)?;
    if !are_inside(ranges.as_slice()) {
        return Ok(None);
    }
    if !are_extents(ranges.as_slice(), t.shape().extents()) {
        return Ok(None);
    }
    let extents = wide(alloc, extents)?;
    let rule = CellRule::Inserted(ranges);
    laid_out(alloc, dims, width, &rule, t, ts, extents.as_slice())
}

/// What a tensor under fewer dimensions gives.
pub(crate) fn collapse_op(
    alloc: Global,
    x: &CollapseShape,
    dims: &[Dim],
    width: Width,
    ts: &[&Tensor],
) -> Result<Option<Tensor>, Mem>
    requires rank { length dims.now ≤ max_rank }
    requires widths { AllByRecursion (λ t. t.width ≡ width) (map (λ t. t.now) ts.now) }
    requires few { GivesFew (gives_collapse x.now) dims.now (map (λ t. t.now) ts.now) }
    ensures { IfOk result (λ out. out
        ≡ known_value (gives_collapse x.now) dims.now width (map (λ t. t.now) ts.now)) }
{
    if ts.len() != 1 {
        return Ok(None);
    }
    let t = ts[0];
    match collapsed_shape(alloc, x.reassociation.as_slice(), t.shape().extents())? {
        Some(extents) => laid_out(
            alloc,
            dims,
            width,
            &CellRule::Reshaped,
            t,
            ts,
            extents.as_slice(),
        ),
        None => Ok(None),
    }
}

/// What a tensor under more dimensions gives.
pub(crate) fn expand_op(
    alloc: Global,
    x: &ExpandShape,
    dims: &[Dim],
    width: Width,
    ts: &[&Tensor],
) -> Result<Option<Tensor>, Mem>
    requires rank { length dims.now ≤ max_rank }
    requires widths { AllByRecursion (λ t. t.width ≡ width) (map (λ t. t.now) ts.now) }
    requires few { GivesFew (gives_expansion x.now dims.now) dims.now (map (λ t. t.now) ts.now) }
    ensures { IfOk result (λ out. out
        ≡ known_value (gives_expansion x.now dims.now) dims.now width (map (λ t. t.now) ts.now)) }
{
    if ts.len() != 1 {
        return Ok(None);
    }
    let t = ts[0];
    match expanded_shape(alloc, dims, x.reassociation.as_slice(), t.shape().extents())? {
        Some(extents) => laid_out(
            alloc,
            dims,
            width,
            &CellRule::Reshaped,
            t,
            ts,
            extents.as_slice(),
        ),
        None => Ok(None),
    }
}

/// What a piece of a tensor along an axis gives, if there is one.
pub(crate) fn piece_op(
    alloc: Global,
    axis: u64,
    piece: Option<TensorPiece>,
    dims: &[Dim],
    width: Width,
    t: &Tensor,
    ts: &[&Tensor],
) -> Result<Option<Tensor>, Mem>
    requires rank { length dims.now ≤ max_rank }
    requires alone { map (λ t. t.now) ts.now ≡ t.now ∷ [] }
    requires widths { AllByRecursion (λ t. t.width ≡ width) (map (λ t. t.now) ts.now) }
    ensures { (f : ℕ → Option Piece) → option_map piece_in piece ≡ f (get_or t.now.shape axis 0)
        → GivesFew (gives_piece axis f) dims.now (map (λ t. t.now) ts.now) → IfOk result (λ out. out
        ≡ known_value (gives_piece axis f) dims.now width (map (λ t. t.now) ts.now)) }
{
    match piece {
        Some(piece) => {
            let extents = with_extent(alloc, t.shape().extents(), axis, piece.size)?;
            let rule = CellRule::Moved(axis, piece.start);
            laid_out(alloc, dims, width, &rule, t, ts, extents.as_slice())
        }
        None => Ok(None),
    }
}

/// What a tensor with undefined cells round it gives.
pub(crate) fn pad_op(
    alloc: Global,
    x: &Pad,
    dims: &[Dim],
    width: Width,
    ts: &[&Tensor],
) -> Result<Option<Tensor>, Mem>
    requires rank { length dims.now ≤ max_rank }
    requires widths { AllByRecursion (λ t. t.width ≡ width) (map (λ t. t.now) ts.now) }
    requires few { GivesFew (gives_padding x.now) dims.now (map (λ t. t.now) ts.now) }
    ensures { IfOk result (λ out. out
        ≡ known_value (gives_padding x.now) dims.now width (map (λ t. t.now) ts.now)) }
{
    if ts.len() != 1 {
        return Ok(None);
    }
    let t = ts[0];
    let low = x.low.as_slice();
    let extents = padded_shape(alloc, low, x.high.as_slice(), t.shape().extents())?;
    let rule = CellRule::Padded(x.low.duplicate(alloc)?);
    laid_out(alloc, dims, width, &rule, t, ts, extents.as_slice())
}

/// What tensors one after the other along an axis give.
pub(crate) fn join_op(
    alloc: Global,
    axis: u64,
    dims: &[Dim],
    width: Width,
    ts: &[&Tensor],
) -> Result<Option<Tensor>, Mem>
    requires rank { length dims.now ≤ max_rank }
    requires widths { AllByRecursion (λ t. t.width ≡ width) (map (λ t. t.now) ts.now) }
    requires few { GivesFew (gives_join axis) dims.now (map (λ t. t.now) ts.now) }
    ensures { IfOk result (λ out. out
        ≡ known_value (gives_join axis) dims.now width (map (λ t. t.now) ts.now)) }
{
    match joined_shape(alloc, axis, ts)? {
        Some(extents) => {
            let rule = CellRule::Joined(axis);
            laid_out(alloc, dims, width, &rule, ts[0], ts, extents.as_slice())
        }
        None => Ok(None),
    }
}
