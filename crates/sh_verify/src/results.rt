ghost use Rattle.std.specs.Prelude.{◌≡◌, ◌&&◌, ◌||◌, map, not, true};
ghost use Rattle.std.specs.Cmp.Lexicographic.{pointwise};
ghost use Rattle.std.specs.Option.{option_map_or};
ghost use Rattle.sh_ir.specs.declared.types.Dim.TheVariants.{Known};
ghost use Rattle.sh_ir.specs.Agreement as agreement;
ghost use Rattle.sh_ir.specs.Attributes as attributes;
ghost use Rattle.sh_ir.specs.Numbers as numbers;
ghost use Rattle.sh_ir.specs.Results as results;
ghost use Rattle.sh_ir.specs.Scope.{func_item, group_size};
ghost use Rattle.sh_ir.specs.Written.{first_type};
ghost use Rattle.sh_verify.specs.Relations.{relates};

use crate::agreement::{
    cell_bits, has_same_bits, has_same_rank_and_bits, shape_agrees, type_agrees,
};
use crate::attributes::{first_has_dim, group, has_dim, numbers_fit, pieces_fit};
use crate::context::Context;
use crate::joins::are_joined;
use crate::numbers::natural;
use crate::relations::{Relation, are_related};
use crate::sizes::dims;
use crate::slices::products_fit;
use crate::typing::{has_output_type, is_cast};
use sh_ir::{
    AllToAll, Call, CollapseShape, Dim, ExpandShape, ExtractSlice, GridAxes, Join, OpKind, Pad,
    Take, ValueType,
};

// ---- written extents

/// Whether a written number is that of an extent, as far as that is known.
fn is_written(number: &i128, dim: Dim) -> bool
    ensures { result ≡ agreement.dims_agree (Known (numbers.as_natural number.now)) dim }
{
    match dim {
        Dim::Known(extent) => natural(number) == extent as u128,
        Dim::Differs => true,
    }
}

/// Whether written numbers are the extents, as far as these are known.
pub(crate) fn are_extents(written: &[i128], extents: &[Dim]) -> bool
    ensures { result ≡ agreement.shapes_agree (numbers.known_dims written.now) extents.now }
{
    if written.len() != extents.len() {
        return false;
    }
    for (at, number) in written.iter().enumerate() {
        if !is_written(number, extents[at]) {
            return false;
        }
    }
    true
}

// ---- slices and reshapes

/// Whether an extent is that of a slice of this size along a dimension, as far as it is known: a
/// dimension whose extent is `?` is taken whole.
fn is_sliced(size: &i128, whole: Dim, part: Dim) -> bool
    ensures { result ≡ agreement.dims_agree (attributes.sliced_dim size.now whole) part }
{
    match whole {
        Dim::Known(_) => is_written(size, part),
        Dim::Differs => true,
    }
}

/// Whether extents are those of a slice of these sizes.
pub(crate) fn are_sliced(sizes: &[i128], whole: &[Dim], part: &[Dim]) -> bool
    ensures { result ≡ agreement.shapes_agree (attributes.sliced_dims sizes.now whole.now) part.now }
{
    if sizes.len().min(whole.len()) != part.len() {
        return false;
    }
    for (at, dim) in part.iter().enumerate() {
        if !is_sliced(&sizes[at], whole[at], *dim) {
            return false;
        }
    }
    true
}

#[tactic(auto, unfolding(sh_ir::specs::Results::is_slice))]
fn is_slice(in_order: bool, x: &ExtractSlice, result_type: &ValueType) -> bool
    ensures { result ≡ results.is_slice in_order x.now result_type.now }
{
    has_same_rank_and_bits(&x.source_type, result_type)
        && (!in_order
            || are_sliced(
                x.slice.sizes.as_slice(),
                dims(&x.source_type),
                dims(result_type),
            ))
}

fn is_collapsed(in_order: bool, x: &CollapseShape, result_type: &ValueType) -> bool
    ensures { result ≡ (agreement.same_bits x.now.source_type result_type.now
        && (not in_order || results.products_fit (agreement.dims_of result_type.now)
        x.now.reassociation (agreement.dims_of x.now.source_type))) }
{
    let groups = x.reassociation.as_slice();
    has_same_bits(&x.source_type, result_type)
        && (!in_order || products_fit(dims(result_type), groups, dims(&x.source_type)))
}

#[tactic(auto, unfolding(sh_ir::specs::Results::is_expanded))]
fn has_shape(x: &ExpandShape, result_type: &ValueType) -> bool
    ensures { result ≡ results.is_expanded x.now result_type.now }
{
    let groups = x.reassociation.as_slice();
    are_extents(x.output_shape.as_slice(), dims(result_type))
        && products_fit(dims(&x.source_type), groups, dims(result_type))
}

fn is_expanded(in_order: bool, x: &ExpandShape, result_type: &ValueType) -> bool
    ensures { result ≡ (agreement.same_bits x.now.source_type result_type.now
        && (not in_order || results.is_expanded x.now result_type.now)) }
{
    has_same_bits(&x.source_type, result_type) && (!in_order || has_shape(x, result_type))
}

// ---- along a dimension

/// Whether a type has the rank and the width of another, and where the dimensions are there, the
/// extents that follow from it.
fn follows(relation: Relation<'_>, asked: bool, from: &ValueType, to: &ValueType) -> bool
    ensures { result ≡ (agreement.same_rank_and_bits from.now to.now && (not asked
        || agreement.all_related (relates relation.entry) 0 (agreement.dims_of from.now)
        (agreement.dims_of to.now))) }
{
    has_same_rank_and_bits(from, to) && (!asked || are_related(relation, dims(from), dims(to)))
}

#[tactic(auto, unfolding(sh_ir::specs::Results::along, crate::specs::Relations::relates))]
fn is_gathered(
    context: &Context<'_>,
    on: &GridAxes,
    axis: u64,
    from: &ValueType,
    to: &ValueType,
) -> bool
    ensures { result ≡ (agreement.same_rank_and_bits from.now to.now
        && (not (attributes.has_dim from.now axis)
        || results.along axis (results.is_gathered (group_size context.now on.now))
        from.now to.now)) }
{
    let relation = Relation::Gathered(axis, group(context, on));
    follows(relation, has_dim(from, axis), from, to)
}

#[tactic(auto, unfolding(sh_ir::specs::Results::along, crate::specs::Relations::relates))]
fn is_piece(
    context: &Context<'_>,
    on: &GridAxes,
    axis: u64,
    from: &ValueType,
    to: &ValueType,
) -> bool
    ensures { result ≡ (agreement.same_rank_and_bits from.now to.now
        && (not (attributes.has_dim from.now axis)
        || results.along axis (results.is_piece (group_size context.now on.now)) from.now to.now)) }
{
    let relation = Relation::Piece(axis, group(context, on));
    follows(relation, has_dim(from, axis), from, to)
}

#[tactic(auto, unfolding(crate::specs::Relations::relates))]
fn is_exchanged(context: &Context<'_>, x: &AllToAll, to: &ValueType) -> bool
    ensures { result ≡ (agreement.same_rank_and_bits x.now.operand_type to.now
        && (not (attributes.has_dim x.now.operand_type x.now.split_axis
        && attributes.has_dim x.now.operand_type x.now.concat_axis)
        || agreement.all_related
        (results.exchanged (group_size context.now x.now.on) x.now.split_axis x.now.concat_axis) 0
        (agreement.dims_of x.now.operand_type) (agreement.dims_of to.now))) }
{
    let from = &x.operand_type;
    let asked = has_dim(from, x.split_axis) && has_dim(from, x.concat_axis);
    let relation = Relation::Exchanged(x.split_axis, x.concat_axis, group(context, &x.on));
    follows(relation, asked, from, to)
}

#[tactic(auto, unfolding(sh_ir::specs::Results::along, crate::specs::Relations::relates))]
fn is_taken(context: &Context<'_>, x: &Take, to: &ValueType) -> bool
    ensures { result ≡ (agreement.same_rank_and_bits x.now.operand_type to.now
        && (not (attributes.has_dim x.now.operand_type x.now.axis)
        || results.along x.now.axis (λ d e. not (attributes.pieces_fit context.now x.now)
        || results.is_of_sizes (numbers.as_naturals x.now.sizes) e) x.now.operand_type to.now)) }
{
    let from = &x.operand_type;
    let relation = Relation::Sized(x.axis, pieces_fit(context, x), x.sizes.as_slice());
    follows(relation, has_dim(from, x.axis), from, to)
}

#[tactic(auto, unfolding(crate::specs::Relations::relates))]
fn is_padded(in_order: bool, x: &Pad, to: &ValueType) -> bool
    ensures { result ≡ (agreement.same_rank_and_bits x.now.operand_type to.now
        && (not in_order || agreement.all_related
        (results.is_padded (numbers.as_naturals x.now.low) (numbers.as_naturals x.now.high)) 0
        (agreement.dims_of x.now.operand_type) (agreement.dims_of to.now))) }
{
    let relation = Relation::Padded(x.low.as_slice(), x.high.as_slice());
    follows(relation, in_order, &x.operand_type, to)
}

// ---- calls

/// Whether a type is the only one, and the given one agrees with it.
fn is_only(types: &[ValueType], value_type: &ValueType) -> bool
    ensures { result ≡ results.is_only types.now value_type.now }
{
    match types {
        [only] => type_agrees(only, value_type),
        _ => false,
    }
}

#[tactic(auto, unfolding(sh_ir::specs::Results::callee_gives))]
fn callee_gives(context: &Context<'_>, x: &Call, result_type: &ValueType) -> bool
    ensures { result ≡ results.callee_gives context.now x.now result_type.now }
{
    match context.func(x.callee.as_slice()) {
        Some(f) => is_only(f.results.as_slice(), result_type),
        None => true,
    }
}

// ---- joins

fn is_join_of(x: &Join, result_type: &ValueType) -> bool
    ensures { result ≡ (agreement.same_rank_and_bits (first_type x.now.operand_types)
        result_type.now
        && (not (attributes.has_dim (first_type x.now.operand_types) x.now.axis)
        || agreement.all_related
        (λ i d e. agreement.dims_agree (results.joined_dim x.now.axis x.now.operand_types i) e) 0
        (agreement.dims_of result_type.now) (agreement.dims_of result_type.now))) }
{
    let types = x.operand_types.as_slice();
    has_first_rank_and_bits(types, result_type)
        && (!first_has_dim(types, x.axis) || are_joined(x.axis, types, dims(result_type)))
}

/// Whether a type has the rank and the width of the first.
fn has_first_rank_and_bits(types: &[ValueType], value_type: &ValueType) -> bool
    ensures { result ≡ agreement.same_rank_and_bits (first_type types.now) value_type.now }
{
    match types.first() {
        Some(first) => has_same_rank_and_bits(first, value_type),
        None => cell_bits(value_type) == 0 && dims(value_type).len() == 0,
    }
}

// ---- kind by kind

/// Whether the type of an operation's value follows from those of its operands.
#[tactic(auto, unfolding(sh_ir::specs::Results::result_fits))]
pub(crate) fn result_fits(context: &Context<'_>, kind: &OpKind, to: &ValueType) -> bool
    ensures { result ≡ results.result_fits context.now kind.now to.now }
{
    match kind {
        OpKind::Cast(x) => is_cast(x.op, &x.operand_type, to),
        OpKind::ExtractSlice(x) => is_slice(numbers_fit(context, kind, to), x, to),
        OpKind::CollapseShape(x) => is_collapsed(numbers_fit(context, kind, to), x, to),
        OpKind::ExpandShape(x) => is_expanded(numbers_fit(context, kind, to), x, to),
        OpKind::Fill(x) => has_output_type(x.outs_types.as_slice(), to),
        OpKind::Matmul(x) => has_output_type(x.outs_types.as_slice(), to),
        OpKind::BatchMatmul(x) => has_output_type(x.outs_types.as_slice(), to),
        OpKind::Matvec(x) => has_output_type(x.outs_types.as_slice(), to),
        OpKind::Vecmat(x) => has_output_type(x.outs_types.as_slice(), to),
        OpKind::Dot(x) => has_output_type(x.outs_types.as_slice(), to),
        OpKind::Conv1d(x) => has_output_type(x.outs_types.as_slice(), to),
        OpKind::Conv2d(x) => has_output_type(x.outs_types.as_slice(), to),
        OpKind::Transpose(x) => has_output_type(x.ins_outs.outs_types.as_slice(), to),
        OpKind::Broadcast(x) => has_output_type(x.ins_outs.outs_types.as_slice(), to),
        OpKind::Reduce(x) => has_output_type(x.ins_outs.outs_types.as_slice(), to),
        OpKind::Generic(x) => has_output_type(x.ins_outs.outs_types.as_slice(), to),
        OpKind::AllGather(x) => is_gathered(context, &x.on, x.gather_axis, &x.operand_type, to),
        OpKind::AllSlice(x) => is_piece(context, &x.on, x.slice_axis, &x.operand_type, to),
        OpKind::AllReduce(x) => type_agrees(&x.operand_type, to),
        OpKind::ReduceScatter(x) => is_piece(context, &x.on, x.scatter_axis, &x.operand_type, to),
        OpKind::AllToAll(x) => is_exchanged(context, x, to),
        OpKind::Shift(x) => type_agrees(&x.operand_type, to),
        OpKind::Take(x) => is_taken(context, x, to),
        OpKind::Pad(x) => is_padded(numbers_fit(context, kind, to), x, to),
        OpKind::Join(x) => is_join_of(x, to),
        OpKind::Call(x) => callee_gives(context, x, to),
        _ => true,
    }
}
