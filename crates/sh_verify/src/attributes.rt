ghost use Rattle.std.specs.Prelude.{◌≡◌, true, ◌+◌, ◌*◌, ◌&&◌, filter, flat_map, length, nat_eq, nat_le, nat_lt, ◌≤◌};
ghost use Rattle.std.specs.Option.{option_copied, option_map_or};
ghost use Rattle.sh_ir.specs.Agreement.{dims_of, rank_of};
ghost use Rattle.sh_ir.specs.Attributes as attributes;
ghost use Rattle.sh_ir.specs.Numbers as numbers;
ghost use Rattle.sh_ir.specs.Scope.{grid_item, group_size, size_along};
ghost use Rattle.sh_ir.specs.Loops as loops;
ghost use Rattle.sh_ir.specs.Written.{first_type};
ghost use Rattle.sh_verify.specs.Relations.{size_of};

use crate::axis_lists::are_all_axes;
use crate::context::Context;
use crate::numbers::{
    all_naturals, all_positive, are_axes_below, are_naturals, is_listed, is_permutation,
};
use crate::region_rules::is_broken;
use crate::relations::{Group, is_count};
use crate::sizes::dims;
use crate::slices::{expansion_fits, groups_fit, slice_fits};
use sh_base::Numbers;
use sh_ir::{GridAxes, GridItem, InsOuts, OpKind, Pad, Take, UpdateHalo, ValueType};

// ---- types

pub(crate) fn rank(value_type: &ValueType) -> usize
    ensures { result ≡ length (dims_of value_type.now) }
{
    dims(value_type).len()
}

/// The rank of the first type; 0 where there is none.
pub(crate) fn first_rank(types: &[ValueType]) -> usize
    ensures { result ≡ length (dims_of (first_type types.now)) }
{
    match types.first() {
        Some(value_type) => rank(value_type),
        None => 0,
    }
}

/// Whether a tensor has a dimension.
pub(crate) fn has_dim(value_type: &ValueType, axis: u64) -> bool
    ensures { result ≡ attributes.has_dim value_type.now axis }
{
    axis < rank(value_type) as u64
}

/// The same of the first type.
pub(crate) fn first_has_dim(types: &[ValueType], axis: u64) -> bool
    ensures { result ≡ attributes.has_dim (first_type types.now) axis }
{
    axis < first_rank(types) as u64
}

pub(crate) fn input_rank(x: &InsOuts) -> usize
    ensures { result ≡ loops.input_rank x.now }
{
    first_rank(x.ins_types.as_slice())
}

pub(crate) fn output_rank(x: &InsOuts) -> usize
    ensures { result ≡ loops.output_rank x.now }
{
    first_rank(x.outs_types.as_slice())
}

fn are_paddings(x: &Pad) -> bool
    ensures { result ≡ (numbers.are_naturals (rank_of x.now.operand_type) x.now.low
        && numbers.are_naturals (rank_of x.now.operand_type) x.now.high) }
{
    let rank = rank(&x.operand_type);
    are_naturals(rank, x.low.as_slice()) && are_naturals(rank, x.high.as_slice())
}

// ---- axes and groups

/// Whether the axes are distinct axes of the grid, where it is there.
#[tactic(auto, unfolding(sh_ir::specs::Attributes::axes_fit))]
pub(crate) fn axes_fit(context: &Context<'_>, on: &GridAxes) -> bool
    ensures { result ≡ attributes.axes_fit context.now on.now }
{
    match context.grid(on.grid.as_slice()) {
        Some(g) => are_axes_below(g.extents.len(), on.grid_axes.as_slice()),
        None => true,
    }
}

#[tactic(auto, unfolding(sh_ir::specs::Attributes::along_fits))]
fn along_fits(context: &Context<'_>, on: &GridAxes, axis: u64, value_type: &ValueType) -> bool
    ensures { result ≡ attributes.along_fits context.now on.now axis value_type.now }
{
    axes_fit(context, on) && has_dim(value_type, axis)
}

#[tactic(auto, unfolding(sh_ir::specs::Attributes::shifts_along))]
fn shifts_along(context: &Context<'_>, on: &GridAxes, axis: u64) -> bool
    ensures { result ≡ attributes.shifts_along context.now on.now axis }
{
    match context.grid(on.grid.as_slice()) {
        Some(_) => is_listed(on.grid_axes.as_slice(), axis as u128),
        None => true,
    }
}

/// The group of a device, where the grid is there and the axes are in order.
#[tactic(auto, unfolding(sh_ir::specs::Scope::group_size))]
pub(crate) fn group<'m>(context: &Context<'m>, on: &'m GridAxes) -> Option<Group<'m>>
    ensures { size_of result ≡ group_size context.now on.now }
{
    match context.grid(on.grid.as_slice()) {
        Some(g) => group_along(g, on.grid_axes.as_slice()),
        None => None,
    }
}

fn group_along<'m>(g: &'m GridItem, axes: &'m [i128]) -> Option<Group<'m>>
    ensures { size_of result ≡ size_along g.now axes.now }
{
    let extents = g.extents.as_slice();
    if !are_axes_below(extents.len(), axes) {
        return None;
    }
    if !all_positive(extents) {
        return None;
    }
    Some(Group { extents, axes })
}

// ---- takes and halos

/// Whether two lists have an entry for each member.
fn have_entries(group: Option<Group<'_>>, starts: usize, sizes: usize) -> bool
    ensures { result ≡ option_map_or (λ n. nat_eq starts n && nat_eq sizes n)
        (size_of group.entry) true }
{
    match group {
        Some(devices) => is_count(devices, starts) && is_count(devices, sizes),
        None => true,
    }
}

/// A start and a size for each place of a group, none negative.
#[tactic(auto, unfolding(sh_ir::specs::Attributes::pieces_fit))]
pub(crate) fn pieces_fit(context: &Context<'_>, x: &Take) -> bool
    ensures { result ≡ attributes.pieces_fit context.now x.now }
{
    all_naturals(x.starts.as_slice())
        && all_naturals(x.sizes.as_slice())
        && have_entries(group(context, &x.on), x.starts.len(), x.sizes.len())
}

fn is_split(axes: &Numbers) -> bool
    ensures { result ≡ nat_lt 0 (length axes.now) }
{
    axes.len() > 0
}

/// How many dimensions are split.
fn split_dims(lists: &[Numbers]) -> usize
    ensures value { result ≡ attributes.split_dims lists.now }
    ensures within { result ≤ length lists.now }
{
    let mut count: usize = 0;
    for axes in lists {
        if is_split(axes) {
            count = count + 1;
        }
    }
    count
}

/// Whether there are two halo sizes for each dimension that is split, none negative.
fn are_halos(lists: &[Numbers], sizes: &[i128]) -> bool
    ensures { result ≡ numbers.are_naturals (2 * attributes.split_dims lists.now) sizes.now }
{
    let wanted = 2 * split_dims(lists) as u128;
    sizes.len() as u128 == wanted && all_naturals(sizes)
}

/// Whether the axes of all lists together are distinct axes of the grid, where it is there.
fn split_axes_fit(context: &Context<'_>, x: &UpdateHalo) -> bool
    ensures { result ≡ option_map_or (λ g. numbers.are_axes_below (length g.extents)
        (flat_map (λ axes. axes) x.now.split_axes)) (grid_item context.now.grids x.now.grid) true }
{
    match context.grid(x.grid.as_slice()) {
        Some(g) => are_all_axes(g.extents.len(), x.split_axes.as_slice()),
        None => true,
    }
}

/// No more lists than dimensions, halos for those that are split, and axes of the grid.
#[tactic(auto, unfolding(sh_ir::specs::Attributes::halos_fit))]
fn halos_fit(context: &Context<'_>, x: &UpdateHalo, rank: usize) -> bool
    ensures { result ≡ attributes.halos_fit context.now x.now rank }
{
    x.split_axes.len() <= rank
        && are_halos(x.split_axes.as_slice(), x.halo_sizes.as_slice())
        && split_axes_fit(context, x)
}

// ---- kind by kind

/// Whether the numbers that an operation writes are in order.
#[tactic(auto, unfolding(sh_ir::specs::Attributes::numbers_fit))]
pub(crate) fn numbers_fit(context: &Context<'_>, kind: &OpKind, result_type: &ValueType) -> bool
    ensures { result ≡ attributes.numbers_fit context.now kind.now result_type.now }
{
    match kind {
        OpKind::Constant(x) => !is_broken(&x.contents),
        OpKind::ExtractSlice(x) => slice_fits(&x.slice, dims(&x.source_type)),
        OpKind::InsertSlice(x) => slice_fits(&x.slice, dims(result_type)),
        OpKind::CollapseShape(x) => {
            groups_fit(
                rank(result_type),
                rank(&x.source_type),
                x.reassociation.as_slice(),
            )
        }
        OpKind::ExpandShape(x) => expansion_fits(x, rank(result_type)),
        OpKind::Transpose(x) => is_permutation(output_rank(&x.ins_outs), x.permutation.as_slice()),
        OpKind::Broadcast(x) => are_axes_below(output_rank(&x.ins_outs), x.dimensions.as_slice()),
        OpKind::Reduce(x) => are_axes_below(input_rank(&x.ins_outs), x.dimensions.as_slice()),
        OpKind::AllGather(x) => along_fits(context, &x.on, x.gather_axis, &x.operand_type),
        OpKind::AllSlice(x) => along_fits(context, &x.on, x.slice_axis, &x.operand_type),
        OpKind::AllReduce(x) => axes_fit(context, &x.on),
        OpKind::ReduceScatter(x) => along_fits(context, &x.on, x.scatter_axis, &x.operand_type),
        OpKind::AllToAll(x) => {
            along_fits(context, &x.on, x.split_axis, &x.operand_type)
                && has_dim(&x.operand_type, x.concat_axis)
        }
        OpKind::Shift(x) => axes_fit(context, &x.on) && shifts_along(context, &x.on, x.shift_axis),
        OpKind::UpdateHalo(x) => halos_fit(context, x, rank(result_type)),
        OpKind::Take(x) => {
            along_fits(context, &x.on, x.axis, &x.operand_type) && pieces_fit(context, x)
        }
        OpKind::Pad(x) => are_paddings(x),
        OpKind::Join(x) => first_has_dim(x.operand_types.as_slice(), x.axis),
        _ => true,
    }
}
