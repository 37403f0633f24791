ghost use Rattle.std.specs.Prelude.{◌≡◌, ◌<◌, [], ◌∷◌, IfOk, length, map};
ghost use Rattle.sh_sharding.specs.Sharding.{dimension_of};
ghost use Rattle.sh_plan.specs.declared.moves.Move.TheVariants.{M1, M2, M3, M4, M5};
ghost use Rattle.sh_plan.specs.Instructions.{groups_along, kind_of, local_type};
ghost use Rattle.sh_plan.specs.Moves.{IsNamedAt, last_axis};

use crate::numbers::{integers, part_sizes, part_starts};
use sh_base::{Duplicate, Items, Mem, Width};
use sh_grid::name;
use sh_ir::{AllGather, AllSlice, AllToAll, GridAxes, OpKind, Take, TensorType, ValueType};
use sh_plan::Move;
use sh_sharding::{Sharding, axes, grid, local_extent, rank};
use std::alloc::Global;

/// The axis that splits a dimension innermost; 0 where it isn't split.
fn last_axis(s: &Sharding, dim: u64) -> u64
    requires { dim < length s.now.dimensions }
    ensures { result ≡ last_axis (dimension_of s.now dim) }
{
    axes(s, dim).extents().last().copied().unwrap_or(0)
}

/// The groups along some axes of a sharding's grid.
fn groups_along(alloc: Global, s: &Sharding, listed: &[u64]) -> Result<GridAxes, Mem>
    ensures { IfOk result (λ on. on ≡ groups_along s.now listed.now) }
{
    let of = name(grid(s)).duplicate(alloc)?;
    let written = integers(alloc, listed)?;
    Ok(GridAxes {
        grid: of,
        grid_axes: written,
    })
}

/// The groups along the axis that splits a dimension innermost.
fn last_groups(alloc: Global, s: &Sharding, dim: u64) -> Result<GridAxes, Mem>
    requires { dim < length s.now.dimensions }
    ensures { IfOk result
        (λ on. on ≡ groups_along s.now (last_axis (dimension_of s.now dim) ∷ [])) }
{
    groups_along(alloc, s, &[last_axis(s, dim)])
}

/// The type of the local tensors of a width.
pub(crate) fn local_type(alloc: Global, s: &Sharding, width: Width) -> Result<ValueType, Mem>
    ensures { IfOk result (λ made. made ≡ local_type width s.now) }
{
    let mut dims = Items::new(alloc);
    for dim in 0..rank(s) {
        dims.push(local_extent(s, dim))?;
    }
    Ok(ValueType::Tensor(TensorType { dims, width }))
}

/// Gathers the last axis of a dimension.
#[tactic(auto, unfolding(sh_plan::specs::Instructions::kind_of))]
fn gather_last(alloc: Global, s: &Sharding, width: Width, d: u64) -> Result<OpKind, Mem>
    requires { d < length s.now.dimensions }
    ensures { IfOk result (λ kind. kind ≡ kind_of width s.now s.now (M1 d)) }
{
    let on = last_groups(alloc, s, d)?;
    let operand_type = local_type(alloc, s, width)?;
    Ok(OpKind::AllGather(AllGather {
        on,
        gather_axis: d,
        operand_type,
    }))
}

/// Slices a dimension along an axis.
#[tactic(auto, unfolding(sh_plan::specs::Instructions::kind_of))]
fn slice(alloc: Global, s: &Sharding, width: Width, d: u64, a: u64) -> Result<OpKind, Mem>
    ensures { IfOk result (λ kind. kind ≡ kind_of width s.now s.now (M2 d a)) }
{
    let on = groups_along(alloc, s, &[a])?;
    let operand_type = local_type(alloc, s, width)?;
    Ok(OpKind::AllSlice(AllSlice {
        on,
        slice_axis: d,
        operand_type,
    }))
}

/// Exchanges the last axis of a dimension for a part of another.
#[tactic(auto, unfolding(sh_plan::specs::Instructions::kind_of))]
fn exchange(alloc: Global, s: &Sharding, width: Width, d: u64, e: u64) -> Result<OpKind, Mem>
    requires { d < length s.now.dimensions }
    ensures { IfOk result (λ kind. kind ≡ kind_of width s.now s.now (M3 d e)) }
{
    let on = last_groups(alloc, s, d)?;
    let operand_type = local_type(alloc, s, width)?;
    Ok(OpKind::AllToAll(AllToAll {
        on,
        split_axis: e,
        concat_axis: d,
        operand_type,
    }))
}

/// Gathers all axes of a dimension.
#[tactic(auto, unfolding(sh_plan::specs::Instructions::kind_of))]
fn gather_whole(alloc: Global, s: &Sharding, width: Width, d: u64) -> Result<OpKind, Mem>
    requires { d < length s.now.dimensions }
    ensures { IfOk result (λ kind. kind ≡ kind_of width s.now s.now (M4 d)) }
{
    let on = groups_along(alloc, s, axes(s, d).extents())?;
    let operand_type = local_type(alloc, s, width)?;
    Ok(OpKind::AllGather(AllGather {
        on,
        gather_axis: d,
        operand_type,
    }))
}

/// Takes the parts of a dimension that another sharding has.
#[tactic(auto, unfolding(sh_plan::specs::Instructions::kind_of))]
fn take_parts(
    alloc: Global,
    s: &Sharding,
    next: &Sharding,
    width: Width,
    d: u64,
) -> Result<OpKind, Mem>
    requires grid { s.now.grid ≡ next.now.grid }
    requires dim { d < length next.now.dimensions }
    ensures { IfOk result (λ kind. kind ≡ kind_of width s.now next.now (M5 d)) }
{
    let on = groups_along(alloc, s, axes(next, d).extents())?;
    let starts = part_starts(alloc, next, d)?;
    let sizes = part_sizes(alloc, next, d)?;
    let operand_type = local_type(alloc, s, width)?;
    Ok(OpKind::Take(Take {
        on,
        axis: d,
        starts,
        sizes,
        operand_type,
    }))
}

/// What the move from one sharding to another does to local tensors of a width.
#[tactic(auto, unfolding(sh_plan::specs::Instructions::kind_of))]
pub(crate) fn kind_of(
    alloc: Global,
    s: &Sharding,
    next: &Sharding,
    width: Width,
    m: Move,
) -> Result<OpKind, Mem>
    requires grid { s.now.grid ≡ next.now.grid }
    requires rank { length s.now.dimensions ≡ length next.now.dimensions }
    requires named { IsNamedAt s.now m }
    ensures { IfOk result (λ kind. kind ≡ kind_of width s.now next.now m) }
{
    match m {
        Move::M1 { d } => gather_last(alloc, s, width, d),
        Move::M2 { d, a } => slice(alloc, s, width, d, a),
        Move::M3 { d, e } => exchange(alloc, s, width, d, e),
        Move::M4 { d } => gather_whole(alloc, s, width, d),
        Move::M5 { d } => take_parts(alloc, s, next, width, d),
    }
}
