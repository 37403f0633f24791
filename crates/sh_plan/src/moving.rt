ghost use Rattle.std.specs.Prelude.{◌≡◌, ◌<◌, ◌+◌, ◌++◌, ◌∷◌, [], IfOk, false, length, take, true};
ghost use Rattle.sh_base.specs.Shape.{max_rank};
ghost use Rattle.sh_sharding.specs.Made.{IsState, with_dimension};
ghost use Rattle.sh_sharding.specs.Sharding.{IsSharding, axes_of, dimension_of, is_even, unsplit, whole_of};
ghost use Rattle.sh_sharding.specs.declared.shardings.Mark.TheVariants.{Balanced};
ghost use Rattle.sh_plan.specs.declared.moves.Move.TheVariants.{M3, M5};
ghost use Rattle.sh_plan.specs.Moves.{IsNamedAt, after, is_listed, may, may_append, may_be, moved, with_axis, without_last};

use crate::Move;
use crate::allowed::last_axis_along;
use sh_base::{Duplicate, Items, MAX_RANK, Mem, shape};
use sh_sharding::{Dimension, Mark, Sharding, dimension, dimensions, from_dimensions, grid};
use std::alloc::Global;

/// Copies of dimensions.
fn copied(alloc: Global, listed: &[Dimension]) -> Result<Vec<Dimension>, Mem>
    ensures { IfOk result (λ copy. copy.items ≡ listed.now) }
{
    let mut copy = Vec::with_capacity(alloc, listed.len())?;
    for d in listed {
        let one = d.duplicate(alloc)?;
        copy.push(one)?;
    }
    Ok(copy)
}

/// The sharding with another dimension in place of one.
fn with_other(alloc: Global, s: &Sharding, dim: u64, d: Dimension) -> Result<Sharding, Mem>
    requires dim { dim < length s.now.dimensions }
    requires sharding { IsSharding (with_dimension s.now dim d) }
    ensures { IfOk result (λ made. made ≡ with_dimension s.now dim d) }
{
    let own = grid(s).duplicate(alloc)?;
    let mut made = copied(alloc, dimensions(s))?;
    made[dim as usize] = d;
    Ok(from_dimensions(alloc, own, Items::from_vec(made)))
}

/// The sharding with other dimensions in place of two.
fn with_others(
    alloc: Global,
    s: &Sharding,
    dim: u64,
    d: Dimension,
    other: u64,
    e: Dimension,
) -> Result<Sharding, Mem>
    requires dim { dim < length s.now.dimensions }
    requires other { other < length s.now.dimensions }
    requires sharding { IsSharding (with_dimension (with_dimension s.now dim d) other e) }
    ensures { IfOk result
        (λ made. made ≡ with_dimension (with_dimension s.now dim d) other e) }
{
    let own = grid(s).duplicate(alloc)?;
    let mut made = copied(alloc, dimensions(s))?;
    made[dim as usize] = d;
    made[other as usize] = e;
    Ok(from_dimensions(alloc, own, Items::from_vec(made)))
}

/// A dimension that isn't split.
fn whole_dimension(alloc: Global, extent: u64) -> Dimension
    ensures { result ≡ unsplit extent }
{
    Dimension {
        extent,
        axes: shape(alloc, &[]),
        mark: Mark::Balanced,
        low: 0,
        high: 0,
    }
}

/// A dimension without the axis that splits it innermost.
fn without_last_axis(alloc: Global, d: &Dimension) -> Dimension
    requires { d.now.mark ≡ Balanced }
    ensures { result ≡ without_last d.now }
{
    let axes = d.axes.extents();
    Dimension {
        extent: d.extent,
        axes: shape(alloc, &axes[..axes.len().saturating_sub(1)]),
        mark: Mark::Balanced,
        low: d.low,
        high: d.high,
    }
}

/// A list of axes with one more, the innermost.
pub(crate) fn appended(axes: &[u64], axis: u64) -> [u64; MAX_RANK]
    requires { length axes.now < max_rank }
    ensures long { length result ≡ max_rank }
    ensures value { take (length axes.now + 1) result ≡ axes.now ++ axis ∷ [] }
{
    let mut all = [axis; MAX_RANK];
    for (at, own) in axes.iter().enumerate() {
        all[at] = *own;
    }
    all
}

/// A dimension with one more axis, the innermost.
fn with_last_axis(alloc: Global, d: &Dimension, axis: u64) -> Dimension
    requires balanced { d.now.mark ≡ Balanced }
    requires few { length d.now.axes < max_rank }
    ensures { result ≡ with_axis d.now axis }
{
    let own = d.axes.extents();
    let axes = appended(own, axis);
    Dimension {
        extent: d.extent,
        axes: shape(alloc, &axes[..own.len() + 1]),
        mark: Mark::Balanced,
        low: d.low,
        high: d.high,
    }
}

/// Gathers a dimension whole.
fn gathered(alloc: Global, s: &Sharding, dim: u64) -> Result<Sharding, Mem>
    requires dim { dim < length s.now.dimensions }
    requires state { IsState s.now }
    ensures value { IfOk result
        (λ made. made ≡ with_dimension s.now dim (unsplit (dimension_of s.now dim).extent)) }
    ensures state { IfOk result (λ made. IsState made) }
{
    let d = whole_dimension(alloc, dimension(s, dim).extent);
    with_other(alloc, s, dim, d)
}

/// Drops the last axis of an even dimension.
fn dropped(alloc: Global, s: &Sharding, dim: u64) -> Result<Sharding, Mem>
    requires dim { dim < length s.now.dimensions }
    requires state { IsState s.now }
    requires even { is_even s.now.grid.extents (dimension_of s.now dim) ≡ true }
    ensures value { IfOk result
        (λ made. made ≡ with_dimension s.now dim (without_last (dimension_of s.now dim))) }
    ensures state { IfOk result (λ made. IsState made) }
{
    let d = without_last_axis(alloc, dimension(s, dim));
    with_other(alloc, s, dim, d)
}

/// Appends an axis that splits no dimension to a dimension that is even or unsplit, and even
/// afterwards.
fn grown(alloc: Global, s: &Sharding, dim: u64, axis: u64) -> Result<Sharding, Mem>
    requires dim { dim < length s.now.dimensions }
    requires axis { axis < length s.now.grid.extents }
    requires state { IsState s.now }
    requires unused { is_listed axis (axes_of s.now.dimensions) ≡ false }
    requires may { may_append s.now.grid.extents s.now.dimensions dim axis ≡ true }
    ensures value { IfOk result
        (λ made. made ≡ with_dimension s.now dim (with_axis (dimension_of s.now dim) axis)) }
    ensures state { IfOk result (λ made. IsState made) }
{
    let d = with_last_axis(alloc, dimension(s, dim), axis);
    with_other(alloc, s, dim, d)
}

/// Moves the last axis of an even dimension to the end of another.
#[tactic(auto, unfolding(crate::specs::Moves::may, crate::specs::Moves::after))]
fn gone_over(alloc: Global, s: &Sharding, from: u64, to: u64) -> Result<Sharding, Mem>
    requires from { from < length s.now.dimensions }
    requires to { to < length s.now.dimensions }
    requires state { IsState s.now }
    requires may { may s.now.grid.extents [] s.now.dimensions (M3 from to) ≡ true }
    ensures value { IfOk result (λ made. made
        ≡ record s.now { dimensions = after [] s.now.dimensions (M3 from to) }) }
    ensures state { IfOk result (λ made. IsState made) }
{
    let axis = last_axis_along(s, from);
    let shorter = without_last_axis(alloc, dimension(s, from));
    let longer = with_last_axis(alloc, dimension(s, to), axis);
    with_others(alloc, s, from, shorter, to, longer)
}

/// Splits an unsplit dimension as another sharding does.
fn split_as(alloc: Global, s: &Sharding, to: &Sharding, dim: u64) -> Result<Sharding, Mem>
    requires dim { dim < length s.now.dimensions }
    requires state { IsState s.now }
    requires target { IsState to.now }
    requires grid { s.now.grid ≡ to.now.grid }
    requires whole { whole_of s.now ≡ whole_of to.now }
    requires may { may_be s.now to.now (M5 dim) ≡ true }
    ensures value { IfOk result
        (λ made. made ≡ with_dimension s.now dim (dimension_of to.now dim)) }
    ensures state { IfOk result (λ made. IsState made) }
{
    let d = dimension(to, dim).duplicate(alloc)?;
    with_other(alloc, s, dim, d)
}

/// The sharding after a move that may be made, of a sharding without halos on the way to another of
/// its shape on its grid, without halos too.
///
/// Errors: `Mem` where memory is wanting.
#[tactic(auto, unfolding(crate::specs::Moves::may, crate::specs::Moves::after))]
pub fn moved(alloc: Global, s: &Sharding, to: &Sharding, m: Move) -> Result<Sharding, Mem>
    requires state { IsState s.now }
    requires target { IsState to.now }
    requires grid { s.now.grid ≡ to.now.grid }
    requires whole { whole_of s.now ≡ whole_of to.now }
    requires named { IsNamedAt s.now m }
    requires may { may_be s.now to.now m ≡ true }
    ensures value { IfOk result (λ made. made ≡ moved s.now to.now m) }
    ensures state { IfOk result (λ made. IsState made) }
{
    match m {
        Move::M1 { d } => dropped(alloc, s, d),
        Move::M2 { d, a } => grown(alloc, s, d, a),
        Move::M3 { d, e } => gone_over(alloc, s, d, e),
        Move::M4 { d } => gathered(alloc, s, d),
        Move::M5 { d } => split_as(alloc, s, to, d),
    }
}
