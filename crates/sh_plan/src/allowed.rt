ghost use Rattle.std.specs.Prelude.{◌≡◌, ◌<◌, [], length, true};
ghost use Rattle.std.specs.List.{list_any};
ghost use Rattle.sh_sharding.specs.Sharding.{axes_of, dimension_of, is_balanced, is_even, is_split, is_uneven};
ghost use Rattle.sh_plan.specs.Moves.{IsNamedAt, are_unused, is_even_or_unsplit, is_listed, last_axis, may, may_append, may_be, with_axis};
ghost use Rattle.sh_plan.specs.declared.moves.Move.TheVariants.{M3};

use crate::Move;
use sh_grid::extents;
use sh_sharding::{
    Dimension, Mark, Sharding, axes, dimension, dimensions, grid, is_even, part_count,
};

/// Whether a dimension is split.
fn is_split_along(s: &Sharding, dim: u64) -> bool
    requires { dim < length s.now.dimensions }
    ensures { result ≡ is_split (dimension_of s.now dim) }
{
    !axes(s, dim).extents().is_empty()
}

/// Whether a dimension is split and not even.
#[tactic(auto, unfolding(sh_sharding::specs::Sharding::is_uneven))]
fn is_uneven_along(s: &Sharding, dim: u64) -> bool
    requires { dim < length s.now.dimensions }
    ensures { result ≡ is_uneven s.now.grid.extents (dimension_of s.now dim) }
{
    is_split_along(s, dim) && !is_even(s, dim)
}

/// Whether a dimension is even, or not split.
pub(crate) fn is_regular_along(s: &Sharding, dim: u64) -> bool
    requires { dim < length s.now.dimensions }
    ensures { result ≡ is_even_or_unsplit s.now.grid.extents (dimension_of s.now dim) }
{
    is_even(s, dim) || !is_split_along(s, dim)
}

/// Whether the normal form has no offsets for a dimension.
fn is_balanced_along(s: &Sharding, dim: u64) -> bool
    requires { dim < length s.now.dimensions }
    ensures { result ≡ is_balanced (dimension_of s.now dim) }
{
    match &dimension(s, dim).mark {
        Mark::Balanced => true,
        Mark::Offsets(_) => false,
    }
}

/// Whether a dimension is even once an axis more splits it.
fn is_even_with(s: &Sharding, dim: u64, axis: u64) -> bool
    requires dim { dim < length s.now.dimensions }
    requires axis { axis < length s.now.grid.extents }
    ensures { result ≡ is_even s.now.grid.extents (with_axis (dimension_of s.now dim) axis) }
{
    let parts = part_count(s, dim) * extents(grid(s)).extents()[axis as usize];
    is_balanced_along(s, dim) && dimension(s, dim).extent % parts == 0
}

/// The axis that splits a dimension innermost; 0 where it isn't split.
pub(crate) fn last_axis_along(s: &Sharding, dim: u64) -> u64
    requires { dim < length s.now.dimensions }
    ensures value { result ≡ last_axis (dimension_of s.now dim) }
    ensures within { is_split (dimension_of s.now dim) ≡ true → result < length s.now.grid.extents }
{
    let d = dimension(s, dim);
    d.axes.extents().last().copied().unwrap_or(0)
}

/// Whether an axis splits a dimension.
fn splits(axis: u64, d: &Dimension) -> bool
    ensures { result ≡ is_listed axis d.now.axes }
{
    d.axes.extents().contains(&axis)
}

/// Whether an axis splits one of the dimensions.
fn splits_some(axis: u64, dimensions: &[Dimension]) -> bool
    ensures { result ≡ list_any (λ d. is_listed axis d.axes) dimensions.now }
{
    dimensions.iter().any(|d| splits(axis, d))
}

/// Whether an axis splits some dimension.
fn is_used(s: &Sharding, axis: u64) -> bool
    ensures { result ≡ is_listed axis (axes_of s.now.dimensions) }
{
    splits_some(axis, dimensions(s))
}

/// Whether one of the axes splits some dimension.
fn is_some_used(s: &Sharding, axes: &[u64]) -> bool
    ensures { result ≡ list_any (λ a. is_listed a (axes_of s.now.dimensions)) axes.now }
{
    axes.iter().any(|axis| is_used(s, *axis))
}

/// Whether none of the axes splits a dimension.
fn are_free(s: &Sharding, axes: &[u64]) -> bool
    ensures { result ≡ are_unused s.now.dimensions axes.now }
{
    !is_some_used(s, axes)
}

/// Whether an axis may be appended to a dimension: it is even or unsplit, and even afterwards.
fn may_be_appended(s: &Sharding, dim: u64, axis: u64) -> bool
    requires dim { dim < length s.now.dimensions }
    requires axis { axis < length s.now.grid.extents }
    ensures { result ≡ may_append s.now.grid.extents s.now.dimensions dim axis }
{
    is_regular_along(s, dim) && is_even_with(s, dim, axis)
}

/// Whether the last axis of a dimension may go to the end of another.
#[tactic(auto, unfolding(crate::specs::Moves::may))]
fn may_go(s: &Sharding, from: u64, to: u64) -> bool
    requires from { from < length s.now.dimensions }
    requires to { to < length s.now.dimensions }
    ensures { result ≡ may s.now.grid.extents [] s.now.dimensions (M3 from to) }
{
    from != to && is_even(s, from) && may_be_appended(s, to, last_axis_along(s, from))
}

/// Whether a move may be made at a sharding without halos, on the way to another of its shape on
/// its grid. It takes no memory.
#[tactic(auto, unfolding(crate::specs::Moves::may))]
pub fn is_allowed(s: &Sharding, to: &Sharding, m: Move) -> bool
    requires grid { s.now.grid ≡ to.now.grid }
    requires rank { length s.now.dimensions ≡ length to.now.dimensions }
    requires named { IsNamedAt s.now m }
    ensures { result ≡ may_be s.now to.now m }
{
    match m {
        Move::M1 { d } => is_even(s, d),
        Move::M2 { d, a } => { are_free(s, &[a]) && may_be_appended(s, d, a) }
        Move::M3 { d, e } => may_go(s, d, e),
        Move::M4 { d } => is_uneven_along(s, d),
        Move::M5 { d } => {
            !is_split_along(s, d) && is_uneven_along(to, d) && are_free(s, axes(to, d).extents())
        }
    }
}
