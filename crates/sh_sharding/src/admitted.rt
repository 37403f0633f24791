ghost use Rattle.std.specs.Prelude.{◌≡◌, ◌==◌, ◌<◌, ◌≤◌, ◌↔◌, ℕ, All, IsTrue, count_by, length, map};
ghost use Rattle.sh_base.specs.Shape.{max_rank};
ghost use Rattle.sh_grid.specs.Grid.{AreAxesOf, IsGrid};
ghost use Rattle.sh_sharding.specs.Sharding.{HasOneMark, is_even};
ghost use Rattle.sh_sharding.specs.Views.{AreAxesBelow, HasFittingHalos, IsAdmittedView, IsOrdered, axes_in, described, viewed_axes};
ghost use Rattle.sh_sharding.specs.declared.shardings.Mark.TheVariants.{Balanced};

use crate::axis_lists::times_listed;
use crate::local_sizes::{is_local_small, is_whole_small};
use crate::offsets::{are_offsets, are_parts_at_least, is_balanced, is_even_division};
use crate::{DimensionView, MarkView};
use sh_base::MAX_RANK;
use sh_grid::{Grid, extents, size_along};

/// Whether all axes of a list are axes of a grid with so many.
fn are_below(axes: &[u64], rank: u64) -> bool
    ensures { IsTrue result ↔ All (λ a. a < rank) axes.now }
{
    axes.iter().all(|axis| *axis < rank)
}

/// The same for the axes of all dimensions.
fn are_all_below(views: &[DimensionView<'_>], rank: u64) -> bool
    ensures { IsTrue result ↔ All (AreAxesBelow rank) views.now }
{
    views
        .iter()
        .all(|view| are_below(view.axes.as_slice(), rank))
}

/// How often an axis is listed in all dimensions.
fn times_in(views: &[DimensionView<'_>], axis: u64) -> usize
    requires { length views.now ≤ max_rank }
    ensures { result ≡ count_by (λ b. b == axis) (viewed_axes views.now) }
{
    let mut times = 0usize;
    for view in views {
        times += times_listed(view.axes.as_slice(), axis);
    }
    times
}

/// Whether no axis is listed twice in all dimensions.
fn are_once(views: &[DimensionView<'_>], rank: u64) -> bool
    requires short { length views.now ≤ max_rank }
    requires below { All (λ a. a < rank) (viewed_axes views.now) }
    ensures { IsTrue result ↔ ((a : ℕ) → count_by (λ b. b == a) (viewed_axes views.now) ≤ 1) }
{
    for axis in 0..rank {
        if times_in(views, axis) > 1 {
            return false;
        }
    }
    true
}

/// Whether the axes of all dimensions are distinct axes of the grid.
fn are_distinct_axes(g: &Grid, views: &[DimensionView<'_>]) -> bool
    requires { length views.now ≤ max_rank }
    ensures grid { IsGrid g.now.extents }
    ensures value { IsTrue result ↔ AreAxesOf (length g.now.extents) (viewed_axes views.now) }
{
    let rank = extents(g).extents().len() as u64;
    are_all_below(views, rank) && are_once(views, rank)
}

/// Whether the listed offsets of a dimension, if there are any, are those of its parts.
fn is_ordered(g: &Grid, view: &DimensionView<'_>) -> bool
    requires { AreAxesOf (length g.now.extents) (axes_in view.now.axes) }
    ensures { IsTrue result ↔ IsOrdered g.now.extents view.now }
{
    let parts = size_along(g, view.axes.as_slice());
    match view.mark {
        MarkView::Balanced => true,
        MarkView::Listed(listing) => are_offsets(view.extent, parts, listing),
    }
}

/// Whether no halo of a dimension is longer than a part, and there is none where it isn't split.
fn has_fitting_halos(g: &Grid, view: &DimensionView<'_>) -> bool
    requires { IsOrdered g.now.extents view.now }
    ensures { IsTrue result ↔ HasFittingHalos g.now.extents (described g.now.extents view.now) }
{
    let axes = view.axes.as_slice();
    let halo = view.low.max(view.high);
    if axes.is_empty() {
        return halo == 0;
    }
    are_parts_at_least(
        view.extent,
        size_along(g, axes),
        view.mark,
        u128::from(halo),
    )
}

/// Whether the offsets of a dimension are the balanced ones.
fn is_balanced_view(g: &Grid, view: &DimensionView<'_>) -> bool
    requires { IsOrdered g.now.extents view.now }
    ensures { IsTrue result ↔ ((described g.now.extents view.now).mark ≡ Balanced) }
{
    let parts = size_along(g, view.axes.as_slice());
    is_balanced(view.extent, parts, view.mark)
}

/// Whether a view is that of an even dimension: split, balanced, and divisible by its number of
/// parts. It takes no memory.
pub fn is_even_view(g: &Grid, view: &DimensionView<'_>) -> bool
    requires { IsOrdered g.now.extents view.now }
    ensures { result ≡ is_even g.now.extents (described g.now.extents view.now) }
{
    let axes = view.axes.as_slice();
    !axes.is_empty()
        && is_even_division(view.extent, size_along(g, axes), is_balanced_view(g, view))
}

/// Whether a dimension has no halo.
#[tactic(auto, unfolding(crate::specs::Views::described))]
fn has_no_halo(view: &DimensionView<'_>) -> bool
    ensures { IsTrue result ↔ ((view.now.low ≡ 0) × (view.now.high ≡ 0)) }
{
    view.low == 0 && view.high == 0
}

/// Whether all dimensions are balanced.
fn are_all_balanced(g: &Grid, views: &[DimensionView<'_>]) -> bool
    requires { All (IsOrdered g.now.extents) views.now }
    ensures { IsTrue result ↔ All (λ view.
        (described g.now.extents view).mark ≡ Balanced) views.now }
{
    views.iter().all(|view| is_balanced_view(g, view))
}

/// Whether no dimension has a halo.
fn are_without_halos(views: &[DimensionView<'_>]) -> bool
    ensures { IsTrue result ↔ All (λ view. (view.low ≡ 0) × (view.high ≡ 0)) views.now }
{
    views.iter().all(has_no_halo)
}

/// Whether all listed offsets are those of parts.
fn are_ordered(g: &Grid, views: &[DimensionView<'_>]) -> bool
    requires { All (λ view. AreAxesOf (length g.now.extents) (axes_in view.axes)) views.now }
    ensures { IsTrue result ↔ All (IsOrdered g.now.extents) views.now }
{
    views.iter().all(|view| is_ordered(g, view))
}

/// Whether no halo is longer than a part.
fn have_fitting_halos(g: &Grid, views: &[DimensionView<'_>]) -> bool
    requires { All (IsOrdered g.now.extents) views.now }
    ensures { IsTrue result ↔ All (λ view.
        HasFittingHalos g.now.extents (described g.now.extents view)) views.now }
{
    views.iter().all(|view| has_fitting_halos(g, view))
}

/// Whether all dimensions are balanced, or none has a halo.
fn has_one_mark(g: &Grid, views: &[DimensionView<'_>]) -> bool
    requires { All (IsOrdered g.now.extents) views.now }
    ensures { IsTrue result ↔ HasOneMark (map (described g.now.extents) views.now) }
{
    are_all_balanced(g, views) || are_without_halos(views)
}

/// Whether the views describe an admitted sharding of a tensor on the grid: whether the rules on it
/// are kept, with at most six dimensions and 1,048,576 cells, an extent of 0 being counted as 1. It
/// takes no memory.
pub fn is_admitted(g: &Grid, views: &[DimensionView<'_>]) -> bool
    ensures { IsTrue result ↔ IsAdmittedView g.now views.now }
{
    if views.len() > MAX_RANK {
        return false;
    }
    if !is_whole_small(views) {
        return false;
    }
    // A1 and A2.
    if !are_distinct_axes(g, views) {
        return false;
    }
    // A5.
    if !are_ordered(g, views) {
        return false;
    }
    // A6 to A8.
    if !have_fitting_halos(g, views) {
        return false;
    }
    if !has_one_mark(g, views) {
        return false;
    }
    is_local_small(g, views)
}
