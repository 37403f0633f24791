ghost use Rattle.std.specs.Prelude.{◌≡◌, ◌+◌, ◌*◌, ◌≤◌, ◌↔◌, All, IsTrue, length, map, max, min};
ghost use Rattle.sh_base.specs.Shape.{max_cells};
ghost use Rattle.sh_sharding.specs.Sharding.{counted_cells};
ghost use Rattle.sh_sharding.specs.Views.{IsOrdered, IsShort, largest_described};

use crate::DimensionView;
use crate::offsets::largest_part;
use sh_base::MAX_CELLS;
use sh_grid::{Grid, size_along};

/// A number of cells with one dimension more, an extent of 0 being counted as 1; as one more than
/// the limit where it is greater.
fn counted_with(total: u64, extent: u64) -> u64
    requires { total ≤ max_cells + 1 }
    ensures { result ≡ min (total * max 1 extent) (max_cells + 1) }
{
    total.saturating_mul(extent.max(1)).min(MAX_CELLS + 1)
}

/// Whether the whole tensor has at most 1,048,576 cells, an extent of 0 being counted as 1.
pub(crate) fn is_whole_small(views: &[DimensionView<'_>]) -> bool
    ensures { IsTrue result ↔ (counted_cells (map (λ view. view.extent) views.now) ≤ max_cells) }
{
    let mut total = 1u64;
    for view in views {
        total = counted_with(total, view.extent);
    }
    total <= MAX_CELLS
}

/// The extent of the largest local tensor along a dimension, halos included.
fn largest_extent(g: &Grid, view: &DimensionView<'_>) -> u64
    requires ordered { IsOrdered g.now.extents view.now }
    requires short { IsShort view.now }
    ensures { result ≡ largest_described g.now.extents view.now }
{
    let parts = size_along(g, view.axes.as_slice());
    view.low + largest_part(view.extent, parts, view.mark) + view.high
}

/// Whether the largest local tensor has at most 1,048,576 cells, halos included and an extent of 0
/// being counted as 1.
pub(crate) fn is_local_small(g: &Grid, views: &[DimensionView<'_>]) -> bool
    requires ordered { All (IsOrdered g.now.extents) views.now }
    requires short { All IsShort views.now }
    ensures { IsTrue result ↔ (counted_cells (map (largest_described g.now.extents) views.now)
        ≤ max_cells) }
{
    let mut total = 1u64;
    for view in views {
        total = counted_with(total, largest_extent(g, view));
    }
    total <= MAX_CELLS
}
