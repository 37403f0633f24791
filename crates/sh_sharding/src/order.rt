ghost use Rattle.std.specs.Prelude.{◌≡◌, ◌+◌, ◌≤◌, All, length, map};
ghost use Rattle.std.specs.Ordering.{nat_cmp};
ghost use Rattle.std.specs.Cmp.Lexicographic.{slice_cmp};
ghost use Rattle.sh_sharding.specs.Order.{dimension_view_order, order_of, viewed_offsets};
ghost use Rattle.sh_sharding.specs.Views.{IsDividing, IsOrdered, described};

use crate::offsets::offset;
use crate::reading::{grid, rank};
use crate::views::views_of;
use crate::{DimensionView, Sharding};
use sh_grid::{Grid, size_along};
use std::cmp::Ordering;

/// The order of the offsets of two dimensions that have so many parts.
fn compare_offsets(parts: u64, a: &DimensionView<'_>, b: &DimensionView<'_>) -> Ordering
    requires first { IsDividing a.now.extent parts a.now.mark }
    requires second { IsDividing b.now.extent parts b.now.mark }
    ensures { result ≡ slice_cmp nat_cmp (viewed_offsets parts a.now) (viewed_offsets parts b.now) }
{
    for part in 0..parts + 1 {
        let mine = offset(a.extent, parts, a.mark, part);
        let other = offset(b.extent, parts, b.mark, part);
        match mine.cmp(&other) {
            Ordering::Equal => {}
            apart => return apart,
        }
    }
    Ordering::Equal
}

/// The order of two dimensions: by the list of axes, then by the offsets.
fn compare_dimensions(g: &Grid, a: &DimensionView<'_>, b: &DimensionView<'_>) -> Ordering
    requires first { IsOrdered g.now.extents a.now }
    requires second { IsOrdered g.now.extents b.now }
    ensures { result ≡ dimension_view_order g.now.extents a.now b.now }
{
    let axes = a.axes.as_slice();
    match axes.cmp(b.axes.as_slice()) {
        Ordering::Equal => compare_offsets(size_along(g, axes), a, b),
        apart => apart,
    }
}

/// The order of two shardings on a grid, of which views tell: dimension by dimension, by the list
/// of axes and then by the offsets, lists being compared from the front. It takes no memory.
pub fn compare_views(g: &Grid, a: &[DimensionView<'_>], b: &[DimensionView<'_>]) -> Ordering
    requires first { All (IsOrdered g.now.extents) a.now }
    requires second { All (IsOrdered g.now.extents) b.now }
    ensures { result ≡ order_of g.now.extents (map (described g.now.extents) a.now)
        (map (described g.now.extents) b.now) }
{
    for at in 0..a.len().min(b.len()) {
        match compare_dimensions(g, &a[at], &b[at]) {
            Ordering::Equal => {}
            apart => return apart,
        }
    }
    a.len().cmp(&b.len())
}

/// The order of two shardings on one grid, which tells halo-free ones of one whole shape apart. It
/// takes no memory.
pub fn compare(a: &Sharding, b: &Sharding) -> Ordering
    requires { a.now.grid ≡ b.now.grid }
    ensures { result ≡ order_of a.now.grid.extents a.now.dimensions b.now.dimensions }
{
    let left = views_of(a);
    let right = views_of(b);
    compare_views(
        grid(a),
        &left[..rank(a) as usize],
        &right[..rank(b) as usize],
    )
}
