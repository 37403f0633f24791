//! The sharding that an option implies of a value.
ghost use Rattle.std.specs.Prelude.{◌≡◌, ◌<◌, ◌≤◌, pos, All, IfOk, MatchOption, length, map};
ghost use Rattle.sh_base.specs.Limits.{max_devices};
ghost use Rattle.sh_base.specs.Shape.{max_cells};
ghost use Rattle.sh_iface.specs.LoopNest.{HasNoWindows, value_at};
ghost use Rattle.sh_iface.specs.Lawful.{IsNest};
ghost use Rattle.sh_iface.specs.Splits.{implied_of};
ghost use Rattle.sh_iface.specs.Valid.{IsValid};
ghost use Rattle.sh_sharding.specs.AxisLists.{natural};
ghost use Rattle.sh_sharding.specs.OffsetLists.{normal_mark};
ghost use Rattle.sh_sharding.specs.Sharding.{offset_of, offsets_of};
ghost use Rattle.sh_sharding.specs.Views.{IsBetween, IsDividing, IsOrdered, described, mark_in, offsets_in, scaled};
ghost use Rattle.sh_sharding.specs.declared.shardings.Mark.TheVariants.{Balanced};

use crate::viewing::implied_views;
use crate::{HasLoops, LoopOption};
use sh_base::{Duplicate, Items, Mem, Shape, shape};
use sh_grid::{Grid, extents, size_along};
use sh_sharding::{
    Dimension, DimensionView, Dimensions, Listing, Mark, MarkView, Sharding, from_dimensions,
};
use std::alloc::Global;

/// Where a part begins of an extent that is divided into so many parts without listed offsets.
#[tactic(auto, unfolding(sh_sharding::specs::Sharding::offset_of))]
fn balanced_offset(extent: u64, parts: u64, part: u64) -> u64
    requires some { 0 < parts }
    ensures { result ≡ offset_of extent parts Balanced part }
{
    part.saturating_mul(extent.div_ceil(parts)).min(extent)
}

/// Where the parts begin of an extent that is divided into so many parts without listed offsets.
#[tactic(auto, using(crate::proofs::MakingLaws::offsets_more, crate::proofs::MakingLaws::offsets_end))]
fn balanced_offsets(alloc: Global, extent: u64, parts: u64) -> Result<Items<u64>, Mem>
    requires some { 0 < parts }
    requires few { parts ≤ max_devices }
    ensures { IfOk result (λ offsets. offsets ≡ offsets_of extent parts Balanced) }
{
    let mut offsets = Items::new(alloc);
    for part in 0..parts + 1 {
        offsets.push(balanced_offset(extent, parts, part))?;
    }
    Ok(offsets)
}

/// The number times a factor, where that isn't negative and at most a bound.
fn scaled_at_most(bound: u64, number: i128, factor: u64) -> Option<u64>
    ensures { MatchOption result (¬ IsBetween bound (scaled factor number))
        (λ found. (scaled factor number ≡ pos found) × (found ≤ bound)) }
{
    if number < 0 {
        return None;
    }
    let product = number.unsigned_abs().checked_mul(u128::from(factor))?;
    if product > u128::from(bound) {
        return None;
    }
    Some(product as u64)
}

/// The number times a factor, which lies in the extent.
fn product(extent: u64, number: i128, factor: u64) -> u64
    requires { IsBetween extent (scaled factor number) }
    ensures { result ≡ natural (scaled factor number) }
{
    scaled_at_most(extent, number, factor).unwrap()
}

/// The numbers, each times a factor, which lie in the extent.
#[tactic(auto, using(crate::proofs::MakingLaws::between_at, crate::proofs::MakingLaws::products_more))]
fn products(alloc: Global, extent: u64, numbers: &[i128], factor: u64) -> Result<Items<u64>, Mem>
    requires { All (IsBetween extent) (map (scaled factor) numbers.now) }
    ensures { IfOk result (λ out. out ≡ map natural (map (scaled factor) numbers.now)) }
{
    let mut out = Items::new(alloc);
    for number in numbers {
        out.push(product(extent, *number, factor))?;
    }
    Ok(out)
}

/// The numbers again.
fn copied_numbers(alloc: Global, numbers: &[u64]) -> Result<Items<u64>, Mem>
    ensures { IfOk result (λ out. out ≡ numbers.now) }
{
    let mut out = Items::new(alloc);
    for number in numbers {
        out.push(*number)?;
    }
    Ok(out)
}

/// The listed offsets, which lie in the extent.
#[tactic(auto, using(crate::proofs::MakingLaws::same_numbers))]
fn listed(alloc: Global, extent: u64, listing: Listing<'_>) -> Result<Items<u64>, Mem>
    requires { All (IsBetween extent) (offsets_in listing) }
    ensures { IfOk result (λ out. out ≡ map natural (offsets_in listing.entry)) }
{
    match listing {
        Listing::Offsets(offsets) => copied_numbers(alloc, offsets),
        Listing::Scaled(numbers, factor) => products(alloc, extent, numbers, factor),
    }
}

/// The mark of the normal form for these offsets.
#[tactic(auto, unfolding(sh_sharding::specs::OffsetLists::normal_mark))]
fn normal(alloc: Global, extent: u64, parts: u64, offsets: Items<u64>) -> Result<Mark, Mem>
    requires some { 0 < parts }
    requires few { parts ≤ max_devices }
    ensures { IfOk result (λ mark. mark ≡ normal_mark extent parts offsets) }
{
    let balanced = balanced_offsets(alloc, extent, parts)?;
    if offsets == balanced {
        Ok(Mark::Balanced)
    } else {
        Ok(Mark::Offsets(offsets))
    }
}

/// The mark that a view describes.
#[tactic(auto, using(crate::proofs::MakingLaws::between_all))]
fn mark_of(alloc: Global, extent: u64, parts: u64, mark: MarkView<'_>) -> Result<Mark, Mem>
    requires dividing { IsDividing extent parts mark }
    requires small { extent ≤ max_cells }
    ensures { IfOk result (λ made. made ≡ mark_in extent parts mark.entry) }
{
    match mark {
        MarkView::Balanced => Ok(Mark::Balanced),
        MarkView::Listed(listing) => {
            let offsets = listed(alloc, extent, listing)?;
            normal(alloc, extent, parts, offsets)
        }
    }
}

/// The dimension that a view describes.
#[tactic(auto, unfolding(sh_sharding::specs::Views::described))]
fn dimension_of(alloc: Global, g: &Grid, view: &DimensionView<'_>) -> Result<Dimension, Mem>
    requires ordered { IsOrdered g.now.extents view.now }
    requires small { view.now.extent ≤ max_cells }
    ensures { IfOk result (λ d. d ≡ described g.now.extents view.now) }
{
    let axes = view.axes.as_slice();
    let mark = mark_of(alloc, view.extent, size_along(g, axes), view.mark)?;
    Ok(Dimension {
        extent: view.extent,
        axes: shape(alloc, axes),
        mark,
        low: view.low,
        high: view.high,
    })
}

/// The dimensions that views describe.
fn dimensions_of(alloc: Global, g: &Grid, views: &[DimensionView<'_>]) -> Result<Dimensions, Mem>
    requires ordered { All (IsOrdered g.now.extents) views.now }
    requires small { All (λ view. view.extent ≤ max_cells) views.now }
    ensures { IfOk result (λ ds. ds ≡ map (described g.now.extents) views.now) }
{
    let mut dimensions = Items::new(alloc);
    for view in views {
        dimensions.push(dimension_of(alloc, g, view)?)?;
    }
    Ok(dimensions)
}

/// How the dimensions of operand `v`, or of the result, are divided under an option.
#[tactic(auto, using(crate::proofs::MakingLaws::views_ordered, crate::proofs::MakingLaws::views_small, crate::proofs::MakingLaws::views_made))]
fn implied_dimensions<O: HasLoops>(
    alloc: Global,
    op: &O,
    g: &Grid,
    o: &LoopOption,
    v: u64,
) -> Result<Dimensions, Mem>
    requires nest { IsNest (O.meaning op.now).nest }
    requires valid { IsValid (O.meaning op.now).nest g.now o.now }
    requires v { v ≤ length (O.meaning op.now).nest.operands }
    requires plain { HasNoWindows (value_at (O.meaning op.now).nest v) }
    ensures { IfOk result (λ ds. ds ≡ (implied_of g.now (O.meaning op.now).nest o.now
        (value_at (O.meaning op.now).nest v)).dimensions) }
{
    let _grid = extents(g);
    let views = implied_views(op, o, v);
    dimensions_of(alloc, g, &views[..op.rank(v) as usize])
}

/// The sharding that a valid option implies of operand `v`, or of the result, which isn't read
/// through a window.
///
/// Errors: `Mem` where memory is wanting.
#[tactic(auto, using(crate::proofs::MakingLaws::implied_same, crate::proofs::MakingLaws::implied_made))]
pub fn implied_sharding<O: HasLoops>(
    alloc: Global,
    op: &O,
    g: &Grid,
    o: &LoopOption,
    v: u64,
) -> Result<Sharding, Mem>
    requires nest { IsNest (O.meaning op.now).nest }
    requires valid { IsValid (O.meaning op.now).nest g.now o.now }
    requires v { v ≤ length (O.meaning op.now).nest.operands }
    requires plain { HasNoWindows (value_at (O.meaning op.now).nest v) }
    ensures { IfOk result (λ s. s ≡ implied_of g.now (O.meaning op.now).nest o.now
        (value_at (O.meaning op.now).nest v)) }
{
    let dimensions = implied_dimensions(alloc, op, g, o, v)?;
    let grid = g.duplicate(alloc)?;
    Ok(from_dimensions(alloc, grid, dimensions))
}
