ghost use Rattle.std.specs.Prelude.{◌≡◌, ◌≢◌, false, ◌<◌, ◌≤◌, ◌↔◌, [], All, IfOk, IsTrue, MatchOption, length, map};
ghost use Rattle.sh_grid.specs.Grid.{AreAxesOf};
ghost use Rattle.sh_base.specs.Limits.{max_devices};
ghost use Rattle.sh_sharding.specs.AxisLists.{natural};
ghost use Rattle.sh_sharding.specs.OffsetLists.{AreAllOffsets, AreOffsets, HasOffsets, mark_of, marked, offset_count, with_mark};
ghost use Rattle.sh_sharding.specs.Sharding.{is_balanced_mark, is_split};

use crate::axis_lists::naturals;
use crate::offsets::{are_offsets, is_balanced};
use crate::{Dimension, Listing, Mark, MarkView};
use sh_base::{Items, Mem, shape};
use sh_grid::{Grid, group_size};
use std::alloc::Global;

/// Whether a dimension is split.
pub(crate) fn is_split_dimension(d: &Dimension) -> bool
    ensures { result ≡ is_split d.now }
{
    !d.axes.extents().is_empty()
}

/// Whether a mark is the balanced one.
pub(crate) fn is_balanced_mark(mark: &Mark) -> bool
    ensures { result ≡ is_balanced_mark mark.now }
{
    match mark {
        Mark::Balanced => true,
        Mark::Offsets(_) => false,
    }
}

/// How many of the written offsets are a dimension's.
fn offsets_taken(g: &Grid, d: &Dimension) -> usize
    requires { AreAxesOf (length g.now.extents) d.now.axes }
    ensures { result ≡ offset_count g.now.extents d.now }
{
    if is_split_dimension(d) {
        group_size(g, &d.axes) as usize + 1
    } else {
        0
    }
}

/// Whether a dimension that is split has these offsets.
fn has_offsets(g: &Grid, d: &Dimension, offsets: &[i128]) -> bool
    requires { AreAxesOf (length g.now.extents) d.now.axes }
    ensures { IsTrue result ↔ HasOffsets g.now.extents d.now offsets.now }
{
    !is_split_dimension(d)
        || are_offsets(
            d.extent,
            group_size(g, &d.axes),
            Listing::Scaled(offsets, 1),
        )
}

/// The mark of the normal form for the offsets of a dimension, of which there are none or all.
pub(crate) fn mark_for(
    alloc: Global,
    extent: u64,
    parts: u64,
    offsets: &[i128],
) -> Result<Mark, Mem>
    requires some { 0 < parts }
    requires few { parts ≤ max_devices }
    requires offsets { offsets.now ≢ [] → AreOffsets extent parts offsets.now }
    ensures { IfOk result (λ mark. mark ≡ mark_of extent parts (map natural offsets.now)) }
{
    if offsets.is_empty() {
        return Ok(Mark::Balanced);
    }
    if is_balanced(extent, parts, MarkView::Listed(Listing::Scaled(offsets, 1))) {
        return Ok(Mark::Balanced);
    }
    Ok(Mark::Offsets(Items::from_vec(naturals(alloc, offsets)?)))
}

/// The dimension with its offsets, of which there are none or all.
fn marked_dimension(
    alloc: Global,
    g: &Grid,
    d: &Dimension,
    offsets: &[i128],
) -> Result<Dimension, Mem>
    requires axes { AreAxesOf (length g.now.extents) d.now.axes }
    requires split { is_split d.now ≡ false → offsets.now ≡ [] }
    requires offsets { HasOffsets g.now.extents d.now offsets.now }
    ensures { IfOk result (λ marked. marked ≡ with_mark g.now.extents d.now offsets.now) }
{
    let mark = mark_for(alloc, d.extent, group_size(g, &d.axes), offsets)?;
    Ok(Dimension {
        extent: d.extent,
        axes: shape(alloc, d.axes.extents()),
        mark,
        low: d.low,
        high: d.high,
    })
}

/// The dimensions with their offsets, or `None` where some don't fit.
pub(crate) fn marked_dimensions(
    alloc: Global,
    g: &Grid,
    dimensions: &[Dimension],
    offsets: &[i128],
) -> Result<Option<Vec<Dimension>>, Mem>
    requires { All (λ d. AreAxesOf (length g.now.extents) d.axes) dimensions.now }
    ensures { IfOk result (λ found. MatchOption found
        (¬ AreAllOffsets g.now.extents dimensions.now offsets.now)
        (λ out. AreAllOffsets g.now.extents dimensions.now offsets.now
        × (out.items ≡ marked g.now.extents dimensions.now offsets.now))) }
{
    let mut out = Vec::new(alloc);
    let mut rest = offsets;
    for dimension in dimensions {
        let (mine, others) = rest.split_at(offsets_taken(g, dimension).min(rest.len()));
        if !has_offsets(g, dimension, mine) {
            return Ok(None);
        }
        out.push(marked_dimension(alloc, g, dimension, mine)?)?;
        rest = others;
    }
    if rest.is_empty() {
        Ok(Some(out))
    } else {
        Ok(None)
    }
}
