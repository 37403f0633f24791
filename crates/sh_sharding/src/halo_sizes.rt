ghost use Rattle.std.specs.Prelude.{◌≡◌, ◌*◌, ◌≤◌, ◌↔◌, pos, All, IfOk, IsTrue, MatchOption, count_by, length, max, slice_index_or};
ghost use Rattle.std.specs.List.{AllByRecursion};
ghost use Rattle.sh_base.specs.Shape.{max_cells};
ghost use Rattle.sh_grid.specs.Grid.{IsGrid};
ghost use Rattle.sh_sharding.specs.AxisLists.{IsNatural, natural};
ghost use Rattle.sh_sharding.specs.HaloSizes.{HalosFit, halo_count, haloed, with_halos};
ghost use Rattle.sh_sharding.specs.Sharding.{IsMarked, is_split};

use crate::Dimension;
use crate::offset_lists::is_split_dimension;
use crate::offsets::{Division, are_parts_at_least, division_of};
use sh_base::{Duplicate, Mem, shape};
use sh_grid::Grid;
use std::alloc::Global;

/// How many dimensions are split.
pub(crate) fn split_count(dimensions: &[Dimension]) -> usize
    ensures { result ≡ count_by is_split dimensions.now }
{
    dimensions
        .iter()
        .filter(|dimension| is_split_dimension(dimension))
        .count()
}

/// Whether no number is negative.
fn are_naturals(numbers: &[i128]) -> bool
    ensures { IsTrue result ↔ All IsNatural numbers.now }
{
    numbers.iter().all(|number| *number >= 0)
}

/// Whether these are two halo sizes for each of so many split dimensions, of which none is
/// negative.
pub(crate) fn are_halos(halos: &[i128], split: usize) -> bool
    ensures { IsTrue result ↔ ((length halos.now ≡ 2 * split) × All IsNatural halos.now) }
{
    halos.len() % 2 == 0 && halos.len() / 2 == split && are_naturals(halos)
}

/// The number at a place, 0 past the end.
fn number_at(numbers: &[i128], at: usize) -> u128
    requires { All IsNatural numbers.now }
    ensures { result ≡ natural (slice_index_or numbers.now at (pos 0)) }
{
    if at < numbers.len() {
        numbers[at] as u128
    } else {
        0
    }
}

/// The dimension with halos of these sizes.
fn with_sizes(alloc: Global, d: &Dimension, low: u128, high: u128) -> Result<Dimension, Mem>
    requires { max low high ≤ max_cells }
    ensures { IfOk result (λ out. out ≡ record {
      extent = d.now.extent;
      axes = d.now.axes;
      mark = d.now.mark;
      low = low;
      high = high;
    }) }
{
    let own = d.mark.duplicate(alloc)?;
    Ok(Dimension {
        extent: d.extent,
        axes: shape(alloc, d.axes.extents()),
        mark: own,
        low: low as u64,
        high: high as u64,
    })
}

/// The dimension with its halos, or `None` where one is longer than a part.
fn haloed_dimension(
    alloc: Global,
    g: &Grid,
    d: &Dimension,
    halos: &[i128],
) -> Result<Option<Dimension>, Mem>
    requires grid { IsGrid g.now.extents }
    requires marked { IsMarked g.now.extents d.now }
    requires small { d.now.extent ≤ max_cells }
    requires naturals { All IsNatural halos.now }
    ensures { IfOk result (λ found. MatchOption found
        (¬ HalosFit g.now.extents (haloed d.now halos.now))
        (λ out. HalosFit g.now.extents (haloed d.now halos.now) × (out ≡ haloed d.now halos.now))) }
{
    let low = number_at(halos, 0);
    let high = number_at(halos, 1);
    let Division { parts, mark } = division_of(g, d);
    if !are_parts_at_least(d.extent, parts, mark, low.max(high)) {
        return Ok(None);
    }
    Ok(Some(with_sizes(alloc, d, low, high)?))
}

/// How many of the written halo sizes are a dimension's.
fn halos_taken(d: &Dimension) -> usize
    ensures { result ≡ halo_count d.now }
{
    if is_split_dimension(d) { 2 } else { 0 }
}

/// The dimensions with their halos, or `None` where one is longer than a part of its dimension.
pub(crate) fn haloed_dimensions(
    alloc: Global,
    g: &Grid,
    dimensions: &[Dimension],
    halos: &[i128],
) -> Result<Option<Vec<Dimension>>, Mem>
    requires grid { IsGrid g.now.extents }
    requires marked { All (IsMarked g.now.extents) dimensions.now }
    requires small { All (λ d. d.extent ≤ max_cells) dimensions.now }
    requires naturals { All IsNatural halos.now }
    ensures { IfOk result (λ found. MatchOption found
        (¬ AllByRecursion (HalosFit g.now.extents) (with_halos dimensions.now halos.now))
        (λ out. AllByRecursion (HalosFit g.now.extents) (with_halos dimensions.now halos.now)
        × (out.items ≡ with_halos dimensions.now halos.now))) }
{
    let mut out = Vec::new(alloc);
    let mut rest = halos;
    for dimension in dimensions {
        let (mine, others) = rest.split_at(halos_taken(dimension).min(rest.len()));
        match haloed_dimension(alloc, g, dimension, mine)? {
            Some(haloed) => out.push(haloed)?,
            None => return Ok(None),
        }
        rest = others;
    }
    Ok(Some(out))
}
