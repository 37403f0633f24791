ghost use Rattle.std.specs.Prelude.{◌≡◌, ◌++◌, All, IfOk, OnOk, map, pos};
ghost use Rattle.std.specs.List.{list_any};
ghost use Rattle.sh_sharding.specs.Admission.{IsAdmitted, sharding_of};
ghost use Rattle.sh_sharding.specs.Sharding.{IsMarked, whole_of};
ghost use Rattle.sh_sharding.specs.Spelling.{all_offsets_of, halo_sizes, halos_of, has_halo, is_unbalanced, part_offsets, raw_of, written_dimensions};

use crate::normal::up_to_last_split;
use crate::offset_lists::{is_balanced_mark, is_split_dimension};
use crate::offsets::{Division, division_of, offset};
use crate::reading::{dimensions, grid};
use crate::{Dimension, Sharding, whole};
use sh_base::{AxisLists, Duplicate, Items, Mem, Numbers};
use sh_grid::{Grid, name};
use sh_ir::RawSharding;
use std::alloc::Global;

/// The numbers as a text writes them.
fn integers(alloc: Global, numbers: &[u64]) -> Result<Numbers, Mem>
    ensures { IfOk result (λ out. out ≡ map pos numbers.now) }
{
    let mut out = Items::new(alloc);
    for number in numbers {
        out.push(i128::from(*number))?;
    }
    Ok(out)
}

/// The dimensions whose lists of axes are written.
fn written_dimensions(dimensions: &[Dimension]) -> &[Dimension]
    ensures { result.now ≡ written_dimensions dimensions.now }
{
    let split = up_to_last_split(dimensions).len();
    // One empty list stands for a tensor that isn't split.
    &dimensions[..split.max(1).min(dimensions.len())]
}

/// The lists of axes of the dimensions.
fn axis_lists(alloc: Global, dimensions: &[Dimension]) -> Result<AxisLists, Mem>
    ensures { IfOk result (λ lists. lists ≡ map (λ d. map pos d.axes) dimensions.now) }
{
    let mut lists = Items::new(alloc);
    for dimension in dimensions {
        lists.push(integers(alloc, dimension.axes.extents())?)?;
    }
    Ok(lists)
}

/// Whether a dimension has a halo.
fn has_halo(d: &Dimension) -> bool
    ensures { result ≡ has_halo d.now }
{
    d.low > 0 || d.high > 0
}

/// Whether some dimension has a halo.
fn is_any_haloed(dimensions: &[Dimension]) -> bool
    ensures { result ≡ list_any has_halo dimensions.now }
{
    dimensions.iter().any(has_halo)
}

/// Appends the halo sizes of a dimension, if it is split.
fn push_halo_sizes(halos: &mut Numbers, d: &Dimension) -> Result<(), Mem>
    ensures { OnOk result (halos.new ≡ halos.old ++ halo_sizes d.now) }
{
    if is_split_dimension(d) {
        halos.push(i128::from(d.low))?;
        halos.push(i128::from(d.high))?;
    }
    Ok(())
}

/// The halo sizes of all dimensions, or none where no dimension has a halo.
fn all_halo_sizes(alloc: Global, dimensions: &[Dimension]) -> Result<Numbers, Mem>
    ensures { IfOk result (λ halos. halos ≡ halos_of dimensions.now) }
{
    let mut halos = Items::new(alloc);
    if !is_any_haloed(dimensions) {
        return Ok(halos);
    }
    for dimension in dimensions {
        push_halo_sizes(&mut halos, dimension)?;
    }
    Ok(halos)
}

/// Whether the normal form has offsets for a dimension.
fn is_unbalanced(d: &Dimension) -> bool
    ensures { result ≡ is_unbalanced d.now }
{
    !is_balanced_mark(&d.mark)
}

/// Whether the normal form has offsets for some dimension.
fn is_any_unbalanced(dimensions: &[Dimension]) -> bool
    ensures { result ≡ list_any is_unbalanced dimensions.now }
{
    dimensions.iter().any(is_unbalanced)
}

/// Appends the offsets of a dimension, if it is split.
fn push_offsets(offsets: &mut Numbers, g: &Grid, d: &Dimension) -> Result<(), Mem>
    requires { IsMarked g.now.extents d.now }
    ensures { OnOk result (offsets.new ≡ offsets.old ++ part_offsets g.now.extents d.now) }
{
    if !is_split_dimension(d) {
        return Ok(());
    }
    let Division { parts, mark } = division_of(g, d);
    for part in 0..parts + 1 {
        offsets.push(i128::from(offset(d.extent, parts, mark, part)))?;
    }
    Ok(())
}

/// The offsets of all dimensions, or none where each is balanced.
fn all_offsets(alloc: Global, g: &Grid, dimensions: &[Dimension]) -> Result<Numbers, Mem>
    requires { All (IsMarked g.now.extents) dimensions.now }
    ensures { IfOk result (λ offsets. offsets ≡ all_offsets_of g.now.extents dimensions.now) }
{
    let mut offsets = Items::new(alloc);
    if !is_any_unbalanced(dimensions) {
        return Ok(offsets);
    }
    for dimension in dimensions {
        push_offsets(&mut offsets, g, dimension)?;
    }
    Ok(offsets)
}

/// What is written is admitted, and stands for the sharding.
fn spelling_laws(s: &Sharding)
    ensures admitted { IsAdmitted s.now.grid (raw_of s.now) (whole_of s.now) }
    ensures again { sharding_of s.now.grid (raw_of s.now) (whole_of s.now) ≡ s.now }
{
    let _whole = whole(s);
}

/// The sharding as a text writes it, in normal form: lists of axes up to the last dimension that is
/// split, or one empty list where none is; halo sizes where some dimension has a halo, and offsets
/// where some dimension isn't balanced, then of each dimension that is split. For a tensor of the
/// same shape it is admitted, and stands for this sharding.
///
/// Errors: `Mem` where memory is wanting.
pub fn raw(alloc: Global, s: &Sharding) -> Result<RawSharding, Mem>
    ensures value { IfOk result (λ written. written ≡ raw_of s.now) }
    ensures admitted { IsAdmitted s.now.grid (raw_of s.now) (whole_of s.now) }
    ensures again { sharding_of s.now.grid (raw_of s.now) (whole_of s.now) ≡ s.now }
{
    spelling_laws(s);
    let dimensions = dimensions(s);
    Ok(RawSharding {
        grid: name(grid(s)).duplicate(alloc)?,
        split: axis_lists(alloc, written_dimensions(dimensions))?,
        halos: all_halo_sizes(alloc, dimensions)?,
        offsets: all_offsets(alloc, grid(s), dimensions)?,
    })
}
