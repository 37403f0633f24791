ghost use Rattle.std.specs.Prelude.{◌≡◌, ◌+◌, ◌*◌, ◌<◌, ◌≤◌, All, length};
ghost use Rattle.sh_base.specs.Shape.{max_cells};
ghost use Rattle.sh_grid.specs.Grid.{AreAxesOf, IsGrid};
ghost use Rattle.sh_base.specs.Limits.{max_devices};
ghost use Rattle.sh_sharding.specs.LocalTypes.{local_dim};
ghost use Rattle.sh_sharding.specs.Sharding.{IsDimension, IsMarked, IsSharding, dimension_of, is_even, offset_at, parts_of, whole_of};

use crate::offset_lists::{is_balanced_mark, is_split_dimension};
use crate::offsets::{self, Division, common_size, division_of, is_even_division};
use crate::{Dimension, Sharding};
use sh_base::Shape;
use sh_grid::{Grid, group_size};
use sh_ir::Dim;

/// The shape of the tensor that is divided.
pub fn whole(s: &Sharding) -> &Shape
    ensures value { result.now ≡ whole_of s.now }
    ensures admitted { IsSharding s.now }
{
    &s.whole
}

/// The grid on which a sharding divides.
pub fn grid(s: &Sharding) -> &Grid
    ensures { result.now ≡ s.now.grid }
{
    &s.grid
}

/// How each dimension is divided.
pub fn dimensions(s: &Sharding) -> &[Dimension]
    ensures value { result.now ≡ s.now.dimensions }
    ensures marked { All (IsMarked s.now.grid.extents) result.now }
{
    s.dimensions.as_slice()
}

/// How many dimensions the tensor has.
pub fn rank(s: &Sharding) -> u64
    ensures value { result ≡ length s.now.dimensions }
    ensures admitted { IsSharding s.now }
{
    s.dimensions.len() as u64
}

/// How a dimension is divided.
pub fn dimension(s: &Sharding, dim: u64) -> &Dimension
    requires { dim < length s.now.dimensions }
    ensures value { result.now ≡ dimension_of s.now dim }
    ensures grid { IsGrid s.now.grid.extents }
    ensures axes { AreAxesOf (length s.now.grid.extents) result.now.axes }
    ensures admitted { IsDimension s.now.grid.extents result.now }
    ensures small { result.now.extent ≤ max_cells }
{
    &s.dimensions.as_slice()[dim as usize]
}

/// The grid axes that split a dimension, the outermost first; none where it isn't split.
pub fn axes(s: &Sharding, dim: u64) -> &Shape
    requires { dim < length s.now.dimensions }
    ensures { result.now ≡ (dimension_of s.now dim).axes }
{
    &dimension(s, dim).axes
}

/// How many cells a shard holds besides its own along a dimension, at its start and at its end; 0
/// and 0 where it has no halo.
pub fn halo(s: &Sharding, dim: u64) -> (u64, u64)
    requires { dim < length s.now.dimensions }
    ensures low { result.0 ≡ (dimension_of s.now dim).low }
    ensures high { result.1 ≡ (dimension_of s.now dim).high }
{
    let dimension = dimension(s, dim);
    (dimension.low, dimension.high)
}

/// How many parts a dimension has; 1 where it isn't split.
#[tactic(auto, unfolding(crate::specs::Sharding::parts_of))]
pub fn part_count(s: &Sharding, dim: u64) -> u64
    requires { dim < length s.now.dimensions }
    ensures value { result ≡ parts_of s.now.grid.extents (dimension_of s.now dim) }
    ensures some { 0 < result }
    ensures few { result ≤ max_devices }
{
    let dimension = dimension(s, dim);
    group_size(grid(s), &dimension.axes)
}

/// Where a part of a dimension begins. The part after the last begins at the extent.
pub fn offset(s: &Sharding, dim: u64, part: u64) -> u64
    requires dim { dim < length s.now.dimensions }
    requires part { part ≤ parts_of s.now.grid.extents (dimension_of s.now dim) }
    ensures value { result ≡ offset_at s.now.grid.extents (dimension_of s.now dim) part }
    ensures within { result ≤ (dimension_of s.now dim).extent }
{
    let d = dimension(s, dim);
    let Division { parts, mark } = division_of(grid(s), d);
    offsets::offset(d.extent, parts, mark, part)
}

/// Whether a dimension is even: split, balanced, and divisible by its number of parts.
pub fn is_even(s: &Sharding, dim: u64) -> bool
    requires { dim < length s.now.dimensions }
    ensures { result ≡ is_even s.now.grid.extents (dimension_of s.now dim) }
{
    let d = dimension(s, dim);
    is_split_dimension(d)
        && is_even_division(d.extent, part_count(s, dim), is_balanced_mark(&d.mark))
}

/// The extent of a part of this size, halos included.
fn haloed_size(d: &Dimension, size: u64) -> u64
    requires { d.now.low + size + d.now.high ≤ 3 * max_cells }
    ensures { result ≡ d.now.low + size + d.now.high }
{
    d.low + size + d.high
}

/// The extent of the local tensors along a dimension, halos included: `Differs` unless all parts
/// have one size.
pub fn local_extent(s: &Sharding, dim: u64) -> Dim
    requires { dim < length s.now.dimensions }
    ensures { result ≡ local_dim s.now.grid.extents (dimension_of s.now dim) }
{
    let d = dimension(s, dim);
    let Division { parts, mark } = division_of(grid(s), d);
    match common_size(d.extent, parts, mark) {
        Some(size) => Dim::Known(haloed_size(d, size)),
        None => Dim::Differs,
    }
}
