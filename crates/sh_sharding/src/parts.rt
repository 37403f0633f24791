ghost use Rattle.std.specs.Prelude.{◌≡◌, ◌+◌, ◌<◌, ◌≤◌, length};
ghost use Rattle.sh_base.specs.Shape.{cell_count};
ghost use Rattle.sh_grid.specs.Grid.{AreAxesOf, IsGrid};
ghost use Rattle.sh_sharding.specs.Sharding.{IsDimension, size_in, size_of, start_in, start_of};
ghost use Rattle.sh_sharding.specs.declared.shardings.Mark.TheVariants.{Balanced};

use crate::offsets::{Division, division_of, offset, part_size};
use crate::reading::dimension;
use crate::{Dimension, Sharding};
use sh_grid::{Grid, place_in_group};

/// Where the part of a device begins along a dimension, and how long it is.
pub(crate) fn span(g: &Grid, d: &Dimension, device: u64) -> (u64, u64)
    requires grid { IsGrid g.now.extents }
    requires axes { AreAxesOf (length g.now.extents) d.now.axes }
    requires admitted { IsDimension g.now.extents d.now }
    requires device { device < cell_count g.now.extents }
    ensures start { result.0 ≡ start_in g.now.extents device d.now }
    ensures size { result.1 ≡ size_in g.now.extents device d.now }
    ensures within { result.0 + result.1 ≤ d.now.extent }
    ensures low { d.now.low ≤ result.1 }
    ensures high { d.now.high ≤ result.1 }
{
    let Division { parts, mark } = division_of(g, d);
    let part = place_in_group(g, &d.axes, device);
    (
        offset(d.extent, parts, mark, part),
        part_size(d.extent, parts, mark, part),
    )
}

/// Where a device's part begins along a dimension, without halos.
pub fn start(s: &Sharding, g: &Grid, dim: u64, device: u64) -> u64
    requires grid { s.now.grid ≡ g.now }
    requires dim { dim < length s.now.dimensions }
    requires device { device < cell_count g.now.extents }
    ensures { result ≡ start_of s.now dim device }
{
    span(g, dimension(s, dim), device).0
}

/// How long a device's part is along a dimension, without halos.
pub fn size(s: &Sharding, g: &Grid, dim: u64, device: u64) -> u64
    requires grid { s.now.grid ≡ g.now }
    requires dim { dim < length s.now.dimensions }
    requires device { device < cell_count g.now.extents }
    ensures { result ≡ size_of s.now dim device }
{
    span(g, dimension(s, dim), device).1
}
