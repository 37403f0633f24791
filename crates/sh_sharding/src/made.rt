ghost use Rattle.std.specs.Prelude.{◌≡◌, ◌≤◌, IfOk, length, map};
ghost use Rattle.sh_base.specs.Shape.{max_rank};
ghost use Rattle.sh_sharding.specs.Made.{plain, without_halos};
ghost use Rattle.sh_sharding.specs.Sharding.{IsSharding};

use crate::reading::{dimensions, grid};
use crate::{Dimension, Dimensions, Mark, Sharding, whole};
use sh_base::{Duplicate, Items, MAX_RANK, Mem, Shape, shape};
use sh_grid::Grid;
use std::alloc::Global;

impl Duplicate for Mark {
    fn duplicate(&self, alloc: Global) -> Result<Mark, Mem> {
        match self {
            Mark::Balanced => Ok(Mark::Balanced),
            Mark::Offsets(offsets) => Ok(Mark::Offsets(offsets.duplicate(alloc)?)),
        }
    }
}

impl Duplicate for Dimension {
    fn duplicate(&self, alloc: Global) -> Result<Dimension, Mem> {
        let mark = self.mark.duplicate(alloc)?;
        Ok(Dimension {
            extent: self.extent,
            axes: shape(alloc, self.axes.extents()),
            mark,
            low: self.low,
            high: self.high,
        })
    }
}

impl Duplicate for Sharding {
    fn duplicate(&self, alloc: Global) -> Result<Sharding, Mem> {
        let grid = self.grid.duplicate(alloc)?;
        let dimensions = self.dimensions.duplicate(alloc)?;
        Ok(Sharding {
            grid,
            whole: shape(alloc, self.whole.extents()),
            dimensions,
        })
    }
}

/// The extents of dimensions.
fn extents_of(alloc: Global, dimensions: &[Dimension]) -> Shape
    requires { length dimensions.now ≤ max_rank }
    ensures { result ≡ map (λ d. d.extent) dimensions.now }
{
    let mut extents = [0; MAX_RANK];
    for (at, dimension) in dimensions.iter().enumerate() {
        extents[at] = dimension.extent;
    }
    shape(alloc, &extents[..dimensions.len()])
}

/// The sharding on a grid that divides each dimension so, which must be an admitted one in normal
/// form. It takes no memory and can't be refused.
pub fn from_dimensions(alloc: Global, grid: Grid, dimensions: Dimensions) -> Sharding
    requires { IsSharding (record { grid = grid; dimensions = dimensions }) }
    ensures { result ≡ record { grid = grid; dimensions = dimensions } }
{
    let whole = extents_of(alloc, dimensions.as_slice());
    Sharding {
        grid,
        whole,
        dimensions,
    }
}

/// A dimension without its halos.
fn plain_dimension(alloc: Global, d: &Dimension) -> Result<Dimension, Mem>
    ensures { IfOk result (λ bare. bare ≡ plain d.now) }
{
    let copy = d.duplicate(alloc)?;
    Ok(Dimension {
        low: 0,
        high: 0,
        ..copy
    })
}

/// The dimensions without their halos.
fn plain_dimensions(alloc: Global, dimensions: &[Dimension]) -> Result<Dimensions, Mem>
    ensures { IfOk result (λ bare. bare ≡ map plain dimensions.now) }
{
    let mut bare = Items::new(alloc);
    for dimension in dimensions {
        bare.push(plain_dimension(alloc, dimension)?)?;
    }
    Ok(bare)
}

/// The sharding without its halos: axes and offsets are as they were.
///
/// Errors: `Mem` where memory is wanting.
pub fn without_halos(alloc: Global, s: &Sharding) -> Result<Sharding, Mem>
    ensures { IfOk result (λ bare. bare ≡ without_halos s.now) }
{
    let _admitted = whole(s);
    let grid = grid(s).duplicate(alloc)?;
    let bare = plain_dimensions(alloc, dimensions(s))?;
    Ok(from_dimensions(alloc, grid, bare))
}
