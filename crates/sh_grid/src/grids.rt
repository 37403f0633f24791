ghost use Rattle.std.specs.Prelude.{◌≡◌, ◌<◌, ◌≤◌, ◌↔◌, IsTrue};
ghost use Rattle.std.specs.Option.{SomeIff};
ghost use Rattle.sh_base.specs.Shape.{cell_count, IsIndexOf, unflat_of};
ghost use Rattle.sh_grid.specs.Grid.{IsGrid};
ghost use Rattle.sh_base.specs.Limits.{max_devices};

use sh_base::{Duplicate, Mem, Same, Shape, Text, count, shape, unflat};
use std::alloc::Global;
use std::marker::Model;

/// The greatest number of axes of a grid.
pub const MAX_AXES: usize = 4;

/// The greatest number of devices of a grid.
pub const MAX_DEVICES: u64 = 1024;

/// A named grid of devices: one to four axes, each of extent at least 1, with at most 1,024
/// devices.
#[derive(Debug, Drop)]
pub struct Grid {
    name: Text,
    extents: Shape,
}

impl Model for Grid {
    ghost use Rattle.sh_grid.specs.Grid.{GridValue, IsGrid};

    ghost Value = { GridValue };

    ghost view = { λ g. record { name = g.name; extents = g.extents } };

    ghost invariant = { λ g. IsGrid g.extents };
}

/// Whether a grid may have these extents.
fn is_grid(extents: &Shape) -> bool
    ensures { IsTrue result ↔ IsGrid extents.now }
{
    let axes = extents.extents().len();
    if axes == 0 || axes > MAX_AXES {
        return false;
    }
    match count(extents) {
        // The product is 0 where an extent is.
        Some(total) => total > 0 && total <= MAX_DEVICES,
        None => false,
    }
}

/// The grid with this name and these extents. `None` where there is no axis or there are more than
/// four, an extent is 0, or there would be more than 1,024 devices. It takes no memory.
pub fn make(name: Text, extents: Shape) -> Option<Grid>
    ensures { SomeIff result (IsGrid extents) (record { name = name; extents = extents }) }
{
    if is_grid(&extents) {
        Some(Grid { name, extents })
    } else {
        None
    }
}

/// The name with which the grid was made.
pub fn name(g: &Grid) -> &Text
    ensures { result.now ≡ g.now.name }
{
    &g.name
}

/// The extents of the grid's axes.
pub fn extents(g: &Grid) -> &Shape
    ensures value { result.now ≡ g.now.extents }
    ensures grid { IsGrid g.now.extents }
{
    &g.extents
}

/// How many devices the grid has.
pub fn devices(g: &Grid) -> u64
    ensures value { result ≡ cell_count g.now.extents }
    ensures some { 0 < result }
    ensures few { result ≤ max_devices }
{
    count(&g.extents).unwrap()
}

/// The coordinates of a device, one for each axis. It takes no memory.
pub fn coords(alloc: Global, g: &Grid, device: u64) -> Shape
    requires { device < cell_count g.now.extents }
    ensures value { result ≡ unflat_of g.now.extents device }
    ensures within { IsIndexOf g.now.extents result }
{
    unflat(alloc, &g.extents, device)
}

impl Same for Grid {
    fn same(&self, other: &Grid) -> bool {
        self.name.same(&other.name) && self.extents.same(&other.extents)
    }
}

impl Duplicate for Grid {
    fn duplicate(&self, alloc: Global) -> Result<Grid, Mem> {
        let name = self.name.duplicate(alloc)?;
        Ok(Grid {
            name,
            extents: shape(alloc, self.extents.extents()),
        })
    }
}
