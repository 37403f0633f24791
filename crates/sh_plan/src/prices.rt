ghost use Rattle.std.specs.Prelude.{◌≡◌, ◌*◌, ◌<◌, ◌≤◌, ℕ, IsTrue, get_or, length, true};
ghost use Rattle.sh_base.specs.Limits.{max_devices};
ghost use Rattle.sh_base.specs.Shape.{cell_count, max_cells};
ghost use Rattle.sh_sharding.specs.Made.{IsState};
ghost use Rattle.sh_sharding.specs.Sharding.{dimension_of, is_split};
ghost use Rattle.sh_plan.specs.Costs.{cost_from, held_by, part_cells};
ghost use Rattle.sh_plan.specs.Moves.{IsStep, is_even_or_unsplit, last_axis};

use crate::Move;
use crate::allowed::{is_regular_along, last_axis_along};
use sh_grid::{devices, extents};
use sh_sharding::{Sharding, grid, rank, size, whole};

/// How many cells a device's part holds.
fn cells_of(s: &Sharding, device: u64) -> u64
    requires { device < cell_count s.now.grid.extents }
    ensures value { result ≡ part_cells s.now.grid.extents device s.now.dimensions }
    ensures few { result ≤ max_cells }
{
    let _admitted = whole(s);
    let mut cells = 1;
    for dim in 0..rank(s) {
        let long = size(s, grid(s), dim, device);
        cells *= long;
    }
    cells
}

/// Whether each dimension is even, or not split: all parts are then of one size.
fn is_regular(s: &Sharding) -> bool
    ensures { IsTrue result → (dim : ℕ) → dim < length s.now.dimensions
        → is_even_or_unsplit s.now.grid.extents (dimension_of s.now dim) ≡ true }
{
    for dim in 0..rank(s) {
        if !is_regular_along(s, dim) {
            return false;
        }
    }
    true
}

/// How many cells the parts of all devices hold, part by part.
fn counted(s: &Sharding) -> u64
    ensures value { result ≡ held_by s.now }
    ensures few { result ≤ max_devices * max_cells }
{
    let mut cells = 0;
    for device in 0..devices(grid(s)) {
        let own = cells_of(s, device);
        cells += own;
    }
    cells
}

/// How many cells the parts of all devices hold. It takes no memory.
pub(crate) fn held(s: &Sharding) -> u64
    ensures value { result ≡ held_by s.now }
    ensures few { result ≤ max_devices * max_cells }
{
    let _admitted = whole(s);
    let (all, first) = (devices(grid(s)), cells_of(s, 0));
    if is_regular(s) {
        all * first
    } else {
        counted(s)
    }
}

/// The extent of the axis that splits a dimension innermost.
fn last_extent(s: &Sharding, dim: u64) -> u64
    requires dim { dim < length s.now.dimensions }
    requires split { is_split (dimension_of s.now dim) ≡ true }
    ensures { result ≡ get_or s.now.grid.extents (last_axis (dimension_of s.now dim)) 0 }
{
    extents(grid(s)).extents()[last_axis_along(s, dim) as usize]
}

/// What a move costs that leads from one state to another, by how many cells the parts of the first
/// hold. No part grows in `M2` and `M5`; none shrinks in `M1` and `M4`, and in `M1` each grows by
/// the extent of its axis; in `M3` each device keeps one part in so many. It takes no memory.
pub(crate) fn move_cost(s: &Sharding, next: &Sharding, m: Move, cells: u64) -> u64
    requires state { IsState s.now }
    requires next { IsState next.now }
    requires step { IsStep s.now next.now m }
    requires cells { cells ≡ held_by s.now }
    ensures { result ≡ cost_from s.now next.now }
{
    match m {
        Move::M1 { d } => 1 + (last_extent(s, d) - 1) * cells,
        Move::M2 { .. } | Move::M5 { .. } => 1,
        Move::M3 { d, .. } => 1 + (cells - cells / last_extent(s, d)),
        Move::M4 { .. } => 1 + (held(next) - cells),
    }
}
