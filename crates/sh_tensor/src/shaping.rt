ghost use Rattle.std.specs.Prelude.{◌≡◌, ◌<◌, ◌≤◌, ◌↔◌, IsTrue, length, set, take};
ghost use Rattle.sh_base.specs.Shape.{cell_count, max_cells};

use sh_base::{MAX_RANK, Shape, count, shape};
use std::alloc::Global;

/// The shape with another extent on an axis. It takes no memory.
pub fn with_extent(alloc: Global, s: &Shape, axis: u64, extent: u64) -> Shape
    requires { axis < length s.now }
    ensures { result ≡ set s.now axis extent }
{
    let old = s.extents();
    let mut buffer = [0; MAX_RANK];
    let extents = &mut buffer[..old.len()];
    extents.copy_from_slice(old);
    extents[axis as usize] = extent;
    shape(alloc, extents)
}

/// How many rows the cells of this shape have that begin at an index on the axes before the given one.
pub fn rows_before(s: &Shape, axis: u64) -> usize
    requires axis { axis < length s.now }
    requires some { 0 < cell_count s.now }
    requires small { cell_count s.now ≤ max_cells }
    ensures value { result ≡ cell_count (take axis s.now) }
    ensures some { 0 < result }
    ensures small { result ≤ max_cells }
{
    let mut rows = 1;
    for extent in &s.extents()[..axis as usize] {
        rows *= *extent;
    }
    rows as usize
}

/// Whether a tensor of this shape has no cell.
pub fn is_empty(s: &Shape) -> bool
    requires { cell_count s.now ≤ max_cells }
    ensures { IsTrue result ↔ (cell_count s.now ≡ 0) }
{
    count(s) == Some(0)
}
