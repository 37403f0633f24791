ghost use Rattle.std.specs.Prelude.{◌≡◌, ◌+◌, ◌^◌, ◌<◌, ◌≤◌, IfOk, length, set, slice_index};
ghost use Rattle.sh_base.specs.Shape.{cell_count, max_cells};
ghost use Rattle.sh_sharding.specs.Windows.{padded_of, undefined_of};

use sh_base::{Cell, Mem, Shape, Width, count};
use sh_tensor::{Tensor, build, concat, with_extent};
use std::alloc::Global;

/// A tensor of undefined cells.
fn undefined(alloc: Global, shape: Shape, width: Width) -> Result<Tensor, Mem>
    requires { cell_count shape ≤ max_cells }
    ensures { IfOk result (λ t. t ≡ undefined_of shape width) }
{
    let cells = count(&shape).unwrap() as usize;
    Ok(build(shape, width, vec![in alloc; Cell::Undef; cells]?))
}

/// The tensor with so many undefined cells before and after it along an axis.
pub(crate) fn padded(
    alloc: Global,
    t: Tensor,
    axis: u64,
    before: u64,
    after: u64,
) -> Result<Tensor, Mem>
    requires axis { axis < length t.shape }
    requires extent { before + slice_index t.shape axis + after < 2 ^ 64 }
    requires small { cell_count (set t.shape axis (before + slice_index t.shape axis + after))
        ≤ max_cells }
    ensures { IfOk result (λ padded. padded ≡ padded_of t axis before after) }
{
    let extent = t.shape().extents()[axis as usize];
    if before + extent + after == extent {
        return Ok(t);
    }
    let width = t.width();
    let first = undefined(alloc, with_extent(alloc, t.shape(), axis, before), width)?;
    let last = undefined(alloc, with_extent(alloc, t.shape(), axis, after), width)?;
    let parts = Vec::from_array(alloc, [first, t, last])?;
    concat(alloc, &parts, axis)
}
