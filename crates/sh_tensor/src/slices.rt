ghost use Rattle.std.specs.Prelude.{◌≡◌, ◌+◌, ◌*◌, ◌/◌, ◌<◌, ◌≤◌, IfOk, length, set, slice_index};
ghost use Rattle.sh_base.specs.Shape.{cell_count};
ghost use Rattle.sh_tensor.specs.Runs.{runs_of};
ghost use Rattle.sh_tensor.specs.Tensor.{slice_of};

use crate::Tensor;
use crate::shaping::{is_empty, rows_before, with_extent};
use sh_base::{Cell, Mem, Shape};
use std::alloc::Global;

/// The part of a tensor along an axis from `start` on, `size` long, or want of memory.
pub fn slice(alloc: Global, t: &Tensor, axis: u64, start: u64, size: u64) -> Result<Tensor, Mem>
    requires axis { axis < length t.now.shape }
    requires within { start + size ≤ slice_index t.now.shape axis }
    ensures { IfOk result (λ part. part ≡ slice_of t.now axis start size) }
{
    let shape = with_extent(alloc, t.shape(), axis, size);
    let cells = sliced_cells(alloc, t, &shape, axis, start, size)?;
    Ok(Tensor {
        shape,
        width: t.width(),
        cells,
    })
}

/// The cells of a slice of this shape.
fn sliced_cells(
    alloc: Global,
    t: &Tensor,
    shape: &Shape,
    axis: u64,
    start: u64,
    size: u64,
) -> Result<Vec<Cell>, Mem>
    requires axis { axis < length t.now.shape }
    requires within { start + size ≤ slice_index t.now.shape axis }
    requires shape { shape.now ≡ set t.now.shape axis size }
    ensures { IfOk result (λ cells. cells.items ≡ (slice_of t.now axis start size).cells) }
{
    let whole = t.shape();
    if is_empty(shape) {
        return Ok(Vec::new(alloc));
    }
    let rows = rows_before(whole, axis);
    let extent = whole.extents()[axis as usize] as usize;
    let cells = t.cells();
    let step = cells.len() / rows / extent;
    runs(
        alloc,
        cells,
        rows,
        start as usize * step,
        size as usize * step,
    )
}

/// So many cells of each row, from the given one on.
fn runs(
    alloc: Global,
    cells: &[Cell],
    rows: usize,
    from: usize,
    size: usize,
) -> Result<Vec<Cell>, Mem>
    requires some { 0 < rows }
    requires within { from + size ≤ length cells.now / rows }
    ensures { IfOk result (λ out. out.items ≡ runs_of cells.now rows from size) }
{
    let row = cells.len() / rows;
    let mut out = Vec::with_capacity(alloc, rows * size)?;
    for at in 0..rows {
        let begin = at * row + from;
        out.extend_from_slice(&cells[begin..begin + size])?;
    }
    Ok(out)
}
