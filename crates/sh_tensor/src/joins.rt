ghost use Rattle.std.specs.Prelude.{◌≡◌, ◌++◌, ◌^◌, ◌<◌, ◌≤◌, All, IfOk, OnOk, length, set};
ghost use Rattle.sh_base.specs.Shape.{cell_count, max_cells};
ghost use Rattle.sh_tensor.specs.Runs.{joined_row, joined_rows};
ghost use Rattle.sh_tensor.specs.Tensor.{CanJoin, IsTensor, concat_of, joined_extent, joined_shape};

use crate::Tensor;
use crate::shaping::{is_empty, rows_before, with_extent};
use sh_base::{Cell, Mem, Shape};
use std::alloc::Global;

/// The tensors one after the other along an axis, or want of memory. There is at least one, and they
/// differ at most in their extents along the axis.
pub fn concat(alloc: Global, parts: &Vec<Tensor>, axis: u64) -> Result<Tensor, Mem>
    requires alike { CanJoin axis parts.now.items }
    requires extent { joined_extent axis parts.now.items < 2 ^ 64 }
    requires small { cell_count (joined_shape axis parts.now.items) ≤ max_cells }
    ensures { IfOk result (λ joined. joined ≡ concat_of parts.now.items axis) }
{
    let parts = parts.as_slice();
    let first = &parts[0];
    let shape = with_extent(alloc, first.shape(), axis, extent_along(parts, axis));
    let cells = joined_cells(alloc, parts, &shape, axis)?;
    Ok(Tensor {
        shape,
        width: first.width(),
        cells,
    })
}

/// The extents of the tensors along an axis together. Each tensor is whole, as all are in memory.
fn extent_along(parts: &[Tensor], axis: u64) -> u64
    requires axis { All (λ t. axis < length t.shape) parts.now }
    requires fits { joined_extent axis parts.now < 2 ^ 64 }
    ensures value { result ≡ joined_extent axis parts.now }
    ensures whole { All IsTensor parts.now }
{
    let mut extent = 0;
    for part in parts {
        extent += part.shape().extents()[axis as usize];
    }
    extent
}

/// The cells of the tensors joined to this shape.
fn joined_cells(alloc: Global, parts: &[Tensor], shape: &Shape, axis: u64) -> Result<Vec<Cell>, Mem>
    requires alike { CanJoin axis parts.now }
    requires whole { All IsTensor parts.now }
    requires shape { shape.now ≡ joined_shape axis parts.now }
    requires small { cell_count shape.now ≤ max_cells }
    ensures { IfOk result (λ cells. cells.items ≡ (concat_of parts.now axis).cells) }
{
    if is_empty(shape) {
        return Ok(Vec::new(alloc));
    }
    rows_joined(alloc, parts, rows_before(shape, axis))
}

/// The cells of the tensors, row after row.
fn rows_joined(alloc: Global, parts: &[Tensor], rows: usize) -> Result<Vec<Cell>, Mem>
    ensures { IfOk result (λ out. out.items ≡ joined_rows parts.now rows) }
{
    let mut out = Vec::new(alloc);
    for at in 0..rows {
        push_row(&mut out, parts, rows, at)?;
    }
    Ok(out)
}

/// Appends a row of each tensor.
fn push_row(out: &mut Vec<Cell>, parts: &[Tensor], rows: usize, at: usize) -> Result<(), Mem>
    requires { at < rows }
    ensures { OnOk result (out.new.items ≡ out.old.items ++ joined_row parts.now rows at) }
{
    for part in parts {
        let cells = part.cells();
        let row = cells.len() / rows;
        let begin = at * row;
        out.extend_from_slice(&cells[begin..begin + row])?;
    }
    Ok(())
}
