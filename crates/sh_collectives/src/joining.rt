ghost use Rattle.std.specs.Prelude.{◌≡◌, ◌++◌, ◌<◌, ◌≤◌, All, IfOk, OnOk, Some, length, map, take};
ghost use Rattle.sh_base.specs.Shape.{cell_count, max_cells};
ghost use Rattle.sh_collectives.specs.Operands.{AreTensors};
ghost use Rattle.sh_sem.specs.Pieces as pieces;
ghost use Rattle.sh_tensor.specs.Runs.{joined_row, joined_rows};
ghost use Rattle.sh_tensor.specs.Tensor as tensor;

use sh_base::{Cell, Mem, Shape, Width, shape};
use sh_sem::count_of;
use sh_tensor::{Tensor, build};
use std::alloc::Global;

/// Appends a row of each tensor.
fn push_row(out: &mut Vec<Cell>, ts: &[&Tensor], rows: usize, at: usize) -> Result<(), Mem>
    requires { at < rows }
    ensures { OnOk result (out.new.items
        ≡ out.old.items ++ joined_row (map (λ t. t.now) ts.now) rows at) }
{
    for t in ts {
        let cells = t.cells();
        let row = cells.len() / rows;
        let begin = at * row;
        out.extend_from_slice(&cells[begin..begin + row])?;
    }
    Ok(())
}

/// The cells of the tensors, row after row.
fn joined_by_rows(alloc: Global, ts: &[&Tensor], rows: usize) -> Result<Vec<Cell>, Mem>
    ensures { IfOk result (λ out. out.items ≡ joined_rows (map (λ t. t.now) ts.now) rows) }
{
    let mut out = Vec::new(alloc);
    for at in 0..rows {
        push_row(&mut out, ts, rows, at)?;
    }
    Ok(out)
}

/// How many rows the cells of this shape have, each at an index on the axes before the given one.
fn rows_before(alloc: Global, s: &Shape, axis: u64) -> usize
    requires axis { axis < length s.now }
    requires some { 0 < cell_count s.now }
    requires small { cell_count s.now ≤ max_cells }
    ensures { result ≡ cell_count (take axis s.now) }
{
    let before = shape(alloc, &s.extents()[..axis as usize]);
    count_of(&before)
}

/// The cells of the tensors one after the other along an axis.
fn joined_cells(alloc: Global, axis: u64, ts: &[&Tensor], joined: &Shape) -> Result<Vec<Cell>, Mem>
    requires alike { tensor.CanJoin axis (map (λ t. t.now) ts.now) }
    requires whole { All tensor.IsTensor (map (λ t. t.now) ts.now) }
    requires shape { joined.now ≡ tensor.joined_shape axis (map (λ t. t.now) ts.now) }
    requires small { cell_count joined.now ≤ max_cells }
    ensures { IfOk result (λ cells. cells.items
        ≡ (tensor.concat_of (map (λ t. t.now) ts.now) axis).cells) }
{
    if count_of(joined) == 0 {
        return Ok(Vec::new(alloc));
    }
    joined_by_rows(alloc, ts, rows_before(alloc, joined, axis))
}

/// The tensors one after the other along an axis, together of this shape.
pub(crate) fn join(
    alloc: Global,
    axis: u64,
    width: Width,
    ts: &[&Tensor],
    joined: Shape,
) -> Result<Tensor, Mem>
    requires axes { All (λ t. axis < length t.shape) (map (λ t. t.now) ts.now) }
    requires operands { AreTensors width (map (λ t. t.now) ts.now) }
    requires shape { pieces.joined_shape axis (map (λ t. t.shape) (map (λ t. t.now) ts.now))
        ≡ Some joined }
    requires small { cell_count joined ≤ max_cells }
    ensures { IfOk result (λ out. out
        ≡ tensor.build joined width (tensor.joined_at axis (map (λ t. t.now) ts.now))) }
{
    let cells = joined_cells(alloc, axis, ts, &joined)?;
    Ok(build(joined, width, cells))
}
