ghost use Rattle.std.specs.Prelude.{◌≡◌, ◌<◌, ◌≤◌, All, IfOk, Some, get_or, length, map};
ghost use Rattle.std.specs.List.{range_with_len};
ghost use Rattle.sh_base.specs.Cells.{IsCellOf};
ghost use Rattle.sh_base.specs.declared.numbers.Cell.TheVariants.{Undef};
ghost use Rattle.sh_base.specs.Shape.{cell_count, max_cells};
ghost use Rattle.sh_collectives.specs.Operands.{AreTensors};
ghost use Rattle.sh_sem.specs.Collected.{combined, combined_at};
ghost use Rattle.sh_sem.specs.Pieces.{common_shape};
ghost use Rattle.sh_tensor.specs.Tensor as tensor;

use sh_base::{Cell, Kind, Mem, Shape, Width};
use sh_int::reduce_cell;
use sh_sem::{cells_of, count_of};
use sh_tensor::{Tensor, build};
use std::alloc::Global;

/// The cell of a tensor with a number; undefined where there is none.
fn cell_numbered(t: &Tensor, number: usize) -> Cell
    ensures value { result ≡ get_or t.now.cells number Undef }
    ensures within { IsCellOf t.now.width result }
{
    cells_of(t).get(number).copied().unwrap_or(Cell::Undef)
}

/// The cells of the tensors with one number, combined in their order.
fn combined_cell(kind: Kind, width: Width, ts: &[&Tensor], number: usize) -> Cell
    requires some { 0 < length ts.now }
    requires widths { All (λ t. t.width ≡ width) (map (λ t. t.now) ts.now) }
    ensures value { result ≡ combined kind width
        (map (λ t. get_or t.cells number Undef) (map (λ t. t.now) ts.now)) }
    ensures within { IsCellOf width result }
{
    let mut cell = cell_numbered(ts[0], number);
    for at in 1..ts.len() {
        cell = reduce_cell(kind, width, cell, cell_numbered(ts[at], number));
    }
    cell
}

/// So many cells of the tensors, combined in their order.
fn combined_cells(
    alloc: Global,
    kind: Kind,
    width: Width,
    ts: &[&Tensor],
    count: usize,
) -> Result<Vec<Cell>, Mem>
    requires some { 0 < length ts.now }
    requires widths { All (λ t. t.width ≡ width) (map (λ t. t.now) ts.now) }
    ensures value { IfOk result (λ cells. cells.items ≡ map (λ k. combined kind width
        (map (λ t. get_or t.cells k Undef) (map (λ t. t.now) ts.now))) (range_with_len 0 count)) }
    ensures within { IfOk result (λ cells. All (IsCellOf width) cells.items) }
{
    let mut cells: Vec<Cell> = Vec::with_capacity(alloc, count)?;
    for number in 0..count {
        cells.push(combined_cell(kind, width, ts, number))?;
    }
    Ok(cells)
}

/// The tensors, which are of one shape, combined cell by cell in their order.
pub(crate) fn combine(
    alloc: Global,
    kind: Kind,
    width: Width,
    ts: &[&Tensor],
    shape: Shape,
) -> Result<Tensor, Mem>
    requires some { 0 < length ts.now }
    requires operands { AreTensors width (map (λ t. t.now) ts.now) }
    requires common { common_shape (map (λ t. t.shape) (map (λ t. t.now) ts.now)) ≡ Some shape }
    requires small { cell_count shape ≤ max_cells }
    ensures { IfOk result (λ out. out
        ≡ tensor.build shape width (combined_at kind (map (λ t. t.now) ts.now))) }
{
    let cells = combined_cells(alloc, kind, width, ts, count_of(&shape))?;
    Ok(build(shape, width, cells))
}
