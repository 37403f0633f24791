ghost use Rattle.std.specs.Prelude.{◌≡◌, ◌<◌, ◌≤◌, ◌+◌, ◌++◌, drop, get_or, length, map, IfOk, IfSome, OnOk};
ghost use Rattle.sh_base.specs.Cells.{IsCellOf};
ghost use Rattle.sh_base.specs.Shape.{cell_count, max_cells, unflat_of};
ghost use Rattle.sh_base.specs.declared.numbers.Cell.TheVariants.{Undef};
ghost use Rattle.sh_loops.specs.Nests.{TakesCells, next_by};
ghost use Rattle.sh_loops.specs.Rows.{GoesOn, HaveCells, IsFoldedTo, IsRow, row_cells, with_last};

use crate::nests::Nest;
use crate::regions::yielded;
use crate::rows::Row;
use crate::steps::{PointStep, added, extended};
use sh_base::{Cell, Mem, Shape, Width};
use sh_tensor::Tensor;
use std::alloc::Global;

/// Room for the cells of a region, to be used at each point again.
#[derive(Drop)]
pub(crate) struct Room {
    pub(crate) inputs: Vec<Cell>,
    pub(crate) block: Vec<Cell>,
}

/// Room that holds nothing yet. It takes no memory.
pub(crate) fn empty_room(alloc: Global) -> Room {
    Room {
        inputs: Vec::new(alloc),
        block: Vec::new(alloc),
    }
}

/// The cell of a tensor with a row-major number.
fn cell_of(t: &Tensor, number: usize) -> Cell
    requires { number < length t.now.cells }
    ensures { result ≡ get_or t.now.cells number Undef }
{
    let _whole = t.shape();
    t.cells()[number]
}

/// The cell of an input at the row's point with a number.
fn cell_along(ins: &[&Tensor], row: &Row, at: usize, k: u64) -> Cell
    requires there { HaveCells (map (λ t. t.now) ins.now) row.now.firsts.items row.now.strides.items k }
    requires input { at < length ins.now }
    ensures { result ≡ get_or (row_cells (map (λ t. t.now) ins.now)
        row.now.firsts.items row.now.strides.items k) at Undef }
{
    let firsts = row.firsts.as_slice();
    let strides = row.strides.as_slice();
    let _whole = ins[at].shape();
    cell_of(ins[at], firsts[at] + k as usize * strides[at])
}

/// Puts the cells of the inputs at the row's point with a number in place of what the list holds.
fn gather(cells: &mut Vec<Cell>, ins: &[&Tensor], row: &Row, k: u64) -> Result<(), Mem>
    requires { HaveCells (map (λ t. t.now) ins.now) row.now.firsts.items row.now.strides.items k }
    ensures { OnOk result (cells.new.items ≡ row_cells (map (λ t. t.now) ins.now)
        row.now.firsts.items row.now.strides.items k) }
{
    cells.clear();
    for at in 0..ins.len() {
        cells.push(cell_along(ins, row, at, k))?;
    }
    Ok(())
}

/// The next value of the output's cell at the row's point with a number; none where it is stuck.
fn next_along(
    alloc: Global,
    step: &PointStep,
    width: Width,
    ins: &[&Tensor],
    row: &Row,
    k: u64,
    point: &[u64],
    so_far: Cell,
    room: &mut Room,
) -> Result<Option<Cell>, Mem>
    requires there { HaveCells (map (λ t. t.now) ins.now) row.now.firsts.items row.now.strides.items k }
    requires cells { TakesCells step.now width (row_cells (map (λ t. t.now) ins.now)
        row.now.firsts.items row.now.strides.items k) }
    requires so_far { IsCellOf width so_far }
    ensures value { IfOk result (λ cell. cell ≡ next_by step.now width point.now
        (row_cells (map (λ t. t.now) ins.now) row.now.firsts.items row.now.strides.items k)
        so_far) }
    ensures within { IfOk result (λ cell. IfSome cell (IsCellOf width)) }
{
    match step {
        PointStep::Copied => {
            if ins.len() == 0 {
                return Ok(None);
            }
            Ok(Some(cell_along(ins, row, 0, k)))
        }
        PointStep::ProductAdded(first, second) => {
            if ins.len() != 2 {
                return Ok(None);
            }
            let a = cell_along(ins, row, 0, k);
            let b = cell_along(ins, row, 1, k);
            Ok(Some(added(
                width,
                extended(*first, width, a),
                extended(*second, width, b),
                so_far,
            )))
        }
        PointStep::Yielded(region) => {
            gather(&mut room.inputs, ins, row, k)?;
            yielded(
                alloc,
                region,
                point,
                room.inputs.as_slice(),
                so_far,
                &mut room.block,
            )
        }
    }
}

/// Sets the coordinate along the innermost loop, if there is one.
fn set_last(coordinates: &mut Vec<u64>, k: u64)
    ensures { coordinates.new.items ≡ with_last coordinates.old.items k }
{
    let count = coordinates.len();
    if count > 0 {
        coordinates[count - 1] = k;
    }
}

/// Visits the points of a row; no where one is stuck.
pub(crate) fn visit(
    alloc: Global,
    nest: &Nest,
    extents: &Shape,
    ins: &[&Tensor],
    outs: &Tensor,
    row: &Row,
    coordinates: &mut Vec<u64>,
    cells: &mut Vec<Cell>,
    room: &mut Room,
) -> Result<bool, Mem>
    requires row { IsRow nest.now extents.now (map (λ t. t.now) ins.now) outs.now row.now }
    requires counted { length outs.now.cells ≡ cell_count outs.now.shape }
    requires point { coordinates.old.items ≡ unflat_of extents.now row.now.start }
    requires before { IsFoldedTo nest.now extents.now (map (λ t. t.now) ins.now) outs.now
        row.now.start cells.old.items }
    ensures { IfOk result (λ there. GoesOn nest.now extents.now (map (λ t. t.now) ins.now) outs.now
        (row.now.start + row.now.length) there cells.new.items) }
{
    let _whole = outs.shape();
    let width = outs.width();
    for k in 0..row.length {
        set_last(coordinates, k);
        let at = row.place + k as usize * row.stride;
        match next_along(
            alloc,
            &nest.step,
            width,
            ins,
            row,
            k,
            coordinates.as_slice(),
            cells[at],
            room,
        )? {
            Some(cell) => cells[at] = cell,
            None => return Ok(false),
        }
    }
    Ok(true)
}
