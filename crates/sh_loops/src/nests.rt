ghost use Rattle.std.specs.Prelude.{◌≡◌, ◌<◌, ◌≤◌, All, length, map, IfOk, IfSome};
ghost use Rattle.sh_base.specs.Shape.{cell_count, flat_of, IsIndexOf};
ghost use Rattle.sh_base.specs.Cells.{IsCellOf};
ghost use Rattle.sh_loops.specs.Cells.{cells_by};
ghost use Rattle.sh_loops.specs.Rows.{GoesOn, IsFoldedTo};
ghost use Rattle.sh_loops.specs.Nests.{CanFold, StandsFor, folded_by, structured_value};
ghost use Rattle.sh_ir.specs.Loops.{Structure};
ghost use Rattle.sh_sem.specs.Given.{built_of};
ghost use Rattle.sh_sem.specs.Nest.{Fixed, folded_cell, index_at as index_of_point};

use crate::operands::{made, shape_of};
use crate::points::index_at;
use crate::rows::{begin, first_row};
use crate::steps::PointStep;
use crate::visits::{empty_room, visit};
use sh_base::{Cell, Cells, Ids, Items, Mem, Shape, flat};
use sh_sem::cells_of;
use sh_tensor::Tensor;
use std::alloc::Global;

/// A structured operation: for each operand how its dimensions follow the loops, and the step.
#[derive(Drop)]
pub(crate) struct Nest {
    pub(crate) inputs: Items<Items<Ids>>,
    pub(crate) output: Items<Ids>,
    pub(crate) step: PointStep,
}

/// The index that a tensor has at a loop point. It takes no memory.
fn index_in(alloc: Global, dims: &[Ids], t: &Tensor, point: &Shape) -> Shape
    requires { IsIndexOf t.now.shape (index_of_point dims.now point.now) }
    ensures { result ≡ index_of_point dims.now point.now }
{
    let _extents = t.shape().extents();
    index_at(alloc, dims, point)
}

/// The number of the cell that a tensor has at a loop point.
pub(crate) fn place_in(alloc: Global, dims: &[Ids], t: &Tensor, point: &Shape) -> usize
    requires { IsIndexOf t.now.shape (index_of_point dims.now point.now) }
    ensures value { result ≡ flat_of t.now.shape (index_of_point dims.now point.now) }
    ensures below { result < cell_count t.now.shape }
{
    flat(t.shape(), &index_in(alloc, dims, t, point)) as usize
}

/// Visits all points, row by row; no where one is stuck.
fn visit_rows(
    alloc: Global,
    nest: &Nest,
    extents: &Shape,
    count: u128,
    ins: &[&Tensor],
    outs: &Tensor,
    cells: &mut Vec<Cell>,
) -> Result<bool, Mem>
    requires count { count ≡ cell_count extents.now }
    requires folds { CanFold nest.now extents.now (map (λ t. t.now) ins.now) outs.now }
    requires some { 0 < count }
    requires counted { length outs.now.cells ≡ cell_count outs.now.shape }
    requires before { IsFoldedTo nest.now extents.now (map (λ t. t.now) ins.now) outs.now
        0 cells.old.items }
    ensures { IfOk result (λ there. GoesOn nest.now extents.now (map (λ t. t.now) ins.now) outs.now
        count there cells.new.items) }
{
    let mut row = first_row(alloc, nest, extents, count, ins, outs)?;
    let mut coordinates: Vec<u64> = Vec::new(alloc);
    let mut room = empty_room(alloc);
    for number in 0..count / u128::from(row.length) {
        begin(
            alloc,
            &mut row,
            &mut coordinates,
            nest,
            extents,
            count,
            number,
            ins,
            outs,
        )?;
        if !visit(
            alloc,
            nest,
            extents,
            ins,
            outs,
            &row,
            &mut coordinates,
            cells,
            &mut room,
        )? {
            return Ok(false);
        }
    }
    Ok(true)
}

/// The output's cells once all points have been visited; none where one is stuck.
fn folded(
    alloc: Global,
    nest: &Nest,
    extents: &Shape,
    count: u128,
    ins: &[&Tensor],
    outs: &Tensor,
) -> Result<Option<Cells>, Mem>
    requires count { count ≡ cell_count extents.now }
    requires folds { CanFold nest.now extents.now (map (λ t. t.now) ins.now) outs.now }
    ensures value { IfOk result (λ out. out
        ≡ cells_by (folded_by nest.now extents.now (map (λ t. t.now) ins.now) outs.now count)
        (cell_count outs.now.shape)) }
    ensures fitting { IfOk result (λ out. IfSome out (All (IsCellOf outs.now.width))) }
{
    let mut cells: Vec<Cell> = Vec::from_slice(alloc, cells_of(outs))?;
    if count == 0 {
        return Ok(Some(Items::from_vec(cells)));
    }
    if visit_rows(alloc, nest, extents, count, ins, outs, &mut cells)? {
        return Ok(Some(Items::from_vec(cells)));
    }
    Ok(None)
}

/// What a structured operation gives of its inputs and its output: at each index the fold of the
/// steps over the loop points that go there, in row-major order; none where a step is stuck.
pub(crate) fn structured(
    alloc: Global,
    nest: &Nest,
    extents: &Shape,
    count: u128,
    ins: &[&Tensor],
    outs: &Tensor,
) -> Result<Option<Tensor>, Mem>
    requires count { count ≡ cell_count extents.now }
    requires folds { CanFold nest.now extents.now (map (λ t. t.now) ins.now) outs.now }
    ensures { (s : Structure) → (x : Fixed) → StandsFor nest.now outs.now.width s x
        → IfOk result (λ out. out
        ≡ structured_value s x extents.now (map (λ t. t.now) ins.now) outs.now) }
{
    let cells = folded(alloc, nest, extents, count, ins, outs)?;
    Ok(made(shape_of(alloc, outs), outs.width(), cells))
}
