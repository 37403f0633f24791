ghost use Rattle.std.specs.Prelude.{◌≡◌, ◌<◌, ◌≤◌, ◌+◌, ◌*◌, length, map, IfOk, OnOk};
ghost use Rattle.sh_base.specs.Shape.{cell_count, unflat_of};
ghost use Rattle.sh_loops.specs.Nests.{AreInside, CanFold, place_at};
ghost use Rattle.sh_loops.specs.Rows.{HasStrides, IsRow, apart, numbers_of, row_length_of};

use crate::nests::{Nest, place_in};
use crate::points::point_at;
use crate::structures::are_tensors;
use sh_base::{Ids, Items, Mem, Shape};
use sh_tensor::Tensor;
use std::alloc::Global;

/// A row of points, those of the innermost loop, and where the operands' cells lie at them.
#[derive(Drop)]
pub(crate) struct Row {
    /// The number of its first point, and how many points it has.
    pub(crate) start: u128,
    pub(crate) length: u64,
    /// The numbers of the inputs' cells at its first point, and how far it is to the next.
    pub(crate) firsts: Vec<usize>,
    pub(crate) strides: Vec<usize>,
    /// The same of the output's.
    pub(crate) place: usize,
    pub(crate) stride: usize,
}

/// How many points a row has: one where there is no loop.
fn row_length(extents: &Shape) -> u64
    ensures { result ≡ row_length_of extents.now }
{
    extents.extents().last().copied().unwrap_or(1)
}

/// Puts the numbers of the inputs' cells at a loop point in place of what the list holds.
fn number_cells(
    alloc: Global,
    numbers: &mut Vec<usize>,
    maps: &[Items<Ids>],
    ins: &[&Tensor],
    point: &Shape,
) -> Result<(), Mem>
    requires { AreInside maps.now (map (λ t. t.now) ins.now) point.now }
    ensures { OnOk result (numbers.new.items
        ≡ numbers_of maps.now (map (λ t. t.now) ins.now) point.now) }
{
    numbers.clear();
    for at in 0..maps.len() {
        numbers.push(place_in(alloc, maps[at].as_slice(), ins[at], point))?;
    }
    Ok(())
}

/// How far the second numbers lie behind the first.
fn distances(alloc: Global, seconds: &[usize], firsts: &[usize]) -> Result<Vec<usize>, Mem>
    requires { length seconds.now ≡ length firsts.now }
    ensures { IfOk result (λ strides. strides.items ≡ apart seconds.now firsts.now) }
{
    let mut strides: Vec<usize> = Vec::with_capacity(alloc, seconds.len())?;
    for at in 0..seconds.len() {
        strides.push(seconds[at].saturating_sub(firsts[at]))?;
    }
    Ok(strides)
}

/// The numbers of the inputs' cells at the point with a number.
fn numbers_at(
    alloc: Global,
    nest: &Nest,
    extents: &Shape,
    count: u128,
    ins: &[&Tensor],
    outs: &Tensor,
    number: u128,
) -> Result<Vec<usize>, Mem>
    requires count { count ≡ cell_count extents.now }
    requires folds { CanFold nest.now extents.now (map (λ t. t.now) ins.now) outs.now }
    requires below { number < count }
    ensures { IfOk result (λ numbers. numbers.items ≡ numbers_of nest.now.inputs
        (map (λ t. t.now) ins.now) (unflat_of extents.now number)) }
{
    let mut numbers: Vec<usize> = Vec::with_capacity(alloc, ins.len())?;
    let point = point_at(alloc, extents, count, number);
    number_cells(alloc, &mut numbers, nest.inputs.as_slice(), ins, &point)?;
    Ok(numbers)
}

/// The number of the output's cell at the point with a number.
fn output_at(
    alloc: Global,
    nest: &Nest,
    extents: &Shape,
    count: u128,
    ins: &[&Tensor],
    outs: &Tensor,
    number: u128,
) -> usize
    requires count { count ≡ cell_count extents.now }
    requires folds { CanFold nest.now extents.now (map (λ t. t.now) ins.now) outs.now }
    requires below { number < count }
    ensures { result ≡ place_at nest.now extents.now outs.now.shape number }
{
    let point = point_at(alloc, extents, count, number);
    place_in(alloc, nest.output.as_slice(), outs, &point)
}

/// A row of a nest that has points, with the strides of each row; it is the first.
pub(crate) fn first_row(
    alloc: Global,
    nest: &Nest,
    extents: &Shape,
    count: u128,
    ins: &[&Tensor],
    outs: &Tensor,
) -> Result<Row, Mem>
    requires count { count ≡ cell_count extents.now }
    requires folds { CanFold nest.now extents.now (map (λ t. t.now) ins.now) outs.now }
    requires some { 0 < count }
    ensures { IfOk result (λ row. HasStrides nest.now extents.now
        (map (λ t. t.now) ins.now) outs.now row) }
{
    let length = row_length(extents);
    let next = u128::from(length.saturating_sub(1).min(1));
    let firsts = numbers_at(alloc, nest, extents, count, ins, outs, 0)?;
    let seconds = numbers_at(alloc, nest, extents, count, ins, outs, next)?;
    let strides = distances(alloc, seconds.as_slice(), firsts.as_slice())?;
    let place = output_at(alloc, nest, extents, count, ins, outs, 0);
    let second = output_at(alloc, nest, extents, count, ins, outs, next);
    Ok(Row {
        start: 0,
        length,
        firsts,
        strides,
        place,
        stride: second.saturating_sub(place),
    })
}

/// Goes to the row with a number, and to the coordinates of its first point.
pub(crate) fn begin(
    alloc: Global,
    row: &mut Row,
    coordinates: &mut Vec<u64>,
    nest: &Nest,
    extents: &Shape,
    count: u128,
    number: u128,
    ins: &[&Tensor],
    outs: &Tensor,
) -> Result<(), Mem>
    requires count { count ≡ cell_count extents.now }
    requires folds { CanFold nest.now extents.now (map (λ t. t.now) ins.now) outs.now }
    requires strides { HasStrides nest.now extents.now (map (λ t. t.now) ins.now) outs.now row.old }
    requires some { 0 < row.old.length }
    requires below { number * row.old.length + row.old.length ≤ count }
    ensures row { OnOk result (IsRow nest.now extents.now
        (map (λ t. t.now) ins.now) outs.now row.new) }
    ensures strides { OnOk result (HasStrides nest.now extents.now
        (map (λ t. t.now) ins.now) outs.now row.new) }
    ensures start { OnOk result (row.new.start ≡ number * row.old.length) }
    ensures length { OnOk result (row.new.length ≡ row.old.length) }
    ensures point { OnOk result (coordinates.new.items ≡ unflat_of extents.now row.new.start) }
{
    // Each operand has as many cells as its shape says, as reading it tells.
    are_tensors(ins);
    let _whole = outs.shape();
    let start = number * u128::from(row.length);
    let point = point_at(alloc, extents, count, start);
    number_cells(alloc, &mut row.firsts, nest.inputs.as_slice(), ins, &point)?;
    row.place = place_in(alloc, nest.output.as_slice(), outs, &point);
    row.start = start;
    coordinates.clear();
    coordinates.extend_from_slice(point.extents())?;
    Ok(())
}
