ghost use Rattle.std.specs.Prelude.{◌≡◌, ◌<◌, ◌≤◌, All, IfOk, IfSome, None, Some, is_some, length, map, option_and_then, option_map, slice_get, true};
ghost use Rattle.sh_base.specs.Shape.{cell_count, max_cells};
ghost use Rattle.sh_collectives.specs.Described.{CanCollect, shapes_given};
ghost use Rattle.sh_collectives.specs.Operands.{AreTensors, IsSmall, shape_by, value_by};
ghost use Rattle.sh_collectives.specs.Sizes as spec;
ghost use Rattle.sh_collectives.specs.Ways.{CanWork, collecting_by};
ghost use Rattle.sh_sem.specs.Collected.{collected, shapes_collected};
ghost use Rattle.sh_sem.specs.Scalars.{width_of as width_of_type};
ghost use Rattle.sh_tensor.specs.Tensor as tensor;

use crate::answers::{have_results, shape_there};
use crate::combining::combine;
use crate::described::described;
use crate::joining::join;
use crate::moving::take_shifted;
use crate::parts::{exchange, scatter};
use crate::sizes::Shaped;
use crate::ways::{Described, Way};
use sh_base::{Mem, Shape, Width};
use sh_grid::Grid;
use sh_ir::{Dim, Op};
use sh_sem::{dims_of, width_of};
use sh_tensor::Tensor;
use std::alloc::Global;

/// The shapes of the tensors.
fn shapes_of<'a>(alloc: Global, ts: &[&'a Tensor]) -> Result<Vec<&'a Shape>, Mem>
    ensures value { IfOk result (λ shapes. map (λ s. s.now) shapes.items
        ≡ map (λ t. t.shape) (map (λ t. t.now) ts.now)) }
    ensures whole { IfOk result (λ shapes. All tensor.IsTensor (map (λ t. t.now) ts.now)) }
{
    let mut shapes: Vec<&'a Shape> = Vec::new(alloc);
    for at in 0..ts.len() {
        shapes.push(ts[at].shape())?;
    }
    Ok(shapes)
}

/// What a collective gives at a place, of this shape.
fn value_at(
    alloc: Global,
    way: &Way,
    width: Width,
    ts: &[&Tensor],
    shape: Shape,
    place: u64,
) -> Result<Tensor, Mem>
    requires works { CanWork way.now (map (λ t. t.shape) (map (λ t. t.now) ts.now)) }
    requires operands { AreTensors width (map (λ t. t.now) ts.now) }
    requires place { place < length ts.now }
    requires shape { (collecting_by way.now).shape place
        (map (λ t. t.shape) (map (λ t. t.now) ts.now)) ≡ Some shape }
    requires small { cell_count shape ≤ max_cells }
    ensures { IfOk result (λ out. out ≡ tensor.build shape width
        ((collecting_by way.now).cell place (map (λ t. t.now) ts.now))) }
{
    match way {
        Way::Gather(axis) => join(alloc, *axis, width, ts, shape),
        Way::Reduce(kind) => combine(alloc, *kind, width, ts, shape),
        Way::Scatter(kind, axis) => scatter(alloc, *kind, *axis, width, ts, shape, place),
        Way::Exchange(split, concat) => {
            exchange(alloc, *split, *concat, width, ts, shape, place)
        }
        Way::Shift(x) => take_shifted(alloc, x, width, ts, shape, place),
    }
}

/// The result at a place of a group whose members have results, each of which is small.
fn result_there(
    alloc: Global,
    x: &Described,
    dims: &[Dim],
    width: Width,
    ts: &[&Tensor],
    shapes: &[&Shape],
    place: u64,
) -> Result<Option<Tensor>, Mem>
    requires works { CanWork x.now.way (map (λ s. s.now) shapes.now) }
    requires operands { AreTensors width (map (λ t. t.now) ts.now) }
    requires shapes { map (λ s. s.now) shapes.now
        ≡ map (λ t. t.shape) (map (λ t. t.now) ts.now) }
    requires place { place < length ts.now }
    requires there { is_some (shapes_given x.now.dims.now dims.now x.now.way
        (map (λ s. s.now) shapes.now)) ≡ true }
    requires small { IsSmall (shape_by x.now.dims.now dims.now x.now.way
        (map (λ s. s.now) shapes.now) place) }
    ensures { IfOk result (λ out. out ≡ value_by x.now.dims.now dims.now width x.now.way
        (map (λ t. t.now) ts.now) place) }
{
    match shape_there(alloc, x, dims, shapes, place) {
        Shaped::Fits(shape) => Ok(Some(value_at(alloc, &x.way, width, ts, shape, place)?)),
        Shaped::Mismatch | Shaped::TooLarge => Ok(None),
    }
}

/// The result at a place of a group, which is small.
fn result_given(
    alloc: Global,
    x: &Described,
    dims: &[Dim],
    width: Width,
    ts: &[&Tensor],
    shapes: &[&Shape],
    place: u64,
) -> Result<Option<Tensor>, Mem>
    requires works { CanWork x.now.way (map (λ s. s.now) shapes.now) }
    requires operands { AreTensors width (map (λ t. t.now) ts.now) }
    requires shapes { map (λ s. s.now) shapes.now
        ≡ map (λ t. t.shape) (map (λ t. t.now) ts.now) }
    requires place { place < length ts.now }
    requires small { IsSmall (shape_by x.now.dims.now dims.now x.now.way
        (map (λ s. s.now) shapes.now) place) }
    ensures { IfOk result (λ out. out ≡ value_by x.now.dims.now dims.now width x.now.way
        (map (λ t. t.now) ts.now) place) }
{
    if !have_results(alloc, x, dims, shapes) {
        return Ok(None);
    }
    result_there(alloc, x, dims, width, ts, shapes, place)
}

/// What a collective gives at a place of a group, by the operands in group order; none where the
/// group mismatches. It is small: `shape_at` says so of it.
pub fn collect_at(
    alloc: Global,
    op: &Op,
    g: &Grid,
    ts: &[&Tensor],
    place: u64,
) -> Result<Option<Tensor>, Mem>
    requires group { CanCollect op.now.kind g.now.extents
        (map (λ t. t.shape) (map (λ t. t.now) ts.now)) place }
    requires widths { All (λ t. t.width ≡ width_of_type op.now.result) (map (λ t. t.now) ts.now) }
    requires small { IsSmall (option_and_then (λ ss. slice_get ss place) (shapes_collected op.now
        g.now.extents (map (λ t. t.shape) (map (λ t. t.now) ts.now)))) }
    ensures { IfOk result (λ out. out
        ≡ collected op.now g.now.extents (map (λ t. t.now) ts.now) place) }
{
    let shapes = shapes_of(alloc, ts)?;
    match described(alloc, &op.kind, g) {
        Some(x) => {
            let dims = dims_of(&op.result);
            let width = width_of(&op.result);
            result_given(alloc, &x, dims, width, ts, shapes.as_slice(), place)
        }
        None => Ok(None),
    }
}
