ghost use Rattle.std.specs.Prelude.{◌≡◌, ◌<◌, IfNone, IfOk, IfSome, length, map};
ghost use Rattle.sh_base.specs.Shape.{cell_count};
ghost use Rattle.sh_eval.specs.Evaluations.{CanEvaluate, seat_in};
ghost use Rattle.sh_eval.specs.Seats.{GivesAlike, seat_along};
ghost use Rattle.sh_grid.specs.Grid.{AreAxesOf};
ghost use Rattle.sh_ir.specs.Numbers.{as_natural, as_naturals};
ghost use Rattle.sh_sem.specs.Given.{Seat};
ghost use Rattle.sh_sem.specs.Steps.{axes_of, seat_of, steps_on};

use crate::evaluation::{OpSeat, eval_borrowed};
use sh_base::{Mem, Shape, shape};
use sh_grid::{Grid, extents, group_size, place_in_group};
use sh_ir::{Op, OpKind};
use sh_tensor::Tensor;
use smallvec::SmallVec;
use std::alloc::Global;

/// The written axes along which a device keeps its piece; none of an operation that gives the same
/// wherever the device stands.
#[tactic(auto, using(crate::proofs::SeatLaws::alike_elsewhere))]
fn kept_axes(kind: &OpKind) -> Option<&[i128]>
    ensures some { IfSome result (λ axes. axes_of kind.now ≡ as_naturals axes.now) }
    ensures none { IfNone result ((s t : Seat) → GivesAlike kind.now s t) }
{
    match kind {
        OpKind::AllSlice(x) => Some(x.on.grid_axes.as_slice()),
        OpKind::Take(x) => Some(x.on.grid_axes.as_slice()),
        _ => None,
    }
}

/// A written axis of a grid of so many.
fn axis_of(rank: usize, axis: &i128) -> u64
    requires { as_natural axis.now < rank }
    ensures { result ≡ as_natural axis.now }
{
    let axis = *axis;
    axis.max(0) as u64
}

/// Written axes of a grid.
pub fn axes_on(alloc: Global, g: &Grid, axes: &[i128]) -> Shape
    requires { AreAxesOf (length g.now.extents) (as_naturals axes.now) }
    ensures { result ≡ as_naturals axes.now }
{
    let rank = extents(g).extents().len();
    let mut found: SmallVec<u64, 6> = SmallVec::new(alloc);
    for axis in axes {
        found.push_reserved(axis_of(rank, axis));
    }
    shape(alloc, found.as_slice())
}

/// Where a device stands in its group along written axes.
fn stand(alloc: Global, g: &Grid, axes: &[i128], device: u64) -> OpSeat
    requires axes { AreAxesOf (length g.now.extents) (as_naturals axes.now) }
    requires device { device < cell_count g.now.extents }
    ensures { seat_in result ≡ seat_along g.now.extents (as_naturals axes.now) device }
{
    let axes = axes_on(alloc, g, axes);
    OpSeat {
        size: group_size(g, &axes),
        place: place_in_group(g, &axes, device),
    }
}

/// A seat at which an operation gives what it gives on a device.
fn seat_on(alloc: Global, kind: &OpKind, g: &Grid, device: u64) -> OpSeat
    requires axes { AreAxesOf (length g.now.extents) (axes_of kind.now) }
    requires device { device < cell_count g.now.extents }
    ensures { GivesAlike kind.now (seat_in result)
        (seat_along g.now.extents (axes_of kind.now) device) }
{
    match kept_axes(kind) {
        Some(axes) => stand(alloc, g, axes, device),
        None => OpSeat { size: 1, place: 0 },
    }
}

/// What a local instruction gives on a device of a grid: none exactly where it is stuck.
pub fn step_local(
    alloc: Global,
    op: &Op,
    g: &Grid,
    device: u64,
    ts: &[&Tensor],
) -> Result<Option<Tensor>, Mem>
    requires axes { AreAxesOf (length g.now.extents) (axes_of op.now.kind) }
    requires device { device < cell_count g.now.extents }
    requires can { CanEvaluate op.now (seat_of g.now.extents op.now device)
        (map (λ t. t.now) ts.now) }
    ensures { IfOk result (λ out. out
        ≡ (steps_on g.now.extents).local op.now device (map (λ t. t.now) ts.now)) }
{
    let seat = seat_on(alloc, &op.kind, g, device);
    eval_borrowed(alloc, op, seat, ts)
}
