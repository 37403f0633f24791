ghost use Rattle.std.specs.Prelude.{◌≡◌, ◌<◌, is_some, length, map, option_and_then, slice_get, true};
ghost use Rattle.sh_collectives.specs.Described.{CanCollect, shapes_given};
ghost use Rattle.sh_collectives.specs.Sizes as spec;
ghost use Rattle.sh_collectives.specs.Ways.{CanWork};
ghost use Rattle.sh_sem.specs.Collected.{shapes_collected};

use crate::described::described;
use crate::shapes::{all_fit, fitting_at, operands_fit};
use crate::sizes::{Shaped, answer_of};
use crate::ways::Described;
use sh_base::Shape;
use sh_grid::Grid;
use sh_ir::{Dim, Op};
use sh_sem::dims_of;
use std::alloc::Global;

/// Whether the members of a group have results: sizes agree, and the extents of all operands and of
/// all results are those that their types know.
pub(crate) fn have_results(alloc: Global, x: &Described, dims: &[Dim], shapes: &[&Shape]) -> bool
    requires { CanWork x.now.way (map (λ s. s.now) shapes.now) }
    ensures { result
        ≡ is_some (shapes_given x.now.dims.now dims.now x.now.way (map (λ s. s.now) shapes.now)) }
{
    if !operands_fit(alloc, x.dims, shapes) {
        return false;
    }
    all_fit(alloc, dims, &x.way, shapes)
}

/// The shape at a place of a group whose members have results.
pub(crate) fn shape_there(
    alloc: Global,
    x: &Described,
    dims: &[Dim],
    shapes: &[&Shape],
    place: u64,
) -> Shaped
    requires works { CanWork x.now.way (map (λ s. s.now) shapes.now) }
    requires place { place < length shapes.now }
    requires there { is_some (shapes_given x.now.dims.now dims.now x.now.way
        (map (λ s. s.now) shapes.now)) ≡ true }
    ensures { result ≡ spec.shaped (option_and_then (λ ss. slice_get ss place)
        (shapes_given x.now.dims.now dims.now x.now.way (map (λ s. s.now) shapes.now))) }
{
    answer_of(alloc, fitting_at(alloc, dims, &x.way, shapes, place))
}

/// The shape at a place of a group.
fn shape_given(alloc: Global, x: &Described, dims: &[Dim], shapes: &[&Shape], place: u64) -> Shaped
    requires works { CanWork x.now.way (map (λ s. s.now) shapes.now) }
    requires place { place < length shapes.now }
    ensures { result ≡ spec.shaped (option_and_then (λ ss. slice_get ss place)
        (shapes_given x.now.dims.now dims.now x.now.way (map (λ s. s.now) shapes.now))) }
{
    if !have_results(alloc, x, dims, shapes) {
        return Shaped::Mismatch;
    }
    shape_there(alloc, x, dims, shapes, place)
}

/// The shape of a collective's result at a place of a group, by the shapes of the operands in group
/// order. It takes time by the number of members.
pub fn shape_at(alloc: Global, op: &Op, g: &Grid, shapes: &[&Shape], place: u64) -> Shaped
    requires { CanCollect op.now.kind g.now.extents (map (λ s. s.now) shapes.now) place }
    ensures { result ≡ spec.shaped (option_and_then (λ ss. slice_get ss place)
        (shapes_collected op.now g.now.extents (map (λ s. s.now) shapes.now))) }
{
    match described(alloc, &op.kind, g) {
        Some(x) => shape_given(alloc, &x, dims_of(&op.result), shapes, place),
        None => Shaped::Mismatch,
    }
}
