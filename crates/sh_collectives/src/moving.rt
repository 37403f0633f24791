ghost use Rattle.std.specs.Prelude.{◌≡◌, ◌<◌, ◌≤◌, IfOk, Some, length, map};
ghost use Rattle.sh_base.specs.declared.numbers.Cell.TheVariants.{Undef};
ghost use Rattle.sh_base.specs.Limits.{max_devices};
ghost use Rattle.sh_base.specs.Shape.{cell_count, max_cells};
ghost use Rattle.sh_collectives.specs.Operands.{AreTensors};
ghost use Rattle.sh_collectives.specs.Ways.{IsGroup, source_by};
ghost use Rattle.sh_sem.specs.Collected.{shifted_cell, shifted_shape};
ghost use Rattle.sh_tensor.specs.Tensor as tensor;

use crate::shifts::source;
use crate::ways::Shifting;
use sh_base::{Cell, Mem, Shape, Width};
use sh_sem::count_of;
use sh_tensor::{Tensor, build, copy};
use std::alloc::Global;

/// The tensor of undefined cells of a shape.
fn undefined(alloc: Global, width: Width, shape: Shape) -> Result<Tensor, Mem>
    requires { cell_count shape ≤ max_cells }
    ensures { IfOk result (λ out. out ≡ tensor.build shape width (λ i. Undef)) }
{
    let cells = vec![in alloc; Cell::Undef; count_of(&shape)]?;
    Ok(build(shape, width, cells))
}

/// What a shift gives at a place: the tensor of its source, or undefined cells where there is none.
pub(crate) fn take_shifted(
    alloc: Global,
    x: &Shifting,
    width: Width,
    ts: &[&Tensor],
    shape: Shape,
    place: u64,
) -> Result<Tensor, Mem>
    requires group { IsGroup x.now (length ts.now) }
    requires few { length ts.now ≤ max_devices }
    requires operands { AreTensors width (map (λ t. t.now) ts.now) }
    requires place { place < length ts.now }
    requires shape { shifted_shape (source_by x.now place) place
        (map (λ t. t.shape) (map (λ t. t.now) ts.now)) ≡ Some shape }
    requires small { cell_count shape ≤ max_cells }
    ensures { IfOk result (λ out. out ≡ tensor.build shape width
        (λ i. shifted_cell (source_by x.now place) (map (λ t. t.now) ts.now) i)) }
{
    match source(alloc, x, place) {
        Some(from) => copy(alloc, ts[from as usize]),
        None => undefined(alloc, width, shape),
    }
}
