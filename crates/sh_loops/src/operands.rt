ghost use Rattle.std.specs.Prelude.{◌≡◌, ◌≤◌, All, IfSome, length, option_map};
ghost use Rattle.sh_base.specs.Cells.{IsCellOf};
ghost use Rattle.sh_loops.specs.Cells.{tensor_of};
ghost use Rattle.sh_base.specs.Shape.{cell_count, max_cells};

use sh_base::{Cells, Shape, Width, shape};
use sh_tensor::{Tensor, build};
use std::alloc::Global;

/// The shape of a tensor. It takes no memory.
pub fn shape_of(alloc: Global, t: &Tensor) -> Shape
    ensures value { result ≡ t.now.shape }
    ensures small { cell_count result ≤ max_cells }
{
    shape(alloc, t.shape().extents())
}

/// The tensor of these cells, if they are there. It takes no memory.
pub fn made(shape: Shape, width: Width, cells: Option<Cells>) -> Option<Tensor>
    requires counted { IfSome cells (λ cells. length cells ≡ cell_count shape) }
    requires small { cell_count shape ≤ max_cells }
    requires fitting { IfSome cells (All (IsCellOf width)) }
    ensures { result ≡ option_map (tensor_of shape width) cells }
{
    match cells {
        Some(cells) => Some(build(shape, width, cells.into_vec())),
        None => None,
    }
}
