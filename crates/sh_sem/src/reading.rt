ghost use Rattle.std.specs.Prelude.{◌≡◌, ◌≤◌, All, length};
ghost use Rattle.sh_base.specs.Cells.{IsCellOf};
ghost use Rattle.sh_base.specs.Shape.{cell_count, max_cells};

use sh_base::{Cell, Shape, count};
use sh_tensor::Tensor;

/// How many cells a tensor of a shape has.
pub fn count_of(shape: &Shape) -> usize
    requires { cell_count shape.now ≤ max_cells }
    ensures { result ≡ cell_count shape.now }
{
    count(shape).unwrap() as usize
}

/// The cells of a tensor, each of its width.
pub fn cells_of(t: &Tensor) -> &[Cell]
    ensures value { result.now ≡ t.now.cells }
    ensures counted { length result.now ≡ cell_count t.now.shape }
    ensures fitting { All (IsCellOf t.now.width) result.now }
{
    let _whole = t.shape();
    t.cells()
}
