ghost use Rattle.std.specs.Prelude.{◌≡◌, ◌≤◌, All, IfOk, length};
ghost use Rattle.sh_base.specs.Cells.{IsCellOf};
ghost use Rattle.sh_base.specs.Shape.{cell_count, max_cells, IsIndexOf};
ghost use Rattle.sh_tensor.specs.Tensor.{IsTensor, at, reshape_of};

use sh_base::{Cell, Duplicate, Mem, Shape, Width, flat, shape};
use std::alloc::Global;
use std::marker::Model;

/// A tensor: a shape of at most 1,048,576 cells, a width, and its cells in row-major order.
#[derive(Debug, Drop)]
pub struct Tensor {
    pub(crate) shape: Shape,
    pub(crate) width: Width,
    pub(crate) cells: Vec<Cell>,
}

impl Model for Tensor {
    ghost use Rattle.sh_tensor.specs.Tensor.{TensorValue, IsHeld};

    ghost Value = { TensorValue };

    ghost view = { λ t. record { shape = t.shape; width = t.width; cells = t.cells.items } };

    ghost invariant = { λ t. IsHeld (record { shape = t.shape; width = t.width; cells = t.cells.items }) };
}

impl Tensor {
    /// The extents of the tensor.
    pub fn shape(&self) -> &Shape
        ensures value { result.now ≡ self.now.shape }
        ensures whole { IsTensor self.now }
        ensures small { cell_count self.now.shape ≤ max_cells }
    {
        &self.shape
    }

    /// The width of the tensor's cells.
    pub fn width(&self) -> Width
        ensures { result ≡ self.now.width }
    {
        self.width
    }

    /// The cells in row-major order.
    pub fn cells(&self) -> &[Cell]
        ensures value { result.now ≡ self.now.cells }
        ensures counted { length result.now ≡ cell_count self.now.shape }
    {
        self.cells.as_slice()
    }

    /// The cell at an index of the shape.
    pub fn at(&self, i: &Shape) -> Cell
        requires { IsIndexOf self.now.shape i.now }
        ensures value { result ≡ at self.now i.now }
        ensures fitting { IsCellOf self.now.width result }
    {
        self.cells[flat(&self.shape, i) as usize]
    }
}

/// The tensor with this shape, this width and these cells in row-major order, as many as the shape has
/// indices. It takes no memory.
pub fn build(s: Shape, w: Width, cells: Vec<Cell>) -> Tensor
    requires counted { length cells.items ≡ cell_count s }
    requires small { cell_count s ≤ max_cells }
    requires fitting { All (IsCellOf w) cells.items }
    ensures { result ≡ record { shape = s; width = w; cells = cells.items } }
{
    Tensor {
        shape: s,
        width: w,
        cells,
    }
}

/// An equal tensor, or want of memory.
pub fn copy(alloc: Global, t: &Tensor) -> Result<Tensor, Mem>
    ensures { IfOk result (λ copied. copied ≡ t.now) }
{
    let cells = Vec::from_slice(alloc, t.cells.as_slice())?;
    let shape = shape(alloc, t.shape.extents());
    Ok(Tensor {
        shape,
        width: t.width,
        cells,
    })
}

/// The same cells in row-major order under another shape, which has as many. It takes no memory.
pub fn reshape(t: Tensor, s: Shape) -> Tensor
    requires { cell_count s ≡ cell_count t.shape }
    ensures { result ≡ reshape_of t s }
{
    Tensor {
        shape: s,
        width: t.width,
        cells: t.cells,
    }
}

impl Duplicate for Tensor {
    fn duplicate(&self, alloc: Global) -> Result<Tensor, Mem> {
        copy(alloc, self)
    }
}
