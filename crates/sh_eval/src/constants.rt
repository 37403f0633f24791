ghost use Rattle.std.specs.Prelude.{◌≡◌, ◌≤◌, Some, [], slice_get, IfOk};
ghost use Rattle.sh_base.specs.declared.numbers.Cell.TheVariants.{Undef};
ghost use Rattle.sh_base.specs.Shape.{cell_count, max_cells};
ghost use Rattle.sh_loops.specs.Cells.{HoldsCellsOf, cells_by, constant_value};
ghost use Rattle.sh_sem.specs.Given.{built_of, gives_constant};
ghost use Rattle.sh_sem.specs.Scalars.{constant_cell, held_cell};

use sh_base::{Cell, Cells, Items, Mem, Shape, Width};
use sh_ir::{Constant, Contents};
use sh_loops::made;
use sh_sem::count_of;
use sh_tensor::Tensor;
use std::alloc::Global;

/// So many times one cell.
fn repeated(alloc: Global, cell: Cell, count: usize) -> Result<Option<Cells>, Mem>
    ensures { IfOk result (λ cells. cells ≡ cells_by (λ k. Some cell) count) }
{
    Ok(Some(Items::from_vec(vec![in alloc; cell; count]?)))
}

/// The first of these cells, so many of them, where there are so many.
fn front(alloc: Global, cells: &[Cell], count: usize) -> Result<Option<Cells>, Mem>
    ensures { IfOk result (λ front. front ≡ cells_by (slice_get cells.now) count) }
{
    if cells.len() < count {
        return Ok(None);
    }
    let (front, _) = cells.split_at(count);
    Ok(Some(Items::from_vec(Vec::from_slice(alloc, front)?)))
}

/// Cells in the form in which a literal holds them: one cell fills the tensor.
fn held_cells(alloc: Global, cells: &[Cell], count: usize) -> Result<Option<Cells>, Mem>
    ensures { IfOk result (λ out. out ≡ cells_by (held_cell cells.now) count) }
{
    if cells.len() == 1 {
        return repeated(alloc, cells[0], count);
    }
    front(alloc, cells, count)
}

/// The cells of a literal of so many cells; none where it is broken, or holds too few.
pub(crate) fn constant_cells(
    alloc: Global,
    contents: &Contents,
    count: usize,
) -> Result<Option<Cells>, Mem>
    ensures { IfOk result (λ cells. cells ≡ cells_by (constant_cell contents.now) count) }
{
    match contents {
        Contents::Held(cells) => held_cells(alloc, cells.as_slice(), count),
        Contents::Broken if count == 0 => Ok(Some(Items::new(alloc))),
        Contents::Broken => Ok(None),
    }
}

/// Undefined cells.
pub(crate) fn undefined_cells(alloc: Global, count: usize) -> Result<Option<Cells>, Mem>
    ensures { IfOk result (λ cells. cells ≡ cells_by (λ k. Some Undef) count) }
{
    repeated(alloc, Cell::Undef, count)
}

/// The tensor of undefined cells of a shape.
pub fn undefined(alloc: Global, shape: Shape, width: Width) -> Result<Option<Tensor>, Mem>
    requires { cell_count shape ≤ max_cells }
    ensures { IfOk result (λ out. out ≡ built_of shape width (λ i. Some Undef)) }
{
    let cells = undefined_cells(alloc, count_of(&shape))?;
    Ok(made(shape, width, cells))
}

/// The tensor of this shape that a literal stands for; none where it is broken, or holds too few
/// cells.
pub fn constant(
    alloc: Global,
    literal: &Constant,
    shape: Shape,
    width: Width,
) -> Result<Option<Tensor>, Mem>
    requires small { cell_count shape ≤ max_cells }
    requires fitting { HoldsCellsOf width literal.now.contents }
    ensures { IfOk result (λ out. out ≡ constant_value literal.now shape width) }
{
    let cells = constant_cells(alloc, &literal.contents, count_of(&shape))?;
    Ok(made(shape, width, cells))
}
