ghost use Rattle.std.specs.Prelude.{◌≡◌, ◌-◌, ◌^◌, ◌<◌, ◌≤◌, IfOk};
ghost use Rattle.std.specs.List.{list_all};
ghost use Rattle.sh_base.specs.Cells.{bits_of};
ghost use Rattle.sh_ir.specs.Literals.{are_equal as are_equal_cells, same_cell as is_same_cell};
ghost use Rattle.sh_literals.specs.LiteralCells.{
  below_zero as below_zero_cell,
  cell_of as cell_of_element,
  cells_of as cells_of_elements,
  from_zero as from_zero_cell,
  number_cell as cell_of_number,
};

use crate::literals::Element;
use sh_base::{Cell, Cells, Items, Mem, Width};
use std::alloc::Global;

/// Two to the width.
fn modulus(width: Width) -> u128
    ensures value { result ≡ 2 ^ bits_of width }
    ensures within { result ≤ 2 ^ 64 }
{
    match width {
        Width::I1 => 2,
        Width::I8 => 1 << 8,
        Width::I16 => 1 << 16,
        Width::I32 => 1 << 32,
        Width::I64 => 1 << 64,
    }
}

/// Half of two to the width.
fn half(width: Width) -> u128
    ensures value { result ≡ 2 ^ (bits_of width - 1) }
    ensures within { result ≤ 2 ^ bits_of width }
{
    match width {
        Width::I1 => 1,
        Width::I8 => 1 << 7,
        Width::I16 => 1 << 15,
        Width::I32 => 1 << 31,
        Width::I64 => 1 << 63,
    }
}

/// A number from zero on.
fn from_zero(width: Width, size: u128) -> Option<Cell>
    ensures { result ≡ from_zero_cell width size }
{
    if size < modulus(width) {
        Some(Cell::Val(size as u64))
    } else {
        None
    }
}

/// A number so much below zero.
fn below_zero(width: Width, size: u128) -> Option<Cell>
    requires { 0 < size }
    ensures { result ≡ below_zero_cell width size }
{
    if size <= half(width) {
        Some(Cell::Val((modulus(width) - size) as u64))
    } else {
        None
    }
}

/// The cell of a number.
fn number_cell(width: Width, number: i128) -> Option<Cell>
    ensures { result ≡ cell_of_number width number }
{
    let size = number.unsigned_abs();
    if number < 0 {
        below_zero(width, size)
    } else {
        from_zero(width, size)
    }
}

/// The cell of an element, where it is one of the width.
pub(crate) fn cell_of(width: Width, element: Element) -> Option<Cell>
    ensures { result ≡ cell_of_element width element }
{
    match element {
        Element::Number(number) => number_cell(width, number),
        Element::Truth(truth) => match width {
            Width::I1 => Some(Cell::Val(u64::from(truth))),
            Width::I8 => None,
            Width::I16 => None,
            Width::I32 => None,
            Width::I64 => None,
        },
    }
}

/// The cells of all elements, where each has one.
pub(crate) fn cells_of(
    alloc: Global,
    width: Width,
    elements: &[Element],
) -> Result<Option<Cells>, Mem>
    ensures { IfOk result (λ cells. cells ≡ cells_of_elements width elements.now) }
{
    let mut cells: Vec<Cell> = Vec::new(alloc);
    for element in elements {
        match cell_of(width, *element) {
            Some(cell) => cells.push(cell)?,
            None => return Ok(None),
        }
    }
    Ok(Some(Items::from_vec(cells)))
}

fn same_cell(left: Cell, right: Cell) -> bool
    ensures { result ≡ is_same_cell left right }
{
    match (left, right) {
        (Cell::Undef, Cell::Undef) => true,
        (Cell::Val(left), Cell::Val(right)) => left == right,
        _ => false,
    }
}

/// Whether all of these are this cell.
fn all_same(first: Cell, cells: &[Cell]) -> bool
    ensures { result ≡ list_all (is_same_cell first) cells.now }
{
    for cell in cells {
        if !same_cell(first, *cell) {
            return false;
        }
    }
    true
}

/// Whether the cells are all one.
pub(crate) fn are_equal(cells: &[Cell]) -> bool
    ensures { result ≡ are_equal_cells cells.now }
{
    match cells.split_first() {
        Some((first, others)) => all_same(*first, others),
        None => true,
    }
}
