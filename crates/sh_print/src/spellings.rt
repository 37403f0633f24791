ghost use Rattle.std.specs.Prelude.{◌≡◌, ◌+◌, ◌<◌, ◌≤◌, ◌^◌, [], ◌∷◌, ◌++◌, IfOk, OnOk, flat_map, map, reverse, replicate};
ghost use Rattle.sh_ir.specs.Shapes.{extent_of, shape_of};
ghost use Rattle.sh_ir.specs.declared.types.ValueType.TheVariants as value_type;
ghost use Rattle.sh_lex.specs.declared.tokens.TokenKind.TheVariants as kind;
ghost use Rattle.sh_print.specs.Pages.{written};
ghost use Rattle.sh_print.specs.Layout.Piece.{token};
ghost use Rattle.sh_print.specs.Spellings as spelling;

use crate::printer::Printer;
use crate::spelled::Spelled;
use crate::words::width_word;
use sh_base::{Cell, Mem, Width};
use sh_ir::{Constant, Contents, Dim, TensorType, ValueType};
use std::alloc::Global;

impl Spelled for ValueType {
    ghost pieces = { spelling.type_pieces };

    #[tactic(auto, unfolding(crate::specs::Spellings::type_pieces))]
    fn print(&self, printer: &mut Printer) -> Result<(), Mem> {
        match self {
            ValueType::Nothing => Ok(()),
            ValueType::Scalar(width) => printer.word(width_word(*width)),
            ValueType::Tensor(tensor) => tensor_type(printer, tensor),
            ValueType::Sharding => printer.sharding_type(),
            ValueType::Index => printer.word("index"),
        }
    }
}

impl Spelled for Constant {
    ghost pieces = { spelling.dense_pieces };

    #[tactic(auto, unfolding(crate::specs::Spellings::dense_pieces))]
    fn print(&self, printer: &mut Printer) -> Result<(), Mem> {
        dense(printer, &self.value_type, &self.contents)?;
        printer.sign(b':')?;
        self.value_type.print(printer)
    }
}

/// The type of a tensor.
#[tactic(auto, unfolding(crate::specs::Spellings::type_pieces))]
fn tensor_type(printer: &mut Printer, tensor: &TensorType) -> Result<(), Mem>
    ensures { OnOk result (printer.new ≡ written printer.old
        (spelling.type_pieces (value_type.Tensor tensor.now))) }
{
    printer.word("tensor")?;
    printer.sign(b'<')?;
    dims(printer, tensor.dims.as_slice())?;
    printer.word(width_word(tensor.width))?;
    printer.sign(b'>')
}

/// The extents of a tensor's dimensions.
fn dims(printer: &mut Printer, dims: &[Dim]) -> Result<(), Mem>
    ensures { OnOk result (printer.new ≡ written printer.old
        (flat_map (λ d. spelling.dim d ∷ []) dims.now)) }
{
    for dim in dims {
        match dim {
            Dim::Known(extent) => printer.extent(u128::from(*extent))?,
            Dim::Differs => printer.unknown_extent()?,
        }
    }
    Ok(())
}

/// The width of a type's cells.
fn cell_width(value_type: &ValueType) -> Width
    ensures { result ≡ spelling.cell_width value_type.now }
{
    match value_type {
        ValueType::Scalar(width) => *width,
        ValueType::Tensor(tensor) => tensor.width,
        ValueType::Nothing | ValueType::Sharding | ValueType::Index => Width::I1,
    }
}

/// A literal of these cells.
#[tactic(auto, unfolding(crate::specs::Spellings::dense))]
pub(crate) fn dense(
    printer: &mut Printer,
    value_type: &ValueType,
    contents: &Contents,
) -> Result<(), Mem>
    ensures { OnOk result (printer.new ≡ written printer.old
        (spelling.dense value_type.now (spelling.cells_in contents.now))) }
{
    printer.word("dense")?;
    printer.sign(b'<')?;
    match contents {
        Contents::Held(cells) => cells_of(printer, value_type, cells.as_slice())?,
        Contents::Broken => cells_of(printer, value_type, &[Cell::Undef])?,
    }
    printer.sign(b'>')
}

/// The cells of a literal.
#[tactic(auto, unfolding(crate::specs::Spellings::cells_pieces))]
fn cells_of(printer: &mut Printer, value_type: &ValueType, cells: &[Cell]) -> Result<(), Mem>
    ensures { OnOk result (printer.new ≡ written printer.old
        (spelling.cells_pieces (reverse (shape_of value_type.now))
        (spelling.cell_width value_type.now) cells.now)) }
{
    let width = cell_width(value_type);
    match cells {
        [] => Ok(()),
        [cell] => print_cell(printer, width, *cell),
        _ => {
            let extents = inner_first(printer.allocator(), value_type)?;
            nested(printer, &extents, width, cells)
        }
    }
}

/// The extents of a tensor from the innermost on.
fn inner_first(alloc: Global, value_type: &ValueType) -> Result<Vec<u64>, Mem>
    ensures { IfOk result (λ extents. extents.items ≡ reverse (shape_of value_type.now)) }
{
    let mut extents: Vec<u64> = Vec::new(alloc);
    if let ValueType::Tensor(tensor) = value_type {
        push_extents(&mut extents, tensor.dims.as_slice())?;
    }
    extents.reverse();
    Ok(extents)
}

/// The extents in order.
fn push_extents(extents: &mut Vec<u64>, dims: &[Dim]) -> Result<(), Mem>
    ensures { OnOk result (extents.new.items ≡ extents.old.items ++ map extent_of dims.now) }
{
    for dim in dims {
        extents.push(match dim {
            Dim::Known(extent) => *extent,
            Dim::Differs => 0,
        })?;
    }
    Ok(())
}

/// The cells in nested lists.
fn nested(printer: &mut Printer, extents: &[u64], width: Width, cells: &[Cell]) -> Result<(), Mem>
    ensures { OnOk result (printer.new ≡ written printer.old
        (spelling.cells_from extents.now width 0 cells.now)) }
{
    for (at, cell) in cells.iter().enumerate() {
        nested_cell(printer, extents, width, at, *cell)?;
    }
    Ok(())
}

/// A cell, with the brackets that open before it and close behind it.
#[tactic(auto, unfolding(crate::specs::Spellings::cell_between))]
fn nested_cell(
    printer: &mut Printer,
    extents: &[u64],
    width: Width,
    at: usize,
    cell: Cell,
) -> Result<(), Mem>
    requires { at + 1 < 2 ^ 64 }
    ensures { OnOk result (printer.new ≡ written printer.old
        (spelling.cell_between extents.now width at cell)) }
{
    if at > 0 {
        printer.sign(b',')?;
    }
    brackets(printer, b'[', extents, at as u64)?;
    print_cell(printer, width, cell)?;
    brackets(printer, b']', extents, at as u64 + 1)
}

/// A bracket for each list that begins at the cell with this number.
fn brackets(printer: &mut Printer, bracket: u8, extents: &[u64], at: u64) -> Result<(), Mem>
    ensures { OnOk result (printer.new ≡ written printer.old
        (replicate (spelling.begun extents.now at) (token kind.Sign (bracket ∷ [])))) }
{
    let mut at = at;
    let mut extents = extents;
    while let Some((extent, outer)) = extents.split_first() {
        if *extent == 0 || at % *extent != 0 {
            break;
        }
        printer.sign(bracket)?;
        at /= *extent;
        extents = outer;
    }
    Ok(())
}

/// A cell.
#[tactic(auto, unfolding(crate::specs::Spellings::cell_pieces))]
pub(crate) fn print_cell(printer: &mut Printer, width: Width, cell: Cell) -> Result<(), Mem>
    ensures { OnOk result (printer.new ≡ written printer.old (spelling.cell_pieces width cell)) }
{
    match cell {
        Cell::Undef => printer.word("undef"),
        Cell::Val(n) => number(printer, width, n),
    }
}

/// A number that a cell holds.
#[tactic(auto, unfolding(crate::specs::Spellings::number_pieces))]
fn number(printer: &mut Printer, width: Width, n: u64) -> Result<(), Mem>
    ensures { OnOk result (printer.new ≡ written printer.old (spelling.number_pieces width n)) }
{
    match width {
        Width::I1 => printer.word(if n == 0 { "false" } else { "true" }),
        Width::I8 => signed(n, 1 << 8).print(printer),
        Width::I16 => signed(n, 1 << 16).print(printer),
        Width::I32 => signed(n, 1 << 32).print(printer),
        Width::I64 => signed(n, 1 << 64).print(printer),
    }
}

/// A number below a size, read as a signed one.
fn signed(n: u64, size: u128) -> i128
    requires { size ≤ 2 ^ 64 }
    ensures { result ≡ spelling.signed_below size n }
{
    if 2 * u128::from(n) < size {
        i128::from(n)
    } else {
        i128::from(n) - size as i128
    }
}
