ghost use Rattle.std.specs.Prelude.{◌≡◌, OnOk};
ghost use Rattle.sh_print.specs.Pages.{written};
ghost use Rattle.sh_print.specs.Tokens as tokens;

use crate::names::Name;
use crate::printer::Printer;
use crate::spelled::Spelled;
use crate::spellings::print_cell;
use crate::words::{binary_word, cast_word, predicate_word};
use sh_base::{BinOp, Cell, Mem, Width};
use sh_ir::{Cast, Compare, Constant, Contents, ValueType};

/// A constant.
#[tactic(auto, unfolding(crate::specs::Tokens::constant_pieces))]
pub(crate) fn constant(printer: &mut Printer, constant: &Constant) -> Result<(), Mem>
    ensures { OnOk result (printer.new ≡ written printer.old
        (tokens.constant_pieces constant.now)) }
{
    printer.word("arith.constant")?;
    literal(printer, constant)
}

/// A literal.
#[tactic(auto, unfolding(crate::specs::Tokens::literal_pieces))]
fn literal(printer: &mut Printer, constant: &Constant) -> Result<(), Mem>
    ensures { OnOk result (printer.new ≡ written printer.old
        (tokens.literal_pieces constant.now constant.now.value_type)) }
{
    match &constant.value_type {
        ValueType::Scalar(width) => scalar(printer, constant, *width),
        ValueType::Tensor(_) | ValueType::Nothing | ValueType::Sharding | ValueType::Index => {
            constant.print(printer)
        }
    }
}

/// A literal of a scalar, with its type unless it is `true` or `false`.
#[tactic(auto, unfolding(crate::specs::Tokens::scalar_pieces))]
fn scalar(printer: &mut Printer, constant: &Constant, width: Width) -> Result<(), Mem>
    ensures { OnOk result (printer.new ≡ written printer.old
        (tokens.scalar_pieces constant.now width)) }
{
    print_cell(printer, width, scalar_cell(&constant.contents))?;
    if is_truth(&constant.value_type) {
        return Ok(());
    }
    of_type(printer, &constant.value_type)
}

/// The cell of a scalar.
fn scalar_cell(contents: &Contents) -> Cell
    ensures { result ≡ tokens.scalar_cell contents.now }
{
    match contents {
        Contents::Held(cells) => first_cell(cells.as_slice()),
        Contents::Broken => Cell::Undef,
    }
}

/// The first cell, if there is one.
fn first_cell(cells: &[Cell]) -> Cell
    ensures { result ≡ tokens.first_cell cells.now }
{
    match cells {
        [] => Cell::Undef,
        [cell, ..] => *cell,
    }
}

/// Whether the type is that of `true` and `false`.
fn is_truth(value_type: &ValueType) -> bool
    ensures { result ≡ tokens.is_truth value_type.now }
{
    match value_type {
        ValueType::Scalar(Width::I1) => true,
        _ => false,
    }
}

/// `:` and a type.
#[tactic(auto, unfolding(crate::specs::Tokens::of_type))]
pub(crate) fn of_type(printer: &mut Printer, value_type: &ValueType) -> Result<(), Mem>
    ensures { OnOk result (printer.new ≡ written printer.old (tokens.of_type value_type.now)) }
{
    printer.sign(b':')?;
    value_type.print(printer)
}

/// Two values, with a comma between them.
#[tactic(auto, unfolding(crate::specs::Tokens::pair))]
fn pair(printer: &mut Printer, a: Name, b: Name) -> Result<(), Mem>
    ensures { OnOk result (printer.new ≡ written printer.old (tokens.pair a b)) }
{
    printer.value(a)?;
    printer.sign(b',')?;
    printer.value(b)
}

/// An operation on two operands.
#[tactic(auto, unfolding(crate::specs::Tokens::binary_pieces))]
pub(crate) fn binary(
    printer: &mut Printer,
    op: BinOp,
    a: Name,
    b: Name,
    value_type: &ValueType,
) -> Result<(), Mem>
    ensures { OnOk result (printer.new ≡ written printer.old
        (tokens.binary_pieces op a b value_type.now)) }
{
    printer.word(binary_word(op))?;
    pair(printer, a, b)?;
    of_type(printer, value_type)
}

/// A comparison.
#[tactic(auto, unfolding(crate::specs::Tokens::compare_pieces))]
pub(crate) fn compare(printer: &mut Printer, it: &Compare, a: Name, b: Name) -> Result<(), Mem>
    ensures { OnOk result (printer.new ≡ written printer.old (tokens.compare_pieces it.now a b)) }
{
    printer.word("arith.cmpi")?;
    printer.word(predicate_word(it.predicate))?;
    printer.sign(b',')?;
    pair(printer, a, b)?;
    of_type(printer, &it.operand_type)
}

/// A choice between two values.
#[tactic(auto, unfolding(crate::specs::Tokens::select_pieces))]
pub(crate) fn select(
    printer: &mut Printer,
    condition_type: &ValueType,
    c: Name,
    a: Name,
    b: Name,
    value_type: &ValueType,
) -> Result<(), Mem>
    ensures { OnOk result (printer.new ≡ written printer.old
        (tokens.select_pieces condition_type.now c a b value_type.now)) }
{
    printer.word("arith.select")?;
    printer.value(c)?;
    printer.sign(b',')?;
    pair(printer, a, b)?;
    types_of_select(printer, condition_type, value_type)
}

/// The types that a choice writes.
#[tactic(auto, unfolding(crate::specs::Tokens::types_of_select))]
fn types_of_select(
    printer: &mut Printer,
    condition_type: &ValueType,
    value_type: &ValueType,
) -> Result<(), Mem>
    ensures { OnOk result (printer.new ≡ written printer.old
        (tokens.types_of_select condition_type.now value_type.now)) }
{
    printer.sign(b':')?;
    condition(printer, condition_type)?;
    value_type.print(printer)
}

/// The type of a condition, unless it is a scalar.
#[tactic(auto, unfolding(crate::specs::Tokens::condition_pieces))]
fn condition(printer: &mut Printer, value_type: &ValueType) -> Result<(), Mem>
    ensures { OnOk result (printer.new ≡ written printer.old
        (tokens.condition_pieces value_type.now)) }
{
    if is_truth(value_type) {
        return Ok(());
    }
    value_type.print(printer)?;
    printer.sign(b',')
}

/// A cast.
#[tactic(auto, unfolding(crate::specs::Tokens::cast_pieces))]
pub(crate) fn cast(
    printer: &mut Printer,
    it: &Cast,
    a: Name,
    value_type: &ValueType,
) -> Result<(), Mem>
    ensures { OnOk result (printer.new ≡ written printer.old
        (tokens.cast_pieces it.now a value_type.now)) }
{
    printer.word(cast_word(it.op))?;
    printer.value(a)?;
    of_type(printer, &it.operand_type)?;
    printer.word("to")?;
    value_type.print(printer)
}
