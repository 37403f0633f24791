ghost use Rattle.std.specs.Prelude.{◌≡◌, OnOk};
ghost use Rattle.sh_print.specs.Pages.{written};
ghost use Rattle.sh_print.specs.Tokens as tokens;

use crate::arith::of_type;
use crate::names::Name;
use crate::printer::Printer;
use crate::spelled::{Spelled, in_brackets};
use sh_base::Mem;
use sh_ir::{CollapseShape, ExpandShape, ExtractSlice, InsertSlice, Slice, ValueType};

/// `tensor.empty`.
#[tactic(auto, unfolding(crate::specs::Tokens::empty_pieces))]
pub(crate) fn empty(printer: &mut Printer, value_type: &ValueType) -> Result<(), Mem>
    ensures { OnOk result (printer.new ≡ written printer.old (tokens.empty_pieces value_type.now)) }
{
    printer.word("tensor.empty")?;
    printer.sign(b'(')?;
    printer.sign(b')')?;
    of_type(printer, value_type)
}

/// Offsets, sizes and strides.
#[tactic(auto, unfolding(crate::specs::Tokens::slice_pieces))]
fn slice(printer: &mut Printer, it: &Slice) -> Result<(), Mem>
    ensures { OnOk result (printer.new ≡ written printer.old (tokens.slice_pieces it.now)) }
{
    it.offsets.print(printer)?;
    it.sizes.print(printer)?;
    it.strides.print(printer)
}

/// The types of a value and of what it becomes.
#[tactic(auto, unfolding(crate::specs::Tokens::into_pieces))]
fn into(printer: &mut Printer, source_type: &ValueType, value_type: &ValueType) -> Result<(), Mem>
    ensures { OnOk result (printer.new ≡ written printer.old
        (tokens.into_pieces source_type.now value_type.now)) }
{
    of_type(printer, source_type)?;
    printer.word("into")?;
    value_type.print(printer)
}

/// `tensor.extract_slice`.
#[tactic(auto, unfolding(crate::specs::Tokens::extract_pieces))]
pub(crate) fn extract_slice(
    printer: &mut Printer,
    it: &ExtractSlice,
    a: Name,
    value_type: &ValueType,
) -> Result<(), Mem>
    ensures { OnOk result (printer.new ≡ written printer.old
        (tokens.extract_pieces it.now a value_type.now)) }
{
    printer.word("tensor.extract_slice")?;
    printer.value(a)?;
    slice(printer, &it.slice)?;
    of_type(printer, &it.source_type)?;
    printer.word("to")?;
    value_type.print(printer)
}

/// `tensor.insert_slice`.
#[tactic(auto, unfolding(crate::specs::Tokens::insert_pieces))]
pub(crate) fn insert_slice(
    printer: &mut Printer,
    it: &InsertSlice,
    a: Name,
    b: Name,
    value_type: &ValueType,
) -> Result<(), Mem>
    ensures { OnOk result (printer.new ≡ written printer.old
        (tokens.insert_pieces it.now a b value_type.now)) }
{
    printer.word("tensor.insert_slice")?;
    printer.value(a)?;
    printer.word("into")?;
    printer.value(b)?;
    slice(printer, &it.slice)?;
    into(printer, &it.source_type, value_type)
}

/// `tensor.collapse_shape`.
#[tactic(auto, unfolding(crate::specs::Tokens::collapse_pieces))]
pub(crate) fn collapse_shape(
    printer: &mut Printer,
    it: &CollapseShape,
    a: Name,
    value_type: &ValueType,
) -> Result<(), Mem>
    ensures { OnOk result (printer.new ≡ written printer.old
        (tokens.collapse_pieces it.now a value_type.now)) }
{
    printer.word("tensor.collapse_shape")?;
    printer.value(a)?;
    in_brackets(printer, it.reassociation.as_slice())?;
    into(printer, &it.source_type, value_type)
}

/// `tensor.expand_shape`.
#[tactic(auto, unfolding(crate::specs::Tokens::expand_pieces))]
pub(crate) fn expand_shape(
    printer: &mut Printer,
    it: &ExpandShape,
    a: Name,
    value_type: &ValueType,
) -> Result<(), Mem>
    ensures { OnOk result (printer.new ≡ written printer.old
        (tokens.expand_pieces it.now a value_type.now)) }
{
    printer.word("tensor.expand_shape")?;
    printer.value(a)?;
    in_brackets(printer, it.reassociation.as_slice())?;
    printer.word("output_shape")?;
    it.output_shape.print(printer)?;
    into(printer, &it.source_type, value_type)
}
