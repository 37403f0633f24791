ghost use Rattle.std.specs.Prelude.{◌≡◌, OnOk, take, drop};
ghost use Rattle.sh_print.specs.Pages.{written};
ghost use Rattle.sh_print.specs.Spellings.{rest_of_list};
ghost use Rattle.sh_print.specs.Tokens as tokens;

use crate::arith::of_type;
use crate::printer::Printer;
use crate::scopes::Scope;
use crate::spelled::{Spelled, in_brackets, list_of};
use sh_base::{AxisLists, Mem, Numbers};
use sh_ir::{RawSharding, Types, ValueType};

/// `->` and a type.
#[tactic(auto, unfolding(crate::specs::Tokens::to_type))]
pub(crate) fn to_type(printer: &mut Printer, value_type: &ValueType) -> Result<(), Mem>
    ensures { OnOk result (printer.new ≡ written printer.old (tokens.to_type value_type.now)) }
{
    printer.arrow()?;
    value_type.print(printer)
}

/// The types of an operand and of the value.
#[tactic(auto, unfolding(crate::specs::Tokens::from_to))]
pub(crate) fn from_to(
    printer: &mut Printer,
    operand_type: &ValueType,
    value_type: &ValueType,
) -> Result<(), Mem>
    ensures { OnOk result (printer.new ≡ written printer.old
        (tokens.from_to operand_type.now value_type.now)) }
{
    of_type(printer, operand_type)?;
    to_type(printer, value_type)
}

/// A name and `=`.
#[tactic(auto, unfolding(crate::specs::Tokens::attribute))]
pub(crate) fn attribute(printer: &mut Printer, name: &str) -> Result<(), Mem>
    ensures { OnOk result (printer.new ≡ written printer.old (tokens.attribute name.now)) }
{
    printer.word(name)?;
    printer.sign(b'=')
}

/// An attribute that is a number.
#[tactic(auto, unfolding(crate::specs::Tokens::axis_pieces))]
pub(crate) fn axis(printer: &mut Printer, name: &str, number: u64) -> Result<(), Mem>
    ensures { OnOk result (printer.new ≡ written printer.old (tokens.axis_pieces name.now number)) }
{
    attribute(printer, name)?;
    printer.number(u128::from(number))
}

/// An attribute that is a list of numbers.
#[tactic(auto, unfolding(crate::specs::Tokens::numbers_pieces))]
pub(crate) fn numbers(printer: &mut Printer, name: &str, numbers: &Numbers) -> Result<(), Mem>
    ensures { OnOk result (printer.new ≡ written printer.old
        (tokens.numbers_pieces name.now numbers.now)) }
{
    attribute(printer, name)?;
    numbers.print(printer)
}

/// The same, unless the list is empty.
#[tactic(auto, unfolding(crate::specs::Tokens::listed))]
fn listed(printer: &mut Printer, name: &str, list: &Numbers) -> Result<(), Mem>
    ensures { OnOk result (printer.new ≡ written printer.old (tokens.listed name.now list.now)) }
{
    if list.is_empty() {
        return Ok(());
    }
    numbers(printer, name, list)
}

/// A word that stands where it holds.
#[tactic(auto, unfolding(crate::specs::Tokens::flag))]
pub(crate) fn flag(printer: &mut Printer, name: &str, holds: bool) -> Result<(), Mem>
    ensures { OnOk result (printer.new ≡ written printer.old (tokens.flag name.now holds)) }
{
    if holds {
        printer.word(name)?;
    }
    Ok(())
}

/// The axes along which each dimension is split.
#[tactic(auto, unfolding(crate::specs::Tokens::splits))]
pub(crate) fn splits(printer: &mut Printer, axes: &AxisLists) -> Result<(), Mem>
    ensures { OnOk result (printer.new ≡ written printer.old (tokens.splits axes.now)) }
{
    attribute(printer, "split_axes")?;
    in_brackets(printer, axes.as_slice())
}

/// A sharding, without its grid.
#[tactic(auto, unfolding(crate::specs::Tokens::sharding_pieces))]
pub(crate) fn sharding(printer: &mut Printer, it: &RawSharding) -> Result<(), Mem>
    ensures { OnOk result (printer.new ≡ written printer.old (tokens.sharding_pieces it.now)) }
{
    splits(printer, &it.split)?;
    listed(printer, "halo_sizes", &it.halos)?;
    listed(printer, "sharded_dims_offsets", &it.offsets)
}

/// Types with commas between them.
#[tactic(auto, unfolding(crate::specs::Tokens::types))]
pub(crate) fn types(printer: &mut Printer, types: &Types) -> Result<(), Mem>
    ensures { OnOk result (printer.new ≡ written printer.old (tokens.types types.now)) }
{
    list_of(printer, types.as_slice())
}

/// Values with commas between them.
#[tactic(auto, unfolding(crate::specs::Tokens::values))]
pub(crate) fn values(printer: &mut Printer, scope: &Scope, ids: &[u32]) -> Result<(), Mem>
    ensures { OnOk result (printer.new ≡ written printer.old (tokens.values scope.now ids.now)) }
{
    match ids.split_first() {
        None => Ok(()),
        Some((first, rest)) => {
            value(printer, scope, *first)?;
            more_values(printer, scope, rest)
        }
    }
}

/// Values, each behind a comma.
fn more_values(printer: &mut Printer, scope: &Scope, ids: &[u32]) -> Result<(), Mem>
    ensures { OnOk result (printer.new ≡ written printer.old
        (rest_of_list (tokens.value_in scope.now) ids.now)) }
{
    for id in ids {
        printer.sign(b',')?;
        value(printer, scope, *id)?;
    }
    Ok(())
}

/// The name of a function's value.
#[tactic(auto, unfolding(crate::specs::Tokens::value_in))]
fn value(printer: &mut Printer, scope: &Scope, id: u32) -> Result<(), Mem>
    ensures { OnOk result (printer.new ≡ written printer.old (tokens.value_in scope.now id)) }
{
    printer.value(scope.name(id))
}

/// The first values of a list, as many as there are up to a count.
pub(crate) fn first_ids(ids: &[u32], count: usize) -> &[u32]
    ensures { result.now ≡ take count ids.now }
{
    &ids[..count.min(ids.len())]
}

/// What is behind them.
pub(crate) fn ids_behind(ids: &[u32], count: usize) -> &[u32]
    ensures { result.now ≡ drop count ids.now }
{
    &ids[count.min(ids.len())..]
}
