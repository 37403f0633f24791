ghost use Rattle.std.specs.Prelude.{◌≡◌, ◌∷◌, OnOk};
ghost use Rattle.sh_print.specs.Pages.{written};
ghost use Rattle.sh_print.specs.Spellings.{in_brackets};
ghost use Rattle.sh_print.specs.Tokens as tokens;

use crate::phrases::{attribute, first_ids, ids_behind, numbers, to_type, types, values};
use crate::printer::Printer;
use crate::regions::{block_arguments, region};
use crate::scopes::Scope;
use crate::spelled::{Spelled, in_brackets, list_of};
use sh_base::{Mem, Numbers};
use sh_ir::{AffineMap, Generic, InsOuts, Reduce, Types, ValueType};
use std::alloc::Global;

impl Spelled for AffineMap {
    ghost pieces = { tokens.map_pieces };

    #[tactic(auto, unfolding(crate::specs::Tokens::map_pieces))]
    fn print(&self, printer: &mut Printer) -> Result<(), Mem> {
        printer.word("affine_map")?;
        printer.sign(b'<')?;
        loops(printer, self.loops.as_slice())?;
        printer.arrow()?;
        loops(printer, self.results.as_slice())?;
        printer.sign(b'>')
    }
}

/// Loops in parentheses.
#[tactic(auto, unfolding(crate::specs::Tokens::loops_pieces))]
fn loops(printer: &mut Printer, loops: &[u32]) -> Result<(), Mem>
    ensures { OnOk result (printer.new ≡ written printer.old (tokens.loops_pieces loops.now)) }
{
    printer.sign(b'(')?;
    list_of(printer, loops)?;
    printer.sign(b')')
}

/// `ins` or `outs`: values and their types.
#[tactic(auto, unfolding(crate::specs::Tokens::operands_pieces))]
fn operands(
    printer: &mut Printer,
    name: &str,
    scope: &Scope,
    ids: &[u32],
    value_types: &Types,
) -> Result<(), Mem>
    ensures { OnOk result (printer.new ≡ written printer.old
        (tokens.operands_pieces name.now scope.now ids.now value_types.now)) }
{
    printer.word(name)?;
    printer.sign(b'(')?;
    typed_values(printer, scope, ids, value_types)?;
    printer.sign(b')')
}

/// Values, and behind them their types.
#[tactic(auto, unfolding(crate::specs::Tokens::typed_values))]
pub(crate) fn typed_values(
    printer: &mut Printer,
    scope: &Scope,
    ids: &[u32],
    value_types: &Types,
) -> Result<(), Mem>
    ensures { OnOk result (printer.new ≡ written printer.old
        (tokens.typed_values scope.now ids.now value_types.now)) }
{
    values(printer, scope, ids)?;
    printer.sign(b':')?;
    types(printer, value_types)
}

/// `ins`.
#[tactic(auto, unfolding(crate::specs::Tokens::ins))]
fn ins(printer: &mut Printer, scope: &Scope, it: &InsOuts, ids: &[u32]) -> Result<(), Mem>
    ensures { OnOk result (printer.new ≡ written printer.old
        (tokens.ins scope.now it.now ids.now)) }
{
    operands(
        printer,
        "ins",
        scope,
        first_ids(ids, it.ins_count),
        &it.ins_types,
    )
}

/// `outs`.
#[tactic(auto, unfolding(crate::specs::Tokens::outs))]
fn outs(printer: &mut Printer, scope: &Scope, it: &InsOuts, ids: &[u32]) -> Result<(), Mem>
    ensures { OnOk result (printer.new ≡ written printer.old
        (tokens.outs scope.now it.now ids.now)) }
{
    let behind = ids_behind(ids, it.ins_count);
    operands(
        printer,
        "outs",
        scope,
        first_ids(behind, it.outs_count),
        &it.outs_types,
    )
}

/// `ins`, unless it names nothing.
#[tactic(auto, unfolding(crate::specs::Tokens::maybe_ins))]
fn maybe_ins(printer: &mut Printer, scope: &Scope, it: &InsOuts, ids: &[u32]) -> Result<(), Mem>
    ensures { OnOk result (printer.new ≡ written printer.old
        (tokens.maybe_ins scope.now it.now ids.now)) }
{
    if are_none(first_ids(ids, it.ins_count), &it.ins_types) {
        return Ok(());
    }
    ins(printer, scope, it, ids)
}

/// Whether there is neither a value nor a type.
pub(crate) fn are_none(ids: &[u32], value_types: &Types) -> bool
    ensures { result ≡ tokens.are_none ids.now value_types.now }
{
    is_empty(ids) && is_empty(value_types.as_slice())
}

/// Whether a list is empty.
fn is_empty<T>(items: &[T]) -> bool
    ensures { result ≡ tokens.is_empty items.now }
{
    match items.split_first() {
        None => true,
        Some(_) => false,
    }
}

/// `ins` and `outs`.
#[tactic(auto, unfolding(crate::specs::Tokens::ins_outs))]
fn ins_outs(printer: &mut Printer, scope: &Scope, it: &InsOuts, ids: &[u32]) -> Result<(), Mem>
    ensures { OnOk result (printer.new ≡ written printer.old
        (tokens.ins_outs scope.now it.now ids.now)) }
{
    ins(printer, scope, it, ids)?;
    outs(printer, scope, it, ids)
}

/// A structured operation without attributes.
#[tactic(auto, unfolding(crate::specs::Tokens::structured_pieces))]
pub(crate) fn structured(
    printer: &mut Printer,
    name: &str,
    scope: &Scope,
    it: &InsOuts,
    ids: &[u32],
    value_type: &ValueType,
) -> Result<(), Mem>
    ensures { OnOk result (printer.new ≡ written printer.old
        (tokens.structured_pieces name.now scope.now it.now ids.now value_type.now)) }
{
    printer.word(name)?;
    ins_outs(printer, scope, it, ids)?;
    to_type(printer, value_type)
}

/// A structured operation with a list of dimensions.
#[tactic(auto, unfolding(crate::specs::Tokens::along_pieces))]
pub(crate) fn along(
    printer: &mut Printer,
    name: &str,
    scope: &Scope,
    it: &InsOuts,
    ids: &[u32],
    dimensions: (&str, &Numbers),
) -> Result<(), Mem>
    ensures { OnOk result (printer.new ≡ written printer.old
        (tokens.along_pieces name.now scope.now it.now ids.now
        dimensions.entry.0.now dimensions.entry.1.now)) }
{
    let (attribute_name, list) = dimensions;
    printer.word(name)?;
    ins_outs(printer, scope, it, ids)?;
    numbers(printer, attribute_name, list)
}

/// A reduction, with its region.
#[tactic(auto, unfolding(crate::specs::Tokens::reduce_pieces))]
pub(crate) fn reduce(
    alloc: Global,
    printer: &mut Printer,
    scope: &Scope,
    it: &Reduce,
    ids: &[u32],
) -> Result<(), Mem>
    ensures { OnOk result (printer.new ≡ written printer.old
        (tokens.reduce_pieces scope.now it.now ids.now)) }
{
    along(
        printer,
        "linalg.reduce",
        scope,
        &it.ins_outs,
        ids,
        ("dimensions", &it.dimensions),
    )?;
    block_arguments(printer, it.body.widths.as_slice())?;
    printer.open()?;
    region(alloc, printer, scope, &it.body)
}

/// A generic operation, with its region.
#[tactic(auto, unfolding(crate::specs::Tokens::generic_pieces))]
pub(crate) fn generic(
    alloc: Global,
    printer: &mut Printer,
    scope: &Scope,
    it: &Generic,
    ids: &[u32],
    value_type: &ValueType,
) -> Result<(), Mem>
    ensures { OnOk result (printer.new ≡ written printer.old
        (tokens.generic_pieces scope.now it.now ids.now value_type.now)) }
{
    printer.word("linalg.generic")?;
    attributes(printer, it)?;
    maybe_ins(printer, scope, &it.ins_outs, ids)?;
    outs(printer, scope, &it.ins_outs, ids)?;
    header(printer, it)?;
    region(alloc, printer, scope, &it.body)?;
    to_type(printer, value_type)
}

/// The attributes of a generic operation.
#[tactic(auto, unfolding(crate::specs::Tokens::generic_attributes))]
fn attributes(printer: &mut Printer, it: &Generic) -> Result<(), Mem>
    ensures { OnOk result (printer.new ≡ written printer.old (tokens.generic_attributes it.now)) }
{
    printer.sign(b'{')?;
    maps(printer, it)?;
    printer.sign(b',')?;
    iterators(printer, it)?;
    printer.sign(b'}')
}

/// Its maps.
#[tactic(auto, unfolding(crate::specs::Tokens::maps_pieces))]
fn maps(printer: &mut Printer, it: &Generic) -> Result<(), Mem>
    ensures { OnOk result (printer.new ≡ written printer.old (tokens.maps_pieces it.now)) }
{
    attribute(printer, "indexing_maps")?;
    in_brackets(printer, it.indexing_maps.as_slice())
}

/// Its iterators.
#[tactic(auto, unfolding(crate::specs::Tokens::iterators_pieces))]
fn iterators(printer: &mut Printer, it: &Generic) -> Result<(), Mem>
    ensures { OnOk result (printer.new ≡ written printer.old (tokens.iterators_pieces it.now)) }
{
    attribute(printer, "iterator_types")?;
    in_brackets(printer, it.iterator_types.as_slice())
}

/// The head of its region's block.
#[tactic(auto, unfolding(crate::specs::Tokens::header_pieces))]
fn header(printer: &mut Printer, it: &Generic) -> Result<(), Mem>
    ensures { OnOk result (printer.new ≡ written printer.old (tokens.header_pieces it.now)) }
{
    printer.open()?;
    printer.block()?;
    block_arguments(printer, it.body.widths.as_slice())?;
    printer.sign(b':')?;
    printer.end_line()
}
