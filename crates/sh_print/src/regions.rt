ghost use Rattle.std.specs.Prelude.{◌≡◌, OnOk, ◌+◌, ◌<◌, ◌^◌, flat_map, length};
ghost use Rattle.sh_print.specs.Pages.{written};
ghost use Rattle.sh_print.specs.Tokens as tokens;
ghost use Rattle.sh_print.specs.Values.{name_inside};

use crate::arith::{binary, cast, compare, constant, select};
use crate::names::Name;
use crate::printer::Printer;
use crate::scopes::{Scope, id_at};
use crate::spelled::Spelled;
use crate::words::width_word;
use sh_base::{Mem, Width};
use sh_ir::{Body, BodyKind, BodyOp};
use std::alloc::Global;

/// The block arguments of a region, in parentheses.
#[tactic(auto, unfolding(crate::specs::Tokens::block_arguments))]
pub(crate) fn block_arguments(printer: &mut Printer, widths: &[Width]) -> Result<(), Mem>
    ensures { OnOk result (printer.new ≡ written printer.old (tokens.block_arguments widths.now)) }
{
    printer.sign(b'(')?;
    all_block_arguments(printer, widths)?;
    printer.sign(b')')
}

/// The block arguments with commas between them.
fn all_block_arguments(printer: &mut Printer, widths: &[Width]) -> Result<(), Mem>
    ensures { OnOk result (printer.new ≡ written printer.old
        (tokens.more_block_arguments 0 widths.now)) }
{
    for (at, width) in widths.iter().enumerate() {
        block_argument(printer, at, *width)?;
    }
    Ok(())
}

/// A block argument, behind a comma unless it is the first.
#[tactic(auto, unfolding(crate::specs::Tokens::block_argument))]
fn block_argument(printer: &mut Printer, at: usize, width: Width) -> Result<(), Mem>
    ensures { OnOk result (printer.new ≡ written printer.old (tokens.block_argument at width)) }
{
    if at > 0 {
        printer.sign(b',')?;
    }
    printer.value(Name::BlockArgument(at))?;
    printer.sign(b':')?;
    printer.word(width_word(width))
}

/// The operations of a region, its yield and its closing brace.
#[tactic(auto, unfolding(crate::specs::Tokens::body_pieces))]
pub(crate) fn region(
    alloc: Global,
    printer: &mut Printer,
    outer: &Scope,
    body: &Body,
) -> Result<(), Mem>
    ensures { OnOk result (printer.new ≡ written printer.old
        (tokens.body_pieces outer.now body.now)) }
{
    let own = Scope::of_body(alloc, body)?;
    body_ops(printer, &own, outer, body.ops.as_slice())?;
    yielded(printer, own.name_inside(outer, body.yields), body.width)?;
    printer.close()
}

/// What a region yields.
#[tactic(auto, unfolding(crate::specs::Tokens::yield_pieces))]
fn yielded(printer: &mut Printer, name: Name, width: Width) -> Result<(), Mem>
    ensures { OnOk result (printer.new ≡ written printer.old (tokens.yield_pieces name width)) }
{
    printer.word("linalg.yield")?;
    printer.value(name)?;
    printer.sign(b':')?;
    printer.word(width_word(width))?;
    printer.end_line()
}

/// The operations of a region.
fn body_ops(printer: &mut Printer, own: &Scope, outer: &Scope, ops: &[BodyOp]) -> Result<(), Mem>
    ensures { OnOk result (printer.new ≡ written printer.old
        (flat_map (tokens.body_op_pieces own.now outer.now) ops.now)) }
{
    for op in ops {
        body_op(printer, own, outer, op)?;
    }
    Ok(())
}

/// An operation of a region.
#[tactic(auto, unfolding(crate::specs::Tokens::body_op_pieces))]
fn body_op(printer: &mut Printer, own: &Scope, outer: &Scope, op: &BodyOp) -> Result<(), Mem>
    ensures { OnOk result (printer.new ≡ written printer.old
        (tokens.body_op_pieces own.now outer.now op.now)) }
{
    printer.value(own.name_inside(outer, op.defines))?;
    printer.sign(b'=')?;
    body_kind(printer, own, outer, op)?;
    printer.end_line()
}

/// The right side of an operation of a region.
#[tactic(auto, unfolding(crate::specs::Tokens::body_kind_pieces))]
fn body_kind(printer: &mut Printer, own: &Scope, outer: &Scope, op: &BodyOp) -> Result<(), Mem>
    ensures { OnOk result (printer.new ≡ written printer.old
        (tokens.body_kind_pieces op.now.kind own.now outer.now op.now.operands op.now.result)) }
{
    let ids = op.operands.as_slice();
    let a = own.name_inside(outer, id_at(ids, 0));
    let b = own.name_inside(outer, id_at(ids, 1));
    let c = own.name_inside(outer, id_at(ids, 2));
    match &op.kind {
        BodyKind::Constant(it) => constant(printer, it),
        BodyKind::Binary(it) => binary(printer, *it, a, b, &op.result),
        BodyKind::Compare(it) => compare(printer, it, a, b),
        BodyKind::Select(it) => select(printer, &it.condition_type, a, b, c, &op.result),
        BodyKind::Cast(it) => cast(printer, it, a, &op.result),
        BodyKind::Index(it) => index(printer, it.dimension),
        BodyKind::IndexCast => index_cast(printer, op, a),
    }
}

/// The index of a loop.
#[tactic(auto, unfolding(crate::specs::Tokens::index_pieces))]
fn index(printer: &mut Printer, dimension: u64) -> Result<(), Mem>
    ensures { OnOk result (printer.new ≡ written printer.old (tokens.index_pieces dimension)) }
{
    printer.word("linalg.index")?;
    printer.number(u128::from(dimension))?;
    printer.sign(b':')?;
    printer.word("index")
}

/// The cast of a loop's index.
#[tactic(auto, unfolding(crate::specs::Tokens::index_cast_pieces))]
fn index_cast(printer: &mut Printer, op: &BodyOp, a: Name) -> Result<(), Mem>
    ensures { OnOk result (printer.new ≡ written printer.old
        (tokens.index_cast_pieces a op.now.result)) }
{
    printer.word("arith.index_cast")?;
    printer.value(a)?;
    printer.sign(b':')?;
    printer.word("index")?;
    printer.word("to")?;
    op.result.print(printer)
}
