ghost use Rattle.std.specs.Prelude.{◌≡◌, IfOk, OnOk, flat_map};
ghost use Rattle.sh_print.specs.Pages.{written};
ghost use Rattle.sh_print.specs.Tokens as tokens;
ghost use Rattle.sh_print.specs.Spellings.{list_of, rest_of_list};

use crate::arith::of_type;
use crate::operations::operations;
use crate::phrases::{attribute, flag, sharding, to_type, types};
use crate::printer::Printer;
use crate::scopes::Scope;
use crate::spelled::{Spelled, list_of};
use sh_base::{Mem, Text};
use sh_ir::{Arg, CallItem, Carry, Cut, Cuts, Func, GridItem, Module, Op, Types};
use std::alloc::Global;

/// The text of a module.
///
/// Grids come first, then functions, each behind its device item, then call items. Values are named
/// by position: `%arg0` on, `%0` on, and in each region `%b0` on and `%r0` on. The one refusal is
/// want of memory. A module that isn't verified has a text too, which may be none of the language:
/// a name that nothing defines is printed as `%_`, and contents that don't fit their type as an
/// undefined cell.
#[tactic(auto, using(crate::proofs::WrittenText::written_text))]
pub fn print(alloc: Global, m: &Module) -> Result<Vec<u8>, Mem>
    ensures { IfOk result (λ text. text.items ≡ tokens.text_of m.now) }
{
    let mut printer = Printer::new(alloc);
    module(alloc, &mut printer, m)?;
    Ok(printer.into_text())
}

/// A module.
#[tactic(auto, unfolding(crate::specs::Tokens::tokens_of))]
fn module(alloc: Global, printer: &mut Printer, m: &Module) -> Result<(), Mem>
    ensures { OnOk result (printer.new ≡ written printer.old (tokens.tokens_of m.now)) }
{
    printer.word("module")?;
    module_name(printer, &m.name)?;
    printer.open()?;
    items(alloc, printer, m)?;
    printer.close()?;
    printer.end_line()
}

/// The name of a module, where it has one.
#[tactic(auto, unfolding(crate::specs::Tokens::module_name))]
fn module_name(printer: &mut Printer, name: &Option<Text>) -> Result<(), Mem>
    ensures { OnOk result (printer.new ≡ written printer.old (tokens.module_name name.now)) }
{
    match name {
        None => Ok(()),
        Some(name) => printer.symbol(name.as_slice()),
    }
}

/// The items of a module.
#[tactic(auto, unfolding(crate::specs::Tokens::items_pieces))]
fn items(alloc: Global, printer: &mut Printer, m: &Module) -> Result<(), Mem>
    ensures { OnOk result (printer.new ≡ written printer.old (tokens.items_pieces m.now)) }
{
    grids(printer, m.grids.as_slice())?;
    functions(alloc, printer, m.funcs.as_slice())?;
    calls(printer, m.calls.as_slice())
}

/// The grids.
fn grids(printer: &mut Printer, grids: &[GridItem]) -> Result<(), Mem>
    ensures { OnOk result (printer.new ≡ written printer.old
        (flat_map tokens.grid_pieces grids.now)) }
{
    for it in grids {
        grid(printer, it)?;
    }
    Ok(())
}

/// The functions.
fn functions(alloc: Global, printer: &mut Printer, funcs: &[Func]) -> Result<(), Mem>
    ensures { OnOk result (printer.new ≡ written printer.old
        (flat_map tokens.func_pieces funcs.now)) }
{
    for it in funcs {
        function(alloc, printer, it)?;
    }
    Ok(())
}

/// The call items.
fn calls(printer: &mut Printer, calls: &[CallItem]) -> Result<(), Mem>
    ensures { OnOk result (printer.new ≡ written printer.old
        (flat_map tokens.call_pieces calls.now)) }
{
    for it in calls {
        call(printer, it)?;
    }
    Ok(())
}

/// A grid.
#[tactic(auto, unfolding(crate::specs::Tokens::grid_pieces))]
fn grid(printer: &mut Printer, it: &GridItem) -> Result<(), Mem>
    ensures { OnOk result (printer.new ≡ written printer.old (tokens.grid_pieces it.now)) }
{
    printer.word("shard.grid")?;
    printer.symbol(it.name.as_slice())?;
    printer.sign(b'(')?;
    attribute(printer, "shape")?;
    extents(printer, it.extents.as_slice())?;
    printer.sign(b')')?;
    printer.end_line()
}

/// The extents of a grid: each but the last is that of a dimension.
#[tactic(auto, unfolding(crate::specs::Tokens::extents))]
fn extents(printer: &mut Printer, extents: &[i128]) -> Result<(), Mem>
    ensures { OnOk result (printer.new ≡ written printer.old (tokens.extents extents.now)) }
{
    let mut left = extents;
    while let Some((extent, rest)) = left.split_first() {
        let extent = extent.unsigned_abs();
        if rest.is_empty() {
            printer.number(extent)?;
        } else {
            printer.extent(extent)?;
        }
        left = rest;
    }
    Ok(())
}

/// A call item.
#[tactic(auto, unfolding(crate::specs::Tokens::call_pieces))]
fn call(printer: &mut Printer, it: &CallItem) -> Result<(), Mem>
    ensures { OnOk result (printer.new ≡ written printer.old (tokens.call_pieces it.now)) }
{
    printer.word("shardrun.call")?;
    printer.symbol(it.callee.as_slice())?;
    printer.sign(b'(')?;
    list_of(printer, it.args.as_slice())?;
    printer.sign(b')')?;
    printer.end_line()
}

impl Spelled for Cut {
    ghost pieces = { tokens.cut_pieces };

    #[tactic(auto, unfolding(crate::specs::Tokens::cut_pieces))]
    fn print(&self, printer: &mut Printer) -> Result<(), Mem> {
        self.whole.print(printer)?;
        sharding(printer, &self.sharding)
    }
}

/// Cuts in parentheses.
#[tactic(auto, unfolding(crate::specs::Tokens::cuts))]
fn cuts(printer: &mut Printer, cuts: &Cuts) -> Result<(), Mem>
    ensures { OnOk result (printer.new ≡ written printer.old (tokens.cuts cuts.now)) }
{
    printer.sign(b'(')?;
    list_of(printer, cuts.as_slice())?;
    printer.sign(b')')
}

/// The device item of a function that is carried.
#[tactic(auto, unfolding(crate::specs::Tokens::carry_pieces))]
fn device(printer: &mut Printer, name: &Text, carry: &Carry) -> Result<(), Mem>
    ensures { OnOk result (printer.new ≡ written printer.old
        (tokens.carry_pieces name.now carry.now)) }
{
    printer.word("shardrun.device")?;
    printer.symbol(name.as_slice())?;
    printer.word("on")?;
    printer.symbol(carry.grid.as_slice())?;
    cuts(printer, &carry.args)?;
    printer.arrow()?;
    cuts(printer, &carry.results)?;
    printer.end_line()
}

/// The device item, if there is one.
#[tactic(auto, unfolding(crate::specs::Tokens::device_pieces))]
fn maybe_device(printer: &mut Printer, it: &Func) -> Result<(), Mem>
    ensures { OnOk result (printer.new ≡ written printer.old
        (tokens.device_pieces it.now.name it.now.carry)) }
{
    match &it.carry {
        None => Ok(()),
        Some(carry) => device(printer, &it.name, carry),
    }
}

/// A function, behind its device item.
#[tactic(auto, unfolding(crate::specs::Tokens::func_pieces))]
fn function(alloc: Global, printer: &mut Printer, it: &Func) -> Result<(), Mem>
    ensures { OnOk result (printer.new ≡ written printer.old (tokens.func_pieces it.now)) }
{
    let scope = Scope::of_func(alloc, it)?;
    maybe_device(printer, it)?;
    signature(printer, &scope, it)?;
    block(alloc, printer, &scope, it.ops.as_slice())
}

/// The head of a function.
#[tactic(auto, unfolding(crate::specs::Tokens::signature_pieces))]
fn signature(printer: &mut Printer, scope: &Scope, it: &Func) -> Result<(), Mem>
    ensures { OnOk result (printer.new ≡ written printer.old
        (tokens.signature_pieces scope.now it.now)) }
{
    printer.word("func.func")?;
    flag(printer, "private", it.private)?;
    printer.symbol(it.name.as_slice())?;
    parameters(printer, scope, it.args.as_slice())?;
    results(printer, &it.results)
}

/// The operations of a function, in braces.
#[tactic(auto, unfolding(crate::specs::Tokens::ops_pieces))]
fn block(alloc: Global, printer: &mut Printer, scope: &Scope, ops: &[Op]) -> Result<(), Mem>
    ensures { OnOk result (printer.new ≡ written printer.old
        (tokens.ops_pieces scope.now ops.now)) }
{
    printer.open()?;
    operations(alloc, printer, scope, ops)?;
    printer.close()?;
    printer.end_line()
}

/// The parameters of a function, in parentheses.
#[tactic(auto, unfolding(crate::specs::Tokens::parameters_pieces))]
fn parameters(printer: &mut Printer, scope: &Scope, args: &[Arg]) -> Result<(), Mem>
    ensures { OnOk result (printer.new ≡ written printer.old
        (tokens.parameters_pieces scope.now args.now)) }
{
    printer.sign(b'(')?;
    all_parameters(printer, scope, args)?;
    printer.sign(b')')
}

/// The parameters with commas between them.
fn all_parameters(printer: &mut Printer, scope: &Scope, args: &[Arg]) -> Result<(), Mem>
    ensures { OnOk result (printer.new ≡ written printer.old
        (list_of (tokens.parameter scope.now) args.now)) }
{
    match args.split_first() {
        None => Ok(()),
        Some((first, rest)) => {
            parameter(printer, scope, first)?;
            more_parameters(printer, scope, rest)
        }
    }
}

/// Parameters, each behind a comma.
fn more_parameters(printer: &mut Printer, scope: &Scope, args: &[Arg]) -> Result<(), Mem>
    ensures { OnOk result (printer.new ≡ written printer.old
        (rest_of_list (tokens.parameter scope.now) args.now)) }
{
    for arg in args {
        printer.sign(b',')?;
        parameter(printer, scope, arg)?;
    }
    Ok(())
}

/// A parameter.
#[tactic(auto, unfolding(crate::specs::Tokens::parameter))]
fn parameter(printer: &mut Printer, scope: &Scope, arg: &Arg) -> Result<(), Mem>
    ensures { OnOk result (printer.new ≡ written printer.old (tokens.parameter scope.now arg.now)) }
{
    printer.value(scope.name(arg.id))?;
    of_type(printer, &arg.value_type)
}

/// The types of a function's results.
#[tactic(auto, unfolding(crate::specs::Tokens::results_pieces))]
fn results(printer: &mut Printer, results: &Types) -> Result<(), Mem>
    ensures { OnOk result (printer.new ≡ written printer.old
        (tokens.results_pieces results.now)) }
{
    match results.as_slice() {
        [] => Ok(()),
        [result_type] => to_type(printer, result_type),
        _ => several(printer, results),
    }
}

/// The types of several results.
#[tactic(auto, unfolding(crate::specs::Tokens::several_pieces))]
fn several(printer: &mut Printer, results: &Types) -> Result<(), Mem>
    ensures { OnOk result (printer.new ≡ written printer.old (tokens.several_pieces results.now)) }
{
    printer.arrow()?;
    printer.sign(b'(')?;
    types(printer, results)?;
    printer.sign(b')')
}
