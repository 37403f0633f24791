ghost use Rattle.std.specs.Prelude.{◌≡◌, OnOk};
ghost use Rattle.sh_print.specs.Pages.{written};
ghost use Rattle.sh_print.specs.Tokens as tokens;

use crate::arith::of_type;
use crate::linalg::typed_values;
use crate::names::Name;
use crate::phrases::{attribute, axis, flag, from_to, numbers, splits, to_type, types, values};
use crate::printer::Printer;
use crate::scopes::Scope;
use crate::spelled::Spelled;
use crate::words::kind_word;
use sh_base::{Kind, Mem};
use sh_ir::{
    AllGather, AllReduce, AllSlice, AllToAll, Call, GridAxes, Join, Pad, RawSharding,
    ReduceScatter, Return, Shard, Shift, Take, UpdateHalo, ValueType,
};

/// A sharding, with its grid and its type.
#[tactic(auto, unfolding(crate::specs::Tokens::sharding_op_pieces))]
pub(crate) fn sharding(printer: &mut Printer, it: &RawSharding) -> Result<(), Mem>
    ensures { OnOk result (printer.new ≡ written printer.old (tokens.sharding_op_pieces it.now)) }
{
    printer.word("shard.sharding")?;
    printer.symbol(it.grid.as_slice())?;
    crate::phrases::sharding(printer, it)?;
    of_type(printer, &ValueType::Sharding)
}

/// A note.
#[tactic(auto, unfolding(crate::specs::Tokens::shard_pieces))]
pub(crate) fn shard(
    printer: &mut Printer,
    it: &Shard,
    a: Name,
    b: Name,
    value_type: &ValueType,
) -> Result<(), Mem>
    ensures { OnOk result (printer.new ≡ written printer.old
        (tokens.shard_pieces it.now a b value_type.now)) }
{
    printer.word("shard.shard")?;
    printer.value(a)?;
    printer.word("to")?;
    printer.value(b)?;
    flag(printer, "annotate_for_users", it.annotate_for_users)?;
    of_type(printer, value_type)
}

/// An operation on a value over groups of devices.
#[tactic(auto, unfolding(crate::specs::Tokens::over))]
fn over(printer: &mut Printer, name: &str, a: Name, on: &GridAxes) -> Result<(), Mem>
    ensures { OnOk result (printer.new ≡ written printer.old (tokens.over name.now a on.now)) }
{
    printer.word(name)?;
    printer.value(a)?;
    printer.word("on")?;
    printer.symbol(on.grid.as_slice())?;
    numbers(printer, "grid_axes", &on.grid_axes)
}

/// The kind of a reduction.
#[tactic(auto, unfolding(crate::specs::Tokens::reduction_pieces))]
fn reduction(printer: &mut Printer, kind: Kind) -> Result<(), Mem>
    ensures { OnOk result (printer.new ≡ written printer.old (tokens.reduction_pieces kind)) }
{
    attribute(printer, "reduction")?;
    printer.apart()?;
    printer.word(kind_word(kind))?;
    printer.sign(b'>')
}

/// `shard.all_gather`.
#[tactic(auto, unfolding(crate::specs::Tokens::all_gather_pieces))]
pub(crate) fn all_gather(
    printer: &mut Printer,
    it: &AllGather,
    a: Name,
    value_type: &ValueType,
) -> Result<(), Mem>
    ensures { OnOk result (printer.new ≡ written printer.old
        (tokens.all_gather_pieces it.now a value_type.now)) }
{
    over(printer, "shard.all_gather", a, &it.on)?;
    axis(printer, "gather_axis", it.gather_axis)?;
    from_to(printer, &it.operand_type, value_type)
}

/// `shard.all_slice`.
#[tactic(auto, unfolding(crate::specs::Tokens::all_slice_pieces))]
pub(crate) fn all_slice(
    printer: &mut Printer,
    it: &AllSlice,
    a: Name,
    value_type: &ValueType,
) -> Result<(), Mem>
    ensures { OnOk result (printer.new ≡ written printer.old
        (tokens.all_slice_pieces it.now a value_type.now)) }
{
    over(printer, "shard.all_slice", a, &it.on)?;
    axis(printer, "slice_axis", it.slice_axis)?;
    from_to(printer, &it.operand_type, value_type)
}

/// `shard.all_reduce`.
#[tactic(auto, unfolding(crate::specs::Tokens::all_reduce_pieces))]
pub(crate) fn all_reduce(
    printer: &mut Printer,
    it: &AllReduce,
    a: Name,
    value_type: &ValueType,
) -> Result<(), Mem>
    ensures { OnOk result (printer.new ≡ written printer.old
        (tokens.all_reduce_pieces it.now a value_type.now)) }
{
    over(printer, "shard.all_reduce", a, &it.on)?;
    reduction(printer, it.reduction)?;
    from_to(printer, &it.operand_type, value_type)
}

/// `shard.reduce_scatter`.
#[tactic(auto, unfolding(crate::specs::Tokens::reduce_scatter_pieces))]
pub(crate) fn reduce_scatter(
    printer: &mut Printer,
    it: &ReduceScatter,
    a: Name,
    value_type: &ValueType,
) -> Result<(), Mem>
    ensures { OnOk result (printer.new ≡ written printer.old
        (tokens.reduce_scatter_pieces it.now a value_type.now)) }
{
    over(printer, "shard.reduce_scatter", a, &it.on)?;
    reduction(printer, it.reduction)?;
    axis(printer, "scatter_axis", it.scatter_axis)?;
    from_to(printer, &it.operand_type, value_type)
}

/// `shard.all_to_all`.
#[tactic(auto, unfolding(crate::specs::Tokens::all_to_all_pieces))]
pub(crate) fn all_to_all(
    printer: &mut Printer,
    it: &AllToAll,
    a: Name,
    value_type: &ValueType,
) -> Result<(), Mem>
    ensures { OnOk result (printer.new ≡ written printer.old
        (tokens.all_to_all_pieces it.now a value_type.now)) }
{
    over(printer, "shard.all_to_all", a, &it.on)?;
    axis(printer, "split_axis", it.split_axis)?;
    axis(printer, "concat_axis", it.concat_axis)?;
    from_to(printer, &it.operand_type, value_type)
}

/// `shard.shift`.
#[tactic(auto, unfolding(crate::specs::Tokens::shift_pieces))]
pub(crate) fn shift(
    printer: &mut Printer,
    it: &Shift,
    a: Name,
    value_type: &ValueType,
) -> Result<(), Mem>
    ensures { OnOk result (printer.new ≡ written printer.old
        (tokens.shift_pieces it.now a value_type.now)) }
{
    over(printer, "shard.shift", a, &it.on)?;
    axis(printer, "shift_axis", it.shift_axis)?;
    attribute(printer, "offset")?;
    it.offset.print(printer)?;
    flag(printer, "rotate", it.rotate)?;
    from_to(printer, &it.operand_type, value_type)
}

/// `shard.update_halo`.
#[tactic(auto, unfolding(crate::specs::Tokens::update_halo_pieces))]
pub(crate) fn update_halo(
    printer: &mut Printer,
    it: &UpdateHalo,
    a: Name,
    value_type: &ValueType,
) -> Result<(), Mem>
    ensures { OnOk result (printer.new ≡ written printer.old
        (tokens.update_halo_pieces it.now a value_type.now)) }
{
    printer.word("shard.update_halo")?;
    printer.value(a)?;
    printer.word("on")?;
    printer.symbol(it.grid.as_slice())?;
    splits(printer, &it.split_axes)?;
    numbers(printer, "halo_sizes", &it.halo_sizes)?;
    of_type(printer, value_type)
}

/// `shardrun.take`.
#[tactic(auto, unfolding(crate::specs::Tokens::take_pieces))]
pub(crate) fn take(
    printer: &mut Printer,
    it: &Take,
    a: Name,
    value_type: &ValueType,
) -> Result<(), Mem>
    ensures { OnOk result (printer.new ≡ written printer.old
        (tokens.take_pieces it.now a value_type.now)) }
{
    over(printer, "shardrun.take", a, &it.on)?;
    axis(printer, "axis", it.axis)?;
    numbers(printer, "starts", &it.starts)?;
    numbers(printer, "sizes", &it.sizes)?;
    from_to(printer, &it.operand_type, value_type)
}

/// `shardrun.pad`.
#[tactic(auto, unfolding(crate::specs::Tokens::pad_pieces))]
pub(crate) fn pad(
    printer: &mut Printer,
    it: &Pad,
    a: Name,
    value_type: &ValueType,
) -> Result<(), Mem>
    ensures { OnOk result (printer.new ≡ written printer.old
        (tokens.pad_pieces it.now a value_type.now)) }
{
    printer.word("shardrun.pad")?;
    printer.value(a)?;
    numbers(printer, "low", &it.low)?;
    numbers(printer, "high", &it.high)?;
    from_to(printer, &it.operand_type, value_type)
}

/// `shardrun.join`.
#[tactic(auto, unfolding(crate::specs::Tokens::join_pieces))]
pub(crate) fn join(
    printer: &mut Printer,
    scope: &Scope,
    it: &Join,
    ids: &[u32],
    value_type: &ValueType,
) -> Result<(), Mem>
    ensures { OnOk result (printer.new ≡ written printer.old
        (tokens.join_pieces scope.now it.now ids.now value_type.now)) }
{
    printer.word("shardrun.join")?;
    values(printer, scope, ids)?;
    axis(printer, "axis", it.axis)?;
    printer.sign(b':')?;
    types(printer, &it.operand_types)?;
    to_type(printer, value_type)
}

/// The call of a function.
#[tactic(auto, unfolding(crate::specs::Tokens::call_op_pieces))]
pub(crate) fn call(
    printer: &mut Printer,
    scope: &Scope,
    it: &Call,
    ids: &[u32],
    value_type: &ValueType,
) -> Result<(), Mem>
    ensures { OnOk result (printer.new ≡ written printer.old
        (tokens.call_op_pieces scope.now it.now ids.now value_type.now)) }
{
    printer.word("call")?;
    printer.symbol(it.callee.as_slice())?;
    printer.sign(b'(')?;
    values(printer, scope, ids)?;
    printer.sign(b')')?;
    printer.sign(b':')?;
    in_parentheses(printer, it)?;
    to_type(printer, value_type)
}

/// The types of a call's operands.
#[tactic(auto, unfolding(crate::specs::Tokens::call_types))]
fn in_parentheses(printer: &mut Printer, it: &Call) -> Result<(), Mem>
    ensures { OnOk result (printer.new ≡ written printer.old (tokens.call_types it.now)) }
{
    printer.sign(b'(')?;
    types(printer, &it.operand_types)?;
    printer.sign(b')')
}

/// The return.
#[tactic(auto, unfolding(crate::specs::Tokens::return_pieces))]
pub(crate) fn returned(
    printer: &mut Printer,
    scope: &Scope,
    it: &Return,
    ids: &[u32],
) -> Result<(), Mem>
    ensures { OnOk result (printer.new ≡ written printer.old
        (tokens.return_pieces scope.now it.now ids.now)) }
{
    printer.word("return")?;
    if crate::linalg::are_none(ids, &it.operand_types) {
        return Ok(());
    }
    typed_values(printer, scope, ids, &it.operand_types)
}
