ghost use Rattle.std.specs.Prelude.{◌≡◌, [], IfOk, None, Some, flat_map, slice_get, take};
ghost use Rattle.sh_ir.specs.Faults as faults;
ghost use Rattle.sh_ir.specs.Faults.{the_rules};
ghost use Rattle.sh_ir.specs.Rules.{op_faults, ops_faults};
ghost use Rattle.sh_ir.specs.Scope.{scope_of, with_args};
ghost use Rattle.sh_verify.specs.Least.{by_place, least_of};
ghost use Rattle.sh_verify.specs.RuleFaults.{call_rules, func_rules, funcs_rules, grid_rules, grids_rules, head_rules, module_rules, return_rules};
ghost use Rattle.sh_verify.specs.Tables.{HasValues, scope_at, values_behind};

use crate::argument_names::are_distinct_args;
use crate::context::Context;
use crate::forms::{
    cuts_tensors, has_right_literals, has_tensor_signature, has_types_of_form, returns_types,
};
use crate::least::unless_kept;
use crate::numbers::all_positive;
use crate::op_rules::check_op;
use crate::tables::Tables;
use crate::values::{KnownValues, argument_values, define};
use sh_base::{Mem, Refusal, Rule};
use sh_ir::{CallItem, Func, GridItem, Module, Op, ValueType};
use std::alloc::Global;

// ---- grids

#[tactic(auto, using(crate::proofs::LeastLaws::least_of_both), unfolding(crate::specs::RuleFaults::grid_rules))]
fn check_grid(
    least: Option<Refusal>,
    tables: &Tables<'_>,
    at: usize,
    g: &GridItem,
) -> Option<Refusal>
    requires { slice_get tables.now.grids at ≡ Some g.now }
    ensures { result ≡ least_of by_place least (grid_rules (take at tables.now.grids) g.now) }
{
    let least = unless_kept(least, tables.is_new_grid(at, g), g.place, Rule::V2);
    unless_kept(least, all_positive(g.extents.as_slice()), g.place, Rule::V5)
}

fn check_grids(least: Option<Refusal>, tables: &Tables<'_>, grids: &[GridItem]) -> Option<Refusal>
    requires { grids.now ≡ tables.now.grids }
    ensures { result ≡ least_of by_place least (grids_rules [] grids.now) }
{
    let mut found = least;
    for (at, g) in grids.iter().enumerate() {
        found = check_grid(found, tables, at, g);
    }
    found
}

// ---- functions

fn has_grid(tables: &Tables<'_>, f: &Func) -> bool
    ensures { result ≡ faults.has_grid tables.now f.now }
{
    match &f.carry {
        Some(carry) => tables.grid(carry.grid.as_slice()).is_some(),
        None => true,
    }
}

#[tactic(auto, using(crate::proofs::LeastLaws::least_of_both), unfolding(crate::specs::RuleFaults::head_rules))]
fn check_head(
    alloc: Global,
    least: Option<Refusal>,
    tables: &Tables<'_>,
    at: usize,
    f: &Func,
) -> Result<Option<Refusal>, Mem>
    requires { slice_get tables.now.funcs at ≡ Some f.now }
    ensures { IfOk result (λ found. found ≡
        least_of by_place least (head_rules tables.now (take at tables.now.funcs) f.now)) }
{
    let distinct = are_distinct_args(alloc, f.args.as_slice())?;
    let new_names = tables.is_new_func(at, f) && distinct;
    let least = unless_kept(least, new_names, f.place, Rule::V2);
    let least = unless_kept(least, cuts_tensors(f), f.place, Rule::V3);
    let least = unless_kept(least, has_grid(tables, f), f.place, Rule::V6);
    let least = unless_kept(least, has_tensor_signature(f), f.place, Rule::V7);
    Ok(unless_kept(least, has_types_of_form(f), f.place, Rule::V10))
}

/// The operation behind some others, of which these are the values.
fn check_op_behind(
    alloc: Global,
    least: Option<Refusal>,
    tables: &Tables<'_>,
    f: &Func,
    before: &[Op],
    values: &KnownValues<'_>,
    op: &Op,
) -> Result<Option<Refusal>, Mem>
    requires { HasValues values.now.entries
        (values_behind (with_args [] f.now.args) before.now) }
    ensures { IfOk result (λ found. found ≡ least_of by_place least
        (op_faults the_rules (scope_at tables.now f.now before.now) op.now)) }
{
    let context = Context::new(tables, f, before, values);
    check_op(alloc, least, &context, op)
}

fn check_ops(
    alloc: Global,
    least: Option<Refusal>,
    tables: &Tables<'_>,
    f: &Func,
) -> Result<Option<Refusal>, Mem>
    ensures { IfOk result (λ found. found ≡
        least_of by_place least (ops_faults the_rules (scope_of tables.now f.now) f.now.ops)) }
{
    let ops = f.ops.as_slice();
    let mut values = argument_values(alloc, f.args.as_slice())?;
    let mut found = least;
    for (at, op) in ops.iter().enumerate() {
        found = check_op_behind(alloc, found, tables, f, &ops[..at], &values, op)?;
        define(&mut values, op)?;
    }
    Ok(found)
}

#[tactic(auto, unfolding(crate::specs::RuleFaults::return_rules))]
fn check_return(least: Option<Refusal>, results: &[ValueType], op: &Op) -> Option<Refusal>
    ensures { result ≡ least_of by_place least (return_rules results.now op.now) }
{
    unless_kept(least, returns_types(results, op), op.place, Rule::V7)
}

fn check_returns(least: Option<Refusal>, results: &[ValueType], ops: &[Op]) -> Option<Refusal>
    ensures { result ≡ least_of by_place least (flat_map (return_rules results.now) ops.now) }
{
    let mut found = least;
    for op in ops {
        found = check_return(found, results, op);
    }
    found
}

#[tactic(auto, using(crate::proofs::LeastLaws::least_of_both), unfolding(crate::specs::RuleFaults::func_rules))]
fn check_func(
    alloc: Global,
    least: Option<Refusal>,
    tables: &Tables<'_>,
    at: usize,
    f: &Func,
) -> Result<Option<Refusal>, Mem>
    requires { slice_get tables.now.funcs at ≡ Some f.now }
    ensures { IfOk result (λ found. found ≡
        least_of by_place least (func_rules tables.now (take at tables.now.funcs) f.now)) }
{
    let least = check_head(alloc, least, tables, at, f)?;
    let least = check_ops(alloc, least, tables, f)?;
    Ok(check_returns(least, f.results.as_slice(), f.ops.as_slice()))
}

fn check_funcs(
    alloc: Global,
    least: Option<Refusal>,
    tables: &Tables<'_>,
    funcs: &[Func],
) -> Result<Option<Refusal>, Mem>
    requires { funcs.now ≡ tables.now.funcs }
    ensures { IfOk result (λ found. found ≡
        least_of by_place least (funcs_rules tables.now [] funcs.now)) }
{
    let mut found = least;
    for (at, f) in funcs.iter().enumerate() {
        found = check_func(alloc, found, tables, at, f)?;
    }
    Ok(found)
}

// ---- call items

#[tactic(auto, unfolding(crate::specs::RuleFaults::call_rules))]
fn check_call(least: Option<Refusal>, item: &CallItem) -> Option<Refusal>
    ensures { result ≡ least_of by_place least (call_rules item.now) }
{
    unless_kept(least, has_right_literals(item), item.place, Rule::V5)
}

fn check_calls(least: Option<Refusal>, items: &[CallItem]) -> Option<Refusal>
    ensures { result ≡ least_of by_place least (flat_map call_rules items.now) }
{
    let mut found = least;
    for item in items {
        found = check_call(found, item);
    }
    found
}

// ---- modules

/// The least of what breaks a rule in a module, its carried cuts aside.
#[tactic(auto, using(crate::proofs::LeastLaws::least_of_both), unfolding(crate::specs::RuleFaults::module_rules))]
pub(crate) fn check_rules(
    alloc: Global,
    tables: &Tables<'_>,
    m: &Module,
) -> Result<Option<Refusal>, Mem>
    requires { m.now ≡ tables.now }
    ensures { IfOk result (λ found. found ≡ least_of by_place None (module_rules m.now)) }
{
    let least = check_grids(None, tables, m.grids.as_slice());
    let least = check_funcs(alloc, least, tables, m.funcs.as_slice())?;
    Ok(check_calls(least, m.calls.as_slice()))
}
