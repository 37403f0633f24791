ghost use Rattle.std.specs.Prelude.{◌≡◌, IfOk, not, true};
ghost use Rattle.std.specs.Option.{option_map_or};
ghost use Rattle.sh_ir.specs.Faults.{the_rules};
ghost use Rattle.sh_ir.specs.Maps.{maps_fit as are_maps};
ghost use Rattle.sh_ir.specs.Numbers as numbers;
ghost use Rattle.sh_ir.specs.Loops.{generic_of};
ghost use Rattle.sh_ir.specs.Rules as rules;
ghost use Rattle.sh_ir.specs.Scope.{is_defined};
ghost use Rattle.sh_ir.specs.Written.{written_by};
ghost use Rattle.sh_verify.specs.Least.{by_place, least_of};
ghost use Rattle.sh_verify.specs.OpFaults.{form_rules, name_rules, type_rules};

use crate::argument_names::are_distinct_names;
use crate::attributes::numbers_fit;
use crate::context::Context;
use crate::least::unless_kept;
use crate::maps::maps_fit;
use crate::names::{is_in_form, names_known};
use crate::regions::{check_region, has_region_in_order};
use crate::results::result_fits;
use crate::uses::{is_defined, takes_operands, uses_defined};
use crate::written::{generic, region};
use sh_base::{Mem, Refusal, Rule};
use sh_ir::{Op, OpKind};
use std::alloc::Global;

// ---- names

fn has_distinct_block(alloc: Global, kind: &OpKind) -> Result<bool, Mem>
    ensures { IfOk result (λ distinct. distinct ≡ option_map_or
        (λ body. numbers.are_distinct body.args) (written_by kind.now).body true) }
{
    match region(kind) {
        Some(body) => are_distinct_names(alloc, body.args.as_slice()),
        None => Ok(true),
    }
}

fn has_new_name(context: &Context<'_>, op: &Op) -> bool
    ensures { result ≡ option_map_or (λ name. not (is_defined context.now.values name))
        op.now.defines true }
{
    match op.defines {
        Some(name) => !is_defined(context, name),
        None => true,
    }
}

/// Whether the value's name is new, and those of the block arguments are distinct.
#[tactic(auto, unfolding(sh_ir::specs::Rules::defines_new))]
fn defines_new(alloc: Global, context: &Context<'_>, op: &Op) -> Result<bool, Mem>
    ensures { IfOk result (λ new. new ≡ rules.defines_new context.now op.now) }
{
    let distinct = has_distinct_block(alloc, &op.kind)?;
    Ok(has_new_name(context, op) && distinct)
}

#[tactic(auto, using(crate::proofs::LeastLaws::least_of_both), unfolding(crate::specs::OpFaults::name_rules))]
fn check_names(
    alloc: Global,
    least: Option<Refusal>,
    context: &Context<'_>,
    op: &Op,
) -> Result<Option<Refusal>, Mem>
    ensures { IfOk result (λ found. found
        ≡ least_of by_place least (name_rules context.now op.now)) }
{
    let new = defines_new(alloc, context, op)?;
    let least = unless_kept(least, uses_defined(context, op), op.place, Rule::V1);
    Ok(unless_kept(least, new, op.place, Rule::V2))
}

// ---- types and numbers

#[tactic(auto, using(crate::proofs::LeastLaws::least_of_both), unfolding(crate::specs::OpFaults::type_rules))]
fn check_types(least: Option<Refusal>, context: &Context<'_>, op: &Op) -> Option<Refusal>
    ensures { result ≡ least_of by_place least (type_rules context.now op.now) }
{
    let least = unless_kept(least, takes_operands(context, op), op.place, Rule::V3);
    let results = result_fits(context, &op.kind, &op.result);
    let least = unless_kept(least, results, op.place, Rule::V4);
    let in_order = numbers_fit(context, &op.kind, &op.result);
    let least = unless_kept(least, in_order, op.place, Rule::V5);
    unless_kept(least, names_known(context, &op.kind), op.place, Rule::V6)
}

// ---- maps, regions and forms

fn has_fitting_maps(kind: &OpKind) -> bool
    ensures { result ≡ option_map_or are_maps (generic_of kind.now) true }
{
    match generic(kind) {
        Some(x) => maps_fit(x),
        None => true,
    }
}

#[tactic(auto, using(crate::proofs::LeastLaws::least_of_both), unfolding(crate::specs::OpFaults::form_rules))]
fn check_forms(
    alloc: Global,
    least: Option<Refusal>,
    context: &Context<'_>,
    op: &Op,
) -> Result<Option<Refusal>, Mem>
    ensures { IfOk result (λ found. found
        ≡ least_of by_place least (form_rules context.now op.now)) }
{
    let in_order = has_region_in_order(alloc, context, &op.kind)?;
    let least = unless_kept(least, has_fitting_maps(&op.kind), op.place, Rule::V8);
    let least = unless_kept(least, in_order, op.place, Rule::V9);
    Ok(unless_kept(least, is_in_form(context, op), op.place, Rule::V10))
}

/// The least of the refusals so far and of what breaks a rule in an operation.
pub(crate) fn check_op(
    alloc: Global,
    least: Option<Refusal>,
    context: &Context<'_>,
    op: &Op,
) -> Result<Option<Refusal>, Mem>
    ensures { IfOk result (λ found. found ≡ least_of by_place least
        (rules.op_faults the_rules context.now op.now)) }
{
    let least = check_names(alloc, least, context, op)?;
    let least = check_types(least, context, op);
    let least = check_forms(alloc, least, context, op)?;
    check_region(alloc, least, context, &op.kind)
}
