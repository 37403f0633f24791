ghost use Rattle.std.specs.Prelude.{◌≡◌, [], IfOk, length, nat_eq};
ghost use Rattle.std.specs.Cmp.Lexicographic.{pointwise};
ghost use Rattle.sh_base.specs.Cells.{bits_of};
ghost use Rattle.sh_base.specs.declared.rules.Rule.TheVariants.{V1};
ghost use Rattle.sh_ir.specs.Agreement as agreement;
ghost use Rattle.sh_ir.specs.Faults.{the_rules};
ghost use Rattle.sh_ir.specs.RegionRules as region_rules;
ghost use Rattle.sh_ir.specs.Rules as rules;
ghost use Rattle.sh_ir.specs.Typing.{operand_types};
ghost use Rattle.sh_verify.specs.Least.{by_place, fault_unless, least_of};
ghost use Rattle.sh_verify.specs.OwnValues.{HasOwn, own_behind};
ghost use Rattle.sh_verify.specs.RegionFaults.{body_op_rules};

use crate::agreement::{bits, cell_bits};
use crate::attributes::input_rank;
use crate::context::Context;
use crate::least::unless_kept;
use crate::loop_maps::{count_operands, operand_type};
use crate::own_values::{OwnType, OwnValues, Region, block, define_own};
use crate::region_types::{check_body_op, is_there, is_typed, stands_for_scalar};
use sh_base::{Mem, Refusal, Rule, Width};
use sh_ir::{Body, BodyOp, InsOuts, OpKind};
use std::alloc::Global;

// ---- types

/// An operation behind some others, of which these are the values.
fn is_typed_behind(
    context: &Context<'_>,
    body: &Body,
    before: &[BodyOp],
    own: &OwnValues<'_>,
    op: &BodyOp,
) -> bool
    requires { HasOwn own.now.entries (own_behind (region_rules.block_of body.now) before.now) }
    ensures { result ≡ region_rules.is_typed context.now.values
        (own_behind (region_rules.block_of body.now) before.now) op.now }
{
    let region = Region::new(context, body, before, own);
    is_typed(&region, op)
}

/// Whether what is yielded has its width.
fn yields_typed(context: &Context<'_>, body: &Body, before: &[BodyOp], own: &OwnValues<'_>) -> bool
    requires { HasOwn own.now.entries (own_behind (region_rules.block_of body.now) before.now) }
    ensures { result ≡ region_rules.are_typed context.now.values
        (own_behind (region_rules.block_of body.now) before.now) [] body.now.yields body.now.width }
{
    let region = Region::new(context, body, before, own);
    stands_for_scalar(&region, body.width, body.yields)
}

/// Whether the operations follow their types, and the yield its width.
fn are_typed(alloc: Global, context: &Context<'_>, body: &Body) -> Result<bool, Mem>
    ensures { IfOk result (λ typed. typed ≡ region_rules.are_typed context.now.values
        (region_rules.block_of body.now) body.now.ops body.now.yields body.now.width) }
{
    let ops = body.ops.as_slice();
    let mut own = block(alloc, body)?;
    for (at, op) in ops.iter().enumerate() {
        if !is_typed_behind(context, body, &ops[..at], &own, op) {
            return Ok(false);
        }
        define_own(&mut own, op.defines, OwnType::Written(&op.result))?;
    }
    Ok(yields_typed(context, body, ops, &own))
}

// ---- widths

/// Whether the block arguments are one for each operand, of its width.
fn has_widths(widths: &[Width], x: &InsOuts) -> bool
    ensures { result ≡ pointwise (λ w t. nat_eq (bits_of w) (agreement.cell_bits t))
        widths.now (operand_types x.now) }
{
    if widths.len() as u128 != count_operands(x) {
        return false;
    }
    for (at, width) in widths.iter().enumerate() {
        match operand_type(x, at) {
            Some(value_type) => {
                if bits(*width) != cell_bits(value_type) {
                    return false;
                }
            }
            None => return false,
        }
    }
    true
}

/// The bits of the last operand, which is the output; there are so many.
fn last_bits(x: &InsOuts, count: usize) -> u64
    requires { count ≡ length (operand_types x.now) }
    ensures { result ≡ region_rules.last_bits (operand_types x.now) }
{
    if count == 0 {
        return 0;
    }
    match operand_type(x, count - 1) {
        Some(value_type) => cell_bits(value_type),
        None => 0,
    }
}

/// Whether a region follows the types of the operands.
#[tactic(auto, unfolding(sh_ir::specs::RegionRules::region_fits))]
fn region_fits(alloc: Global, context: &Context<'_>, x: &InsOuts, body: &Body) -> Result<bool, Mem>
    ensures { IfOk result (λ fits. fits ≡ region_rules.region_fits context.now.values
        (operand_types x.now) body.now) }
{
    let widths = body.widths.as_slice();
    if !has_widths(widths, x) {
        return Ok(false);
    }
    if bits(body.width) != last_bits(x, widths.len()) {
        return Ok(false);
    }
    are_typed(alloc, context, body)
}

/// Whether the region of an operation, if it has one, is in order.
#[tactic(auto, unfolding(sh_ir::specs::Rules::has_region_in_order, sh_ir::specs::Loops::structure_of))]
pub(crate) fn has_region_in_order(
    alloc: Global,
    context: &Context<'_>,
    kind: &OpKind,
) -> Result<bool, Mem>
    ensures { IfOk result (λ fits. fits ≡ rules.has_region_in_order context.now kind.now) }
{
    match kind {
        OpKind::Reduce(x) => region_fits(alloc, context, &x.ins_outs, &x.body),
        OpKind::Generic(x) => region_fits(alloc, context, &x.ins_outs, &x.body),
        _ => Ok(true),
    }
}

// ---- faults

/// An operation behind some others, of which these are the values.
fn check_op_behind(
    least: Option<Refusal>,
    context: &Context<'_>,
    loops: u64,
    body: &Body,
    before: &[BodyOp],
    own: &OwnValues<'_>,
    op: &BodyOp,
) -> Option<Refusal>
    requires { HasOwn own.now.entries (own_behind (region_rules.block_of body.now) before.now) }
    ensures { result ≡ least_of by_place least (body_op_rules loops context.now.values
        (own_behind (region_rules.block_of body.now) before.now) op.now) }
{
    let region = Region::new(context, body, before, own);
    check_body_op(least, &region, loops, op)
}

/// The yield, behind all operations.
fn check_yield(
    least: Option<Refusal>,
    context: &Context<'_>,
    body: &Body,
    before: &[BodyOp],
    own: &OwnValues<'_>,
) -> Option<Refusal>
    requires { HasOwn own.now.entries (own_behind (region_rules.block_of body.now) before.now) }
    ensures { result ≡ least_of by_place least (fault_unless
        (region_rules.is_there context.now.values
        (own_behind (region_rules.block_of body.now) before.now) body.now.yields)
        body.now.place V1) }
{
    let region = Region::new(context, body, before, own);
    unless_kept(least, is_there(&region, body.yields), body.place, Rule::V1)
}

/// The least of the refusals so far and of what breaks a rule within a region.
fn check_body(
    alloc: Global,
    least: Option<Refusal>,
    context: &Context<'_>,
    loops: u64,
    body: &Body,
) -> Result<Option<Refusal>, Mem>
    ensures { IfOk result (λ found. found ≡ least_of by_place least
        (rules.body_faults the_rules loops context.now.values (region_rules.block_of body.now)
        body.now.ops body.now)) }
{
    let ops = body.ops.as_slice();
    let mut own = block(alloc, body)?;
    let mut found = least;
    for (at, op) in ops.iter().enumerate() {
        found = check_op_behind(found, context, loops, body, &ops[..at], &own, op);
        define_own(&mut own, op.defines, OwnType::Written(&op.result))?;
    }
    Ok(check_yield(found, context, body, ops, &own))
}

/// The same of the region of an operation, if it has one.
#[tactic(auto, unfolding(sh_ir::specs::Rules::region_faults, sh_ir::specs::Loops::structure_of))]
pub(crate) fn check_region(
    alloc: Global,
    least: Option<Refusal>,
    context: &Context<'_>,
    kind: &OpKind,
) -> Result<Option<Refusal>, Mem>
    ensures { IfOk result (λ found. found ≡ least_of by_place least
        (rules.region_faults the_rules context.now kind.now)) }
{
    match kind {
        OpKind::Reduce(x) => {
            let loops = input_rank(&x.ins_outs) as u64;
            check_body(alloc, least, context, loops, &x.body)
        }
        OpKind::Generic(x) => {
            let loops = x.iterator_types.len() as u64;
            check_body(alloc, least, context, loops, &x.body)
        }
        _ => Ok(least),
    }
}
