ghost use Rattle.std.specs.Prelude.{◌≡◌, [], ◌∷◌};
ghost use Rattle.std.specs.List.{list_all};
ghost use Rattle.sh_ir.specs.declared.types.ValueType.TheVariants as value_types;
ghost use Rattle.sh_ir.specs.Agreement as agreement;
ghost use Rattle.sh_ir.specs.RegionRules as region_rules;
ghost use Rattle.sh_ir.specs.Scope.{is_defined};
ghost use Rattle.sh_verify.specs.Least.{by_place, least_of};
ghost use Rattle.sh_verify.specs.OwnValues.{own_type};
ghost use Rattle.sh_verify.specs.RegionFaults.{body_op_rules};

use crate::agreement::{bits, same_type};
use crate::least::unless_kept;
use crate::own_values::{OwnType, Region};
use crate::region_rules::{body_number_fits, is_scalar_op};
use crate::uses::other_names;
use sh_base::{Refusal, Rule, Width};
use sh_ir::{BodyKind, BodyOp, ValueType};

// ---- one value

fn is_scalar_of(width: Width, value_type: &ValueType) -> bool
    ensures { result ≡ agreement.same_type (value_types.Scalar width) value_type.now }
{
    match value_type {
        ValueType::Scalar(own) => bits(width) == bits(*own),
        ValueType::Nothing | ValueType::Tensor(_) | ValueType::Sharding | ValueType::Index => false,
    }
}

fn is_type(of: OwnType<'_>, value_type: &ValueType) -> bool
    ensures { result ≡ agreement.same_type (own_type of.entry) value_type.now }
{
    match of {
        OwnType::Argument(width) => is_scalar_of(width, value_type),
        OwnType::Written(own) => same_type(own, value_type),
    }
}

fn is_outer_of(region: &Region<'_>, value_type: &ValueType, name: u32) -> bool
    ensures { result ≡ region_rules.is_outer_of region.now.outer value_type.now name }
{
    match region.outer_type(name) {
        Some(own) => region.is_constant(name) && same_type(own, value_type),
        None => true,
    }
}

/// Whether the value that a name stands for is of a type; of a name that stands for none nothing is
/// asked.
fn stands_for(region: &Region<'_>, value_type: &ValueType, name: u32) -> bool
    ensures { result ≡ region_rules.stands_for region.now.outer region.now.own value_type.now name }
{
    match region.own_type(name) {
        Some(of) => is_type(of, value_type),
        None => is_outer_of(region, value_type, name),
    }
}

fn is_index(value_type: &ValueType) -> bool
    ensures { result ≡ agreement.same_type value_type.now value_types.Index }
{
    matches!(value_type, ValueType::Index)
}

fn is_own_index(of: OwnType<'_>) -> bool
    ensures { result ≡ agreement.same_type (own_type of.entry) value_types.Index }
{
    match of {
        OwnType::Argument(_) => false,
        OwnType::Written(own) => is_index(own),
    }
}

fn is_outer_index(region: &Region<'_>, name: u32) -> bool
    ensures { result ≡ region_rules.is_outer_of region.now.outer value_types.Index name }
{
    match region.outer_type(name) {
        Some(own) => region.is_constant(name) && is_index(own),
        None => true,
    }
}

fn stands_for_index(region: &Region<'_>, name: u32) -> bool
    ensures { result ≡ region_rules.stands_for region.now.outer region.now.own
        value_types.Index name }
{
    match region.own_type(name) {
        Some(of) => is_own_index(of),
        None => is_outer_index(region, name),
    }
}

// ---- operands

fn first_stands(region: &Region<'_>, value_type: &ValueType, names: &[u32]) -> bool
    ensures { result ≡ region_rules.stand_for region.now.outer region.now.own
        (value_type.now ∷ []) names.now }
{
    match names.first() {
        Some(name) => stands_for(region, value_type, *name),
        None => true,
    }
}

fn first_stands_for_index(region: &Region<'_>, names: &[u32]) -> bool
    ensures { result ≡ region_rules.stand_for region.now.outer region.now.own
        (value_types.Index ∷ []) names.now }
{
    match names.first() {
        Some(name) => stands_for_index(region, *name),
        None => true,
    }
}

/// Whether two operands are of a type.
fn both_stand(region: &Region<'_>, value_type: &ValueType, names: &[u32]) -> bool
    ensures { result ≡ region_rules.stand_for region.now.outer region.now.own
        (value_type.now ∷ value_type.now ∷ []) names.now }
{
    first_stands(region, value_type, names)
        && first_stands(region, value_type, other_names(names, 1))
}

fn all_stand(
    region: &Region<'_>,
    condition: &ValueType,
    value_type: &ValueType,
    names: &[u32],
) -> bool
    ensures { result ≡ region_rules.stand_for region.now.outer region.now.own
        (condition.now ∷ value_type.now ∷ value_type.now ∷ []) names.now }
{
    first_stands(region, condition, names) && both_stand(region, value_type, other_names(names, 1))
}

#[tactic(auto, unfolding(sh_ir::specs::RegionRules::body_typing))]
fn operands_stand(region: &Region<'_>, op: &BodyOp) -> bool
    ensures { result ≡ region_rules.stand_for region.now.outer region.now.own
        (region_rules.body_typing op.now.kind op.now.result) op.now.operands }
{
    let names = op.operands.as_slice();
    match &op.kind {
        BodyKind::Constant(_) | BodyKind::Index(_) => true,
        BodyKind::Binary(_) => both_stand(region, &op.result, names),
        BodyKind::Compare(x) => both_stand(region, &x.operand_type, names),
        BodyKind::Select(x) => all_stand(region, &x.condition_type, &op.result, names),
        BodyKind::Cast(x) => first_stands(region, &x.operand_type, names),
        BodyKind::IndexCast => first_stands_for_index(region, names),
    }
}

/// Whether an operation of a region is on scalars, and its operands are of its types.
pub(crate) fn is_typed(region: &Region<'_>, op: &BodyOp) -> bool
    ensures { result ≡ region_rules.is_typed region.now.outer region.now.own op.now }
{
    is_scalar_op(&op.kind, &op.result) && operands_stand(region, op)
}

/// Whether the value that a name stands for is a scalar of a width.
pub(crate) fn stands_for_scalar(region: &Region<'_>, width: Width, name: u32) -> bool
    ensures { result ≡ region_rules.stands_for region.now.outer region.now.own
        (value_types.Scalar width) name }
{
    stands_for(region, &ValueType::Scalar(width), name)
}

// ---- names

/// Whether a name is the region's own by then.
pub(crate) fn is_own(region: &Region<'_>, name: u32) -> bool
    ensures { result ≡ is_defined region.now.own name }
{
    match region.own_type(name) {
        Some(_) => true,
        None => false,
    }
}

fn is_outer(region: &Region<'_>, name: u32) -> bool
    ensures { result ≡ is_defined region.now.outer name }
{
    match region.outer_type(name) {
        Some(_) => true,
        None => false,
    }
}

/// Whether a name stands for a value.
pub(crate) fn is_there(region: &Region<'_>, name: u32) -> bool
    ensures { result ≡ region_rules.is_there region.now.outer region.now.own name }
{
    is_own(region, name) || is_outer(region, name)
}

fn are_there(region: &Region<'_>, names: &[u32]) -> bool
    ensures { result ≡ list_all (region_rules.is_there region.now.outer region.now.own) names.now }
{
    for name in names {
        if !is_there(region, *name) {
            return false;
        }
    }
    true
}

/// The least of the refusals so far and of what breaks a rule in an operation of a region.
#[tactic(auto, using(crate::proofs::LeastLaws::least_of_both), unfolding(crate::specs::RegionFaults::body_op_rules))]
pub(crate) fn check_body_op(
    least: Option<Refusal>,
    region: &Region<'_>,
    loops: u64,
    op: &BodyOp,
) -> Option<Refusal>
    ensures { result ≡ least_of by_place least
        (body_op_rules loops region.now.outer region.now.own op.now) }
{
    let least = unless_kept(
        least,
        are_there(region, op.operands.as_slice()),
        op.place,
        Rule::V1,
    );
    let least = unless_kept(least, !is_own(region, op.defines), op.place, Rule::V2);
    unless_kept(least, body_number_fits(loops, &op.kind), op.place, Rule::V5)
}
