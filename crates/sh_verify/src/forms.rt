ghost use Rattle.std.specs.Prelude.{◌≡◌, not};
ghost use Rattle.std.specs.List.{list_all, list_any};
ghost use Rattle.std.specs.Option.{option_copied};
ghost use Rattle.sh_ir.specs.Agreement as agreement;
ghost use Rattle.sh_ir.specs.Faults as faults;
ghost use Rattle.sh_ir.specs.Formed.{is_scalar as is_scalar_type};
ghost use Rattle.sh_ir.specs.Literals as literals;
ghost use Rattle.sh_verify.specs.RuleFaults as rule_faults;

use crate::agreement::{is_tensor, same_type};
use crate::region_rules::is_broken;
use crate::sizes::dims;
use crate::typing::is_scalar;
use sh_ir::{Arg, CallItem, Carry, Cut, Dim, Func, Op, OpKind, ValueType};

// ---- types

/// Whether two lists of types are one.
#[tactic(auto, unfolding(sh_ir::specs::Agreement::same_types))]
pub(crate) fn same_types(left: &[ValueType], right: &[ValueType]) -> bool
    ensures { result ≡ agreement.same_types left.now right.now }
{
    if left.len() != right.len() {
        return false;
    }
    for (at, value_type) in left.iter().enumerate() {
        if !same_type(value_type, &right[at]) {
            return false;
        }
    }
    true
}

fn differs(dim: Dim) -> bool
    ensures { result ≡ agreement.differs dim }
{
    match dim {
        Dim::Differs => true,
        Dim::Known(_) => false,
    }
}

/// Whether a type has an extent that is `?`.
pub(crate) fn has_differing(value_type: &ValueType) -> bool
    ensures { result ≡ agreement.has_differing value_type.now }
{
    dims(value_type).iter().any(|dim| differs(*dim))
}

// ---- the head of a function

fn args_are_tensors(args: &[Arg]) -> bool
    ensures { result ≡ list_all (λ arg. agreement.is_tensor arg.value_type) args.now }
{
    args.iter().all(|arg| is_tensor(&arg.value_type))
}

fn types_are_tensors(types: &[ValueType]) -> bool
    ensures { result ≡ list_all agreement.is_tensor types.now }
{
    types.iter().all(|value_type| is_tensor(value_type))
}

/// Whether arguments and results are tensors.
pub(crate) fn has_tensor_signature(f: &Func) -> bool
    ensures { result ≡ rule_faults.all_in_signature agreement.is_tensor f.now }
{
    args_are_tensors(f.args.as_slice()) && types_are_tensors(f.results.as_slice())
}

fn args_differ(args: &[Arg]) -> bool
    ensures { result ≡ list_any (λ arg. agreement.has_differing arg.value_type) args.now }
{
    args.iter().any(|arg| has_differing(&arg.value_type))
}

pub(crate) fn any_differing(types: &[ValueType]) -> bool
    ensures { result ≡ list_any agreement.has_differing types.now }
{
    types.iter().any(|value_type| has_differing(value_type))
}

fn cuts_differ(cuts: &[Cut]) -> bool
    ensures { result ≡ rule_faults.any_cut agreement.has_differing cuts.now }
{
    cuts.iter().any(|cut| has_differing(&cut.whole))
}

fn has_all_cuts(f: &Func, carry: &Carry) -> bool
    ensures { result ≡ faults.has_all_cuts f.now carry.now }
{
    carry.args.len() == f.args.len() && carry.results.len() == f.results.len()
}

/// Whether a cut is of a tensor with an extent that is `?`.
fn has_differing_cut(carry: &Carry) -> bool
    ensures { result ≡ rule_faults.any_in_carry agreement.has_differing carry.now }
{
    cuts_differ(carry.args.as_slice()) || cuts_differ(carry.results.as_slice())
}

/// Whether the types are those of the function's form, and in device form there are all cuts, of
/// whole tensors.
pub(crate) fn has_types_of_form(f: &Func) -> bool
    ensures { result ≡ rule_faults.has_types_of_form f.now }
{
    match &f.carry {
        Some(carry) => has_all_cuts(f, carry) && !has_differing_cut(carry),
        None => !args_differ(f.args.as_slice()) && !any_differing(f.results.as_slice()),
    }
}

fn any_scalar(cuts: &[Cut]) -> bool
    ensures { result ≡ rule_faults.any_cut is_scalar_type cuts.now }
{
    cuts.iter().any(|cut| is_scalar(&cut.whole))
}

/// Whether the cuts are of tensors.
pub(crate) fn cuts_tensors(f: &Func) -> bool
    ensures { result ≡ rule_faults.cuts_tensors f.now }
{
    match &f.carry {
        Some(carry) => !any_scalar(carry.args.as_slice()) && !any_scalar(carry.results.as_slice()),
        None => true,
    }
}

// ---- returns and call items

#[tactic(auto, unfolding(sh_ir::specs::Faults::returned_types))]
fn returned_types(kind: &OpKind) -> Option<&[ValueType]>
    ensures { option_copied result ≡ faults.returned_types kind.now }
{
    match kind {
        OpKind::Return(x) => Some(x.operand_types.as_slice()),
        _ => None,
    }
}

/// Whether what is returned is of the result types.
pub(crate) fn returns_types(results: &[ValueType], op: &Op) -> bool
    ensures { result ≡ rule_faults.returns_types results.now op.now }
{
    match returned_types(&op.kind) {
        Some(types) => same_types(results, types),
        None => true,
    }
}

/// Whether the literals of a call item fit their types.
pub(crate) fn has_right_literals(item: &CallItem) -> bool
    ensures { result ≡ list_all (λ c. not (literals.is_broken c.contents)) item.now.args }
{
    item.args
        .as_slice()
        .iter()
        .all(|constant| !is_broken(&constant.contents))
}
