ghost use Rattle.std.specs.Prelude.{◌≡◌, ◌++◌, [], IfErr, IfOk, List, None};
ghost use Rattle.sh_base.specs.declared.places.Refusal.{Refusal as Fault};
ghost use Rattle.sh_ir.specs.Faults.{limit_faults, rule_faults};
ghost use Rattle.sh_ir.specs.Formed.{IsFormed};
ghost use Rattle.sh_verify.specs.CutFaults.{AreCutFaults};
ghost use Rattle.sh_verify.specs.Least.{by_place, least_of};
ghost use Rattle.sh_verify.specs.VerifyRefusals.{IsRefusal};

use crate::cut_rules::check_cuts;
use crate::least::order_is_total;
use crate::module_rules::check_rules;
use crate::tables::Tables;
use crate::verified::Verified;
use sh_base::{Mem, Refusal};
use sh_ir::Module;
use std::alloc::Global;

/// Why a module isn't verified.
#[derive(Debug, Drop)]
pub enum VerifyRefusal {
    /// The first place at which it breaks a rule, and there the least rule.
    Broken(Refusal),
    /// Memory is wanting.
    Mem,
}

impl From<Mem> for VerifyRefusal {
    ghost use Rattle.sh_verify.specs.declared.verification.VerifyRefusal.TheVariants.{Mem as WantOfMemory};

    ghost from_gives = { λ _ e. e ≡ WantOfMemory };

    fn from(_: Mem) -> VerifyRefusal {
        VerifyRefusal::Mem
    }
}

/// The least of what breaks a rule in a module, that on carried cuts included.
fn check_module(alloc: Global, m: &Module) -> Result<Option<Refusal>, Mem>
    requires formed { IsFormed m.now }
    requires within { limit_faults m.now ≡ [] }
    ensures { IfOk result (λ found. (of_cuts : List Fault)
        × AreCutFaults m.now m.now.funcs of_cuts
        × (found ≡ least_of by_place None (rule_faults m.now ++ of_cuts))) }
{
    let tables = Tables::new(alloc, m)?;
    let least = check_rules(alloc, &tables, m)?;
    check_cuts(alloc, least, &tables, m.funcs.as_slice())
}

/// The module, if it keeps all rules. It is refused at the first place that breaks one, there with
/// the least rule, or for want of memory:
///
/// - V1: a name that is used is defined before.
/// - V2: names of values, of block arguments, of grids and of functions are defined once.
/// - V3: an operation has as many operands as its kind takes, each of the type that is written for
///   it, and those types are ones that the kind takes.
/// - V4: the type of a value follows from its operands.
/// - V5: written numbers are in their ranges, and literals fit their types.
/// - V6: grids and functions that are named are there.
/// - V7: arguments and results are tensors, and what is returned is of the result types.
/// - V8: the maps and iterators of `linalg.generic` fit each other and its operands.
/// - V9: a region follows the types of its operation's operands.
/// - V10: what stands in source form is of source form, and the same of device form: there each
///   argument and each result has a cut, and is of the type that the cut gives its local tensors.
///
/// It takes time linear in the module.
pub fn verify(alloc: Global, m: Module) -> Result<Verified, VerifyRefusal>
    requires formed { IsFormed m }
    requires within { limit_faults m ≡ [] }
    ensures kept { IfOk result (λ verified. verified ≡ m) }
    ensures refused { IfErr result (λ refusal. IsRefusal refusal m) }
{
    order_is_total::<Refusal>();
    match check_module(alloc, &m)? {
        None => Ok(Verified::new(m)),
        Some(refusal) => Err(VerifyRefusal::Broken(refusal)),
    }
}
