ghost use Rattle.std.specs.Prelude.{◌≡◌, IfOk, map};
ghost use Rattle.sh_ir.specs.Numbers.{are_distinct};

use indexmap::IndexSet;
use sh_base::Mem;
use sh_ir::Arg;
use std::alloc::Global;

/// Whether no name stands in the list twice.
pub(crate) fn are_distinct_names(alloc: Global, names: &[u32]) -> Result<bool, Mem>
    ensures { IfOk result (λ distinct. distinct ≡ are_distinct names.now) }
{
    let mut seen: IndexSet<u32> = IndexSet::new(alloc);
    for name in names {
        if !seen.insert(*name)? {
            return Ok(false);
        }
    }
    Ok(true)
}

/// Whether no two arguments have one name.
pub(crate) fn are_distinct_args(alloc: Global, args: &[Arg]) -> Result<bool, Mem>
    ensures { IfOk result (λ distinct. distinct ≡ are_distinct (map (λ arg. arg.id) args.now)) }
{
    let mut seen: IndexSet<u32> = IndexSet::new(alloc);
    for arg in args {
        if !seen.insert(arg.id)? {
            return Ok(false);
        }
    }
    Ok(true)
}
