ghost use Rattle.std.specs.Prelude.{◌≡◌, ◌++◌, IfOk, OnOk};
ghost use Rattle.sh_ir.specs.Regions.{
  captured_by as names_captured,
  first_occurrences as each_once,
  outer_uses as uses_outside,
  outside,
};
ghost use Rattle.sh_regions.specs.Members.{AreAgreed};

use indexmap::IndexSet;
use sh_base::{Ids, Items, Mem};
use sh_ir::{Body, BodyOp};
use std::alloc::Global;

/// The names of the function that a region uses, each once, by first use.
pub fn captured_by(alloc: Global, body: &Body) -> Result<Ids, Mem>
    ensures { IfOk result (λ ids. ids ≡ names_captured body.now) }
{
    let args = body.args.as_slice();
    let uses = outer_uses(alloc, args, body.ops.as_slice(), body.yields)?;
    first_occurrences(alloc, uses.as_slice())
}

/// What the operations and the yield use that isn't the region's own by then.
fn outer_uses(alloc: Global, args: &[u32], ops: &[BodyOp], yields: u32) -> Result<Ids, Mem>
    ensures { IfOk result (λ ids. ids ≡ uses_outside args.now ops.now yields) }
{
    let mut own = set_of(alloc, args)?;
    let mut uses: Vec<u32> = Vec::new(alloc);
    for op in ops {
        push_outside(&own, op.operands.as_slice(), &mut uses)?;
        own.insert(op.defines)?;
    }
    push_outside(&own, &[yields], &mut uses)?;
    Ok(Items::from_vec(uses))
}

/// The names as a set.
fn set_of(alloc: Global, names: &[u32]) -> Result<IndexSet<u32>, Mem>
    ensures { IfOk result (λ set. AreAgreed set.keys names.now) }
{
    let mut set: IndexSet<u32> = IndexSet::new(alloc);
    for name in names {
        set.insert(*name)?;
    }
    Ok(set)
}

/// Pushes the names that aren't in the set.
fn push_outside(own: &IndexSet<u32>, names: &[u32], uses: &mut Vec<u32>) -> Result<(), Mem>
    ensures { OnOk result (uses.new.items ≡ uses.old.items ++ outside own.now.keys names.now) }
{
    for name in names {
        if !own.contains(name) {
            uses.push(*name)?;
        }
    }
    Ok(())
}

/// Each name once, by first occurrence.
fn first_occurrences(alloc: Global, names: &[u32]) -> Result<Ids, Mem>
    ensures { IfOk result (λ ids. ids ≡ each_once names.now) }
{
    let mut seen: IndexSet<u32> = IndexSet::new(alloc);
    let mut once: Vec<u32> = Vec::new(alloc);
    for name in names {
        if seen.insert(*name)? {
            once.push(*name)?;
        }
    }
    Ok(Items::from_vec(once))
}
