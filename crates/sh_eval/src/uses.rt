ghost use Rattle.std.specs.Prelude.{◌≡◌, ◌==◌, ◌&&◌, IfOk, None, OnOk, Some};
ghost use Rattle.sh_eval.specs.Stores.{values_in};
ghost use Rattle.sh_eval.specs.Uses.{changed_at, ends_at, ends_with, is_among, is_at, is_named_by};
ghost use Rattle.sh_eval.specs.Uses.{last_naming, last_use, uses_in};

use crate::store::Store;
use indexmap::IndexMap;
use sh_base::Mem;
use sh_ir::Op;
use std::alloc::Global;

/// For each value, the number of the last operation that names it. Values that are returned have
/// none.
#[derive(Drop)]
pub(crate) struct Uses {
    last: IndexMap<u32, u64>,
}

impl Uses {
    /// No uses.
    #[tactic(auto, unfolding(crate::specs::Uses::uses_in))]
    fn new(alloc: Global) -> Uses
        ensures { uses_in result ≡ (λ name. None) }
    {
        Uses {
            last: IndexMap::new(alloc),
        }
    }

    /// One use more, behind those before.
    #[tactic(auto, unfolding(crate::specs::Uses::uses_in))]
    fn note(&mut self, name: u32, at: u64) -> Result<(), Mem>
        ensures { OnOk result (uses_in self.new
            ≡ changed_at (λ other. name == other) (Some at) (uses_in self.old)) }
    {
        self.last.insert(name, at)?;
        Ok(())
    }

    /// No use of a name.
    #[tactic(auto, unfolding(crate::specs::Uses::uses_in))]
    fn remove(&mut self, name: u32)
        ensures { uses_in self.new ≡ changed_at (λ other. name == other) None (uses_in self.old) }
    {
        self.last.swap_remove(&name);
    }

    /// Whether an operation is the last that names a value.
    #[tactic(auto, unfolding(crate::specs::Uses::uses_in))]
    pub(crate) fn is_last(&self, name: u32, at: u64) -> bool
        ensures { result ≡ is_at (uses_in self.now name) at }
    {
        match self.last.get(&name) {
            Some(last) => *last == at,
            None => false,
        }
    }
}

/// The uses of names by one operation.
fn note_names(uses: &mut Uses, names: &[u32], at: u64) -> Result<(), Mem>
    ensures { OnOk result (uses_in uses.new
        ≡ changed_at (is_among names.now) (Some at) (uses_in uses.old)) }
{
    for name in names {
        uses.note(*name, at)?;
    }
    Ok(())
}

/// The names of one operation: of its operands, and its own.
fn note_op(uses: &mut Uses, op: &Op, at: u64) -> Result<(), Mem>
    ensures { OnOk result (uses_in uses.new
        ≡ changed_at (is_named_by op.now) (Some at) (uses_in uses.old)) }
{
    note_names(uses, op.operands.as_slice(), at)?;
    if let Some(name) = op.defines {
        uses.note(name, at)?;
    }
    Ok(())
}

/// For each name, the number of the last operation with it.
fn namings(alloc: Global, ops: &[Op]) -> Result<Uses, Mem>
    ensures { IfOk result (λ uses. uses_in uses ≡ last_naming ops.now) }
{
    let mut uses = Uses::new(alloc);
    for (at, op) in ops.iter().enumerate() {
        note_op(&mut uses, op, at as u64)?;
    }
    Ok(uses)
}

/// For each value that isn't returned, the number of the last operation that names it.
pub(crate) fn uses_of(alloc: Global, ops: &[Op], returned: &[u32]) -> Result<Uses, Mem>
    ensures { IfOk result (λ uses. uses_in uses ≡ last_use ops.now returned.now) }
{
    let mut uses = namings(alloc, ops)?;
    for name in returned {
        uses.remove(*name);
    }
    Ok(uses)
}

/// Lets go of a value if this is its last use.
fn forget_last(store: &mut Store, name: u32, uses: &Uses, at: u64)
    ensures { values_in store.new ≡ changed_at
        (λ other. name == other && is_at (uses_in uses.now other) at) None (values_in store.old) }
{
    if uses.is_last(name, at) {
        store.forget(name);
    }
}

/// Lets go of the values of names whose last use this is.
fn forget_names(store: &mut Store, names: &[u32], uses: &Uses, at: u64)
    ensures { values_in store.new ≡ changed_at
        (ends_at names.now (uses_in uses.now) at) None (values_in store.old) }
{
    for name in names {
        forget_last(store, *name, uses, at);
    }
}

/// Lets go of the values that an operation is the last to name.
pub(crate) fn forget_ended(store: &mut Store, op: &Op, uses: &Uses, at: u64)
    ensures { values_in store.new ≡ changed_at
        (ends_with op.now (uses_in uses.now) at) None (values_in store.old) }
{
    forget_names(store, op.operands.as_slice(), uses, at);
    if let Some(name) = op.defines {
        forget_last(store, name, uses, at);
    }
}
