ghost use Rattle.std.specs.Prelude.{◌≡◌, [], IfOk, List, OnOk, ℕ};
ghost use Rattle.std.specs.Option.{option_copied};
ghost use Rattle.sh_admission.specs.Notes.{first_grid, is_note, noted_by, sharding_in, shardings_after, shardings_in};
ghost use Rattle.sh_admission.specs.Found.{HasShardings, Named};

use indexmap::IndexMap;
use sh_base::Mem;
use sh_ir::{Op, OpKind, RawSharding};
use std::alloc::Global;
use std::marker::Model;

/// Shardings by the names that they define. Of two of one name the last one counts.
type Shardings<'m> = IndexMap<u32, &'m RawSharding>;

/// The sharding that an operation writes.
#[tactic(auto, unfolding(crate::specs::Notes::sharding_in))]
fn sharding_in(kind: &OpKind) -> Option<&RawSharding>
    ensures { option_copied result ≡ sharding_in kind.now }
{
    match kind {
        OpKind::Sharding(raw) => Some(raw),
        _ => None,
    }
}

/// Whether an operation is a note.
#[tactic(auto, unfolding(crate::specs::Notes::is_note))]
fn is_note(kind: &OpKind) -> bool
    ensures { result ≡ is_note kind.now }
{
    matches!(kind, OpKind::Shard(_))
}

/// Adds the sharding that an operation defines.
fn define<'m>(shardings: &mut Shardings<'m>, op: &'m Op) -> Result<(), Mem>
    ensures { OnOk result ((before : List Named) → HasShardings shardings.old.entries before
        → HasShardings shardings.new.entries (shardings_after before op.now)) }
{
    if let Some(name) = op.defines {
        if let Some(raw) = sharding_in(&op.kind) {
            shardings.insert(name, raw)?;
        }
    }
    Ok(())
}

fn all_shardings<'m>(alloc: Global, ops: &'m [Op]) -> Result<Shardings<'m>, Mem>
    ensures { IfOk result (λ shardings. HasShardings shardings.entries (shardings_in [] ops.now)) }
{
    let mut shardings: Shardings<'m> = IndexMap::new(alloc);
    for op in ops {
        define(&mut shardings, op)?;
    }
    Ok(shardings)
}

/// The operations of a function, with the shardings that they define.
#[derive(Drop)]
pub(crate) struct Notes<'m> {
    ops: &'m [Op],
    shardings: Shardings<'m>,
}

impl<'m> Model for Notes<'m> {
    ghost use Rattle.std.specs.Prelude.{List, []};
    ghost use Rattle.sh_admission.specs.Found.{HasShardings};
    ghost use Rattle.sh_admission.specs.Notes.{shardings_in};
    ghost use Rattle.sh_ir.specs.declared.operations.Op.{Op};

    ghost Value = { List Op };

    ghost view = { λ n. n.ops.now };

    ghost invariant = { λ n. HasShardings n.shardings.entries (shardings_in [] n.ops.now) };
}

impl<'m> Notes<'m> {
    pub(crate) fn new(alloc: Global, ops: &'m [Op]) -> Result<Notes<'m>, Mem>
        ensures { IfOk result (λ notes. notes ≡ ops.now) }
    {
        let shardings = all_shardings(alloc, ops)?;
        Ok(Notes { ops, shardings })
    }

    /// The sharding that an operation notes, if it is a note.
    pub(crate) fn noted(&self, op: &Op) -> Option<&'m RawSharding>
        ensures { option_copied result ≡ noted_by self.now op.now }
    {
        if !is_note(&op.kind) {
            return None;
        }
        match op.operands.as_slice().get(1) {
            Some(name) => self.shardings.get(name).copied(),
            None => None,
        }
    }

    /// The grid that the first note names.
    pub(crate) fn first_grid(&self) -> Option<&'m [u8]>
        ensures { option_copied result ≡ first_grid self.now self.now }
    {
        for op in self.ops {
            if let Some(raw) = self.noted(op) {
                return Some(raw.grid.as_slice());
            }
        }
        None
    }
}
