//! A region under other names.
ghost use Rattle.std.specs.Prelude.{◌≡◌, ◌≤◌, ◌+◌, ◌-◌, ◌++◌, IfOk, OnOk, length, map};
ghost use Rattle.std.specs.List.{range_with_len};
ghost use Rattle.sh_iface_linalg.specs.Bodies.{renumbered_body, renumbered_ops, with_name, with_names};
ghost use Rattle.sh_iface_linalg.specs.NewNames.{as_region, names_in, renamed_op_by};

use indexmap::IndexMap;
use sh_base::{Duplicate, Ids, Items, Mem};
use sh_ir::{Body, BodyOp, BodyOps};
use std::alloc::Global;

/// The new names of a region's names.
#[derive(Drop)]
pub(crate) struct NewNames {
    pub(crate) renamed: IndexMap<u32, u32>,
}

impl NewNames {
    /// No name has a new one.
    #[tactic(auto, unfolding(crate::specs::NewNames::names_in))]
    fn new(alloc: Global) -> NewNames
        ensures { names_in result ≡ (λ name. 0) }
    {
        NewNames {
            renamed: IndexMap::new(alloc),
        }
    }

    /// Gives a name a new one.
    #[tactic(auto, unfolding(crate::specs::NewNames::names_in))]
    fn set(&mut self, name: u32, new: u32) -> Result<(), Mem>
        ensures { OnOk result (names_in self.new ≡ with_name (names_in self.old) name new) }
    {
        self.renamed.insert(name, new)?;
        Ok(())
    }

    /// The new name of a name.
    #[tactic(auto, unfolding(crate::specs::NewNames::names_in))]
    fn get(&self, name: u32) -> u32
        ensures { result ≡ names_in self.now name }
    {
        match self.renamed.get(&name) {
            Some(new) => *new,
            None => 0,
        }
    }
}

/// The next name; none where names run out.
pub(crate) fn next_name(name: u32) -> Result<u32, Mem>
    ensures { IfOk result (λ next. next ≡ name + 1) }
{
    match name.checked_add(1) {
        Some(next) => Ok(next),
        None => Err(Mem),
    }
}

/// Gives names new ones in order, from one on; and answers the next.
fn number_names(new: &mut NewNames, names: &[u32], from: u32) -> Result<u32, Mem>
    ensures renamed { OnOk result (names_in new.new ≡ with_names (names_in new.old) names.now from) }
    ensures next { IfOk result (λ next. next ≡ from + length names.now) }
{
    let mut next = from;
    for name in names {
        new.set(*name, next)?;
        next = next_name(next)?;
    }
    Ok(next)
}

/// The names from one on, below another.
pub(crate) fn push_names(names: &mut Ids, from: u32, below: u32) -> Result<(), Mem>
    requires { from ≤ below }
    ensures { OnOk result (names.new ≡ names.old ++ range_with_len from (below - from)) }
{
    for name in from..below {
        names.push(name)?;
    }
    Ok(())
}

/// The new names of these names.
fn renamed_all(alloc: Global, new: &NewNames, names: &[u32]) -> Result<Ids, Mem>
    ensures { IfOk result (λ out. out ≡ map (names_in new.now) names.now) }
{
    let mut out = Items::new(alloc);
    for name in names {
        out.push(new.get(*name))?;
    }
    Ok(out)
}

/// An operation under new names.
fn renamed_op(alloc: Global, new: &NewNames, op: &BodyOp, defines: u32) -> Result<BodyOp, Mem>
    ensures { IfOk result (λ out. out ≡ renamed_op_by (names_in new.now) defines op.now) }
{
    Ok(BodyOp {
        kind: op.kind.duplicate(alloc)?,
        operands: renamed_all(alloc, new, op.operands.as_slice())?,
        defines,
        result: op.result.duplicate(alloc)?,
        place: op.place,
    })
}

/// Operations under new names, those that they define in order from one on.
fn renumbered_ops(
    alloc: Global,
    new: &mut NewNames,
    ops: &[BodyOp],
    from: u32,
) -> Result<BodyOps, Mem>
    ensures ops { IfOk result (λ out. out ≡ renumbered_ops (names_in new.old) from ops.now) }
    ensures names { OnOk result (names_in new.new
        ≡ with_names (names_in new.old) (map (λ op. op.defines) ops.now) from) }
{
    let mut out = Items::new(alloc);
    let mut next = from;
    for op in ops {
        out.push(renamed_op(alloc, new, op, next)?)?;
        new.set(op.defines, next)?;
        next = next_name(next)?;
    }
    Ok(out)
}

/// A body under other names: the scalars of the function that it uses are numbered from one name
/// on, and its own from another.
///
/// Errors: `Mem` where memory is wanting, or names run out.
pub fn renumbered_body(
    alloc: Global,
    captured: &[u32],
    body: &Body,
    first: u32,
    base: u32,
) -> Result<Body, Mem>
    ensures { IfOk result (λ out. out ≡ renumbered_body first base
        (as_region captured.now body.now)) }
{
    let mut new = NewNames::new(alloc);
    number_names(&mut new, captured, first)?;
    let next = number_names(&mut new, body.args.as_slice(), base)?;
    let mut args = Items::new(alloc);
    push_names(&mut args, base, next)?;
    let ops = renumbered_ops(alloc, &mut new, body.ops.as_slice(), next)?;
    Ok(Body {
        args,
        widths: body.widths.duplicate(alloc)?,
        ops,
        yields: new.get(body.yields),
        width: body.width,
        place: body.place,
    })
}
