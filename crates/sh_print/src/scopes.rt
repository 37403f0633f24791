ghost use Rattle.std.specs.Prelude.{◌≡◌, ◌++◌, [], ◌∷◌, IfOk, OnOk, flat_map, get_or, map, nat_eq, option_to_list};
ghost use Rattle.indexmap.specs.IndexSet.{insert_all};
ghost use Rattle.sh_print.specs.Tokens as tokens;
ghost use Rattle.sh_print.specs.Values.{name_in, name_inside};

use crate::names::Name;
use indexmap::IndexSet;
use sh_base::Mem;
use sh_ir::{Arg, Body, BodyOp, Func, Op};
use std::alloc::Global;
use std::marker::Model;

/// The values that a function or a region defines, and which of them are its arguments.
#[derive(Drop)]
pub(crate) struct Scope {
    ids: IndexSet<u32>,
    arguments: usize,
}

impl Model for Scope {
    ghost use Rattle.sh_print.specs.Values.{Scope};

    ghost Value = { Scope };

    ghost view = { λ s. record { ids = s.ids.keys; arguments = s.arguments } };
}

impl Scope {
    /// The values of a function.
    pub(crate) fn of_func(alloc: Global, func: &Func) -> Result<Scope, Mem>
        ensures { IfOk result (λ scope. scope ≡ tokens.scope_of func.now) }
    {
        let mut ids: IndexSet<u32> = IndexSet::new(alloc);
        insert_arguments(&mut ids, func.args.as_slice())?;
        insert_values(&mut ids, func.ops.as_slice())?;
        Ok(Scope {
            ids,
            arguments: func.args.len(),
        })
    }

    /// The values of a region.
    pub(crate) fn of_body(alloc: Global, body: &Body) -> Result<Scope, Mem>
        ensures { IfOk result (λ scope. scope ≡ tokens.scope_of_body body.now) }
    {
        let mut ids: IndexSet<u32> = IndexSet::new(alloc);
        insert_ids(&mut ids, body.args.as_slice())?;
        insert_body_values(&mut ids, body.ops.as_slice())?;
        Ok(Scope {
            ids,
            arguments: body.args.len(),
        })
    }

    /// The name of a function's value.
    pub(crate) fn name(&self, id: u32) -> Name
        ensures { result ≡ name_in self.now id }
    {
        match self.ids.get_index_of(&id) {
            None => Name::Undefined,
            Some(at) => {
                if at < self.arguments {
                    Name::Argument(at)
                } else {
                    Name::Value(at - self.arguments)
                }
            }
        }
    }

    /// The name of a value in this region, which stands in a function.
    pub(crate) fn name_inside(&self, outer: &Scope, id: u32) -> Name
        ensures { result ≡ name_inside self.now outer.now id }
    {
        match self.ids.get_index_of(&id) {
            None => outer.name(id),
            Some(at) => {
                if at < self.arguments {
                    Name::BlockArgument(at)
                } else {
                    Name::BodyValue(at - self.arguments)
                }
            }
        }
    }

    /// The name of an operand of a function's operation.
    pub(crate) fn operand(&self, operands: &[u32], at: usize) -> Name
        ensures { result ≡ tokens.operand self.now operands.now at }
    {
        self.name(id_at(operands, at))
    }
}

/// The operand at a place.
pub(crate) fn id_at(operands: &[u32], at: usize) -> u32
    ensures { result ≡ get_or operands.now at 0 }
{
    if at < operands.len() { operands[at] } else { 0 }
}

/// Inserts these, in order.
fn insert_ids(ids: &mut IndexSet<u32>, more: &[u32]) -> Result<(), Mem>
    ensures { OnOk result (ids.new.keys ≡ insert_all nat_eq ids.old.keys more.now) }
{
    for id in more {
        ids.insert(*id)?;
    }
    Ok(())
}

/// Inserts the arguments of a function.
fn insert_arguments(ids: &mut IndexSet<u32>, args: &[Arg]) -> Result<(), Mem>
    ensures { OnOk result (ids.new.keys ≡ insert_all nat_eq ids.old.keys
        (map (λ arg. arg.id) args.now)) }
{
    for arg in args {
        ids.insert(arg.id)?;
    }
    Ok(())
}

/// Inserts the values of a function's operations.
fn insert_values(ids: &mut IndexSet<u32>, ops: &[Op]) -> Result<(), Mem>
    ensures { OnOk result (ids.new.keys ≡ insert_all nat_eq ids.old.keys
        (flat_map (λ op. option_to_list op.defines) ops.now)) }
{
    for op in ops {
        insert_value(ids, op)?;
    }
    Ok(())
}

/// Inserts the value of an operation, if it has one.
fn insert_value(ids: &mut IndexSet<u32>, op: &Op) -> Result<(), Mem>
    ensures { OnOk result (ids.new.keys ≡ insert_all nat_eq ids.old.keys
        (option_to_list op.now.defines)) }
{
    if let Some(id) = op.defines {
        ids.insert(id)?;
    }
    Ok(())
}

/// Inserts the values of a region's operations.
fn insert_body_values(ids: &mut IndexSet<u32>, ops: &[BodyOp]) -> Result<(), Mem>
    ensures { OnOk result (ids.new.keys ≡ insert_all nat_eq ids.old.keys
        (map (λ op. op.defines) ops.now)) }
{
    for op in ops {
        ids.insert(op.defines)?;
    }
    Ok(())
}
