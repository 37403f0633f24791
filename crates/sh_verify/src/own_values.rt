ghost use Rattle.std.specs.Prelude.{◌≡◌, [], ◌∷◌, IfOk, List, OnOk, false};
ghost use Rattle.std.specs.Option.{option_copied, option_map, option_map_or};
ghost use Rattle.sh_ir.specs.RegionRules.{block_of, with_block};
ghost use Rattle.sh_ir.specs.Scope.{Value, plain_value, value_named};
ghost use Rattle.sh_verify.specs.OwnValues.{HasOwn, own_behind, own_type, within_at};

use crate::context::Context;
use indexmap::IndexMap;
use sh_base::{Mem, Width};
use sh_ir::{Body, BodyOp, ValueType};
use std::alloc::Global;
use std::marker::Model;

/// The type of a value of a region.
#[derive(Clone, Copy)]
pub(crate) enum OwnType<'m> {
    /// Of a block argument.
    Argument(Width),
    /// Of an operation.
    Written(&'m ValueType),
}

/// The values of a region by their names. Of two values of one name the last one counts.
pub(crate) type OwnValues<'m> = IndexMap<u32, OwnType<'m>>;

/// Adds a value.
pub(crate) fn define_own<'m>(own: &mut OwnValues<'m>, name: u32, of: OwnType<'m>) -> Result<(), Mem>
    ensures { OnOk result ((before : List Value) → HasOwn own.old.entries before
        → HasOwn own.new.entries (plain_value name (own_type of.entry) ∷ before)) }
{
    own.insert(name, of)?;
    Ok(())
}

/// The block arguments.
pub(crate) fn block<'m>(alloc: Global, body: &'m Body) -> Result<OwnValues<'m>, Mem>
    ensures { IfOk result (λ own. HasOwn own.entries (block_of body.now)) }
{
    block_values(alloc, body.args.as_slice(), body.widths.as_slice())
}

fn block_values<'m>(alloc: Global, names: &[u32], widths: &[Width]) -> Result<OwnValues<'m>, Mem>
    ensures { IfOk result (λ own. HasOwn own.entries (with_block [] names.now widths.now)) }
{
    let mut own: OwnValues<'m> = IndexMap::new(alloc);
    for (at, name) in names.iter().enumerate() {
        if at >= widths.len() {
            return Ok(own);
        }
        define_own(&mut own, *name, OwnType::Argument(widths[at]))?;
    }
    Ok(own)
}

/// What is known where an operation of a region stands.
#[derive(Drop)]
pub(crate) struct Region<'m> {
    context: &'m Context<'m>,
    body: &'m Body,
    before: &'m [BodyOp],
    own: &'m OwnValues<'m>,
}

impl<'m> Model for Region<'m> {
    ghost use Rattle.sh_ir.specs.RegionRules.{block_of};
    ghost use Rattle.sh_verify.specs.OwnValues.{HasOwn, Within, own_behind, within_at};

    ghost Value = { Within };

    ghost view = { λ r. within_at r.context.now r.body.now r.before.now };

    ghost invariant = { λ r. HasOwn r.own.now.entries
        (own_behind (block_of r.body.now) r.before.now) };
}

impl<'m> Region<'m> {
    /// What is known behind the operations before, of which these are the values.
    pub(crate) fn new(
        context: &'m Context<'m>,
        body: &'m Body,
        before: &'m [BodyOp],
        own: &'m OwnValues<'m>,
    ) -> Region<'m>
        requires { HasOwn own.now.entries (own_behind (block_of body.now) before.now) }
        ensures { result ≡ within_at context.now body.now before.now }
    {
        Region {
            context,
            body,
            before,
            own,
        }
    }

    /// The type of the region's value of a name.
    pub(crate) fn own_type(&self, name: u32) -> Option<OwnType<'m>>
        ensures { option_map own_type result
            ≡ option_map (λ v. v.value_type) (value_named self.now.own name) }
    {
        match self.own.get(&name) {
            Some(of) => Some(*of),
            None => None,
        }
    }

    /// The type of the function's value of a name.
    pub(crate) fn outer_type(&self, name: u32) -> Option<&'m ValueType>
        ensures { option_copied result
            ≡ option_map (λ v. v.value_type) (value_named self.now.outer name) }
    {
        self.context.value_type(name)
    }

    /// Whether the function's value of a name is a scalar constant.
    pub(crate) fn is_constant(&self, name: u32) -> bool
        ensures { result
            ≡ option_map_or (λ v. v.is_constant) (value_named self.now.outer name) false }
    {
        self.context.is_constant(name)
    }
}
