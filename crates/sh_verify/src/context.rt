ghost use Rattle.std.specs.Prelude.{◌≡◌, [], false};
ghost use Rattle.std.specs.Option.{option_copied, option_map, option_map_or};
ghost use Rattle.sh_ir.specs.Scope.{func_item, grid_item, value_named, with_args};
ghost use Rattle.sh_verify.specs.Tables.{HasValues, scope_at, values_behind};

use crate::tables::Tables;
use crate::values::KnownValues;
use sh_ir::{Func, GridItem, Op, ValueType};
use std::marker::Model;

/// What is known where an operation of a function stands.
#[derive(Drop)]
pub(crate) struct Context<'m> {
    tables: &'m Tables<'m>,
    func: &'m Func,
    before: &'m [Op],
    values: &'m KnownValues<'m>,
}

impl<'m> Model for Context<'m> {
    ghost use Rattle.std.specs.Prelude.{[]};
    ghost use Rattle.sh_ir.specs.Scope.{Scope, with_args};

    ghost Value = { Scope };

    ghost use Rattle.sh_verify.specs.Tables.{HasValues, scope_at, values_behind};

    ghost view = { λ c. scope_at c.tables.now c.func.now c.before.now };

    ghost invariant = { λ c. HasValues c.values.now.entries
        (values_behind (with_args [] c.func.now.args) c.before.now) };
}

impl<'m> Context<'m> {
    /// What is known behind the operations before, of which these are the values.
    pub(crate) fn new(
        tables: &'m Tables<'m>,
        func: &'m Func,
        before: &'m [Op],
        values: &'m KnownValues<'m>,
    ) -> Context<'m>
        requires { HasValues values.now.entries
            (values_behind (with_args [] func.now.args) before.now) }
        ensures { result ≡ scope_at tables.now func.now before.now }
    {
        Context {
            tables,
            func,
            before,
            values,
        }
    }

    /// The type of the value of a name.
    pub(crate) fn value_type(&self, name: u32) -> Option<&'m ValueType>
        ensures { option_copied result
            ≡ option_map (λ v. v.value_type) (value_named self.now.values name) }
    {
        match self.values.get(&name) {
            Some(known) => Some(known.value_type),
            None => None,
        }
    }

    /// Whether the value of a name is a scalar constant, which regions may use.
    pub(crate) fn is_constant(&self, name: u32) -> bool
        ensures { result
            ≡ option_map_or (λ v. v.is_constant) (value_named self.now.values name) false }
    {
        match self.values.get(&name) {
            Some(known) => known.is_constant,
            None => false,
        }
    }

    /// The grid of a name.
    pub(crate) fn grid(&self, name: &[u8]) -> Option<&'m GridItem>
        ensures { option_copied result ≡ grid_item self.now.grids name.now }
    {
        self.tables.grid(name)
    }

    /// The function of a name.
    pub(crate) fn func(&self, name: &[u8]) -> Option<&'m Func>
        ensures { option_copied result ≡ func_item self.now.funcs name.now }
    {
        self.tables.func(name)
    }

    /// The carried grid; none in source form.
    pub(crate) fn device(&self) -> Option<&'m [u8]>
        ensures { option_copied result ≡ self.now.device }
    {
        match &self.func.carry {
            Some(carry) => Some(carry.grid.as_slice()),
            None => None,
        }
    }
}
