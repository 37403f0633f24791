ghost use Rattle.std.specs.Prelude.{◌≡◌, [], IfOk, List, OnOk};
ghost use Rattle.sh_ir.specs.Scope.{Value, is_scalar_constant, values_after, with_args};
ghost use Rattle.sh_verify.specs.Tables.{HasValues};

use indexmap::IndexMap;
use sh_base::Mem;
use sh_ir::{Arg, Op, OpKind, ValueType};
use std::alloc::Global;

/// What is known of a value of a function.
#[derive(Clone, Copy)]
pub(crate) struct KnownValue<'m> {
    pub value_type: &'m ValueType,
    /// Whether it is a scalar constant, which regions may use.
    pub is_constant: bool,
}

/// The values of a function by their names. Of two values of one name the last one counts.
pub(crate) type KnownValues<'m> = IndexMap<u32, KnownValue<'m>>;

fn is_constant(kind: &OpKind, value_type: &ValueType) -> bool
    ensures { result ≡ is_scalar_constant kind.now value_type.now }
{
    match (kind, value_type) {
        (OpKind::Constant(_), ValueType::Scalar(_)) => true,
        _ => false,
    }
}

/// The values of the arguments.
pub(crate) fn argument_values<'m>(alloc: Global, args: &'m [Arg]) -> Result<KnownValues<'m>, Mem>
    ensures { IfOk result (λ values. HasValues values.entries (with_args [] args.now)) }
{
    let mut values: KnownValues<'m> = IndexMap::new(alloc);
    for arg in args {
        let value = KnownValue {
            value_type: &arg.value_type,
            is_constant: false,
        };
        values.insert(arg.id, value)?;
    }
    Ok(values)
}

/// Adds what an operation defines.
pub(crate) fn define<'m>(values: &mut KnownValues<'m>, op: &'m Op) -> Result<(), Mem>
    ensures { OnOk result ((before : List Value) → HasValues values.old.entries before
        → HasValues values.new.entries (values_after before op.now)) }
{
    if let Some(name) = op.defines {
        let value = KnownValue {
            value_type: &op.result,
            is_constant: is_constant(&op.kind, &op.result),
        };
        values.insert(name, value)?;
    }
    Ok(())
}
