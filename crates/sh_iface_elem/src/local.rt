//! An element operation on local tensors.
ghost use Rattle.std.specs.Prelude.{◌≡◌, ◌++◌, ◌∷◌, [], IfOk, OnOk};
ghost use Rattle.sh_sharding.specs.LocalTypes.{local_dims};
ghost use Rattle.sh_iface.specs.Elements.{kind_at, op_at};
ghost use Rattle.sh_iface_elem.specs.ElementOf.{element_by, meant};

use crate::{ElemIface, ElementKind};
use sh_base::{Mem, Width};
use sh_iface::{local_type, operand_names};
use sh_ir::{Cast, Compare, OpKind, Ops, Select, push_op};
use sh_sharding::Sharding;
use std::alloc::Global;

/// The operation's kind, on local tensors.
fn local_kind(alloc: Global, kind: ElementKind, s: &Sharding) -> Result<OpKind, Mem>
    ensures { IfOk result (λ local. local ≡ kind_at (local_dims s.now) (meant kind)) }
{
    Ok(match kind {
        ElementKind::Binary(op) => OpKind::Binary(op),
        ElementKind::Compare(predicate, width) => OpKind::Compare(Compare {
            predicate,
            operand_type: local_type(alloc, s, width)?,
        }),
        ElementKind::Select => OpKind::Select(Select {
            condition_type: local_type(alloc, s, Width::I1)?,
        }),
        ElementKind::Cast(op, width) => OpKind::Cast(Cast {
            op,
            operand_type: local_type(alloc, s, width)?,
        }),
    })
}

/// Appends the operation on local tensors, of operands 0, 1, .. and with the name after them.
pub(crate) fn push_local(
    alloc: Global,
    ops: &mut Ops,
    x: &ElemIface<'_>,
    s: &Sharding,
) -> Result<(), Mem>
    ensures { OnOk result (ops.new ≡ ops.old
        ++ op_at (element_by x.now.kind x.now.width x.now.dims.now x.now.place) (local_dims s.now)
        ∷ []) }
{
    let count = x.kind.operand_count();
    let names = operand_names(alloc, count)?;
    let result = local_type(alloc, s, x.width)?;
    let kind = local_kind(alloc, x.kind, s)?;
    push_op(ops, kind, names, Some(count), result, x.place)
}
