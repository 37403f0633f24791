ghost use Rattle.std.specs.Prelude.{◌≡◌, [], ◌∷◌, IfOk};
ghost use Rattle.sh_build.specs.Meaning.{arith as arith_part, side as side_part};

use crate::boxed::Boxed;
use crate::parts::{Arith, Part, RightSide};
use sh_base::{Ids, Items, Mem};
use sh_ir::{BodyKind, OpKind, ValueType};
use std::alloc::Global;

/// The operands of an operation of one.
pub(crate) fn one_operand(alloc: Global, operand: u32) -> Result<Ids, Mem>
    ensures { IfOk result (λ ids. ids ≡ operand ∷ []) }
{
    Ok(Items::from_vec(Vec::from_array(alloc, [operand])?))
}

/// The operands of an operation of two.
pub(crate) fn two_operands(alloc: Global, first: u32, second: u32) -> Result<Ids, Mem>
    ensures { IfOk result (λ ids. ids ≡ first ∷ second ∷ []) }
{
    Ok(Items::from_vec(Vec::from_array(alloc, [first, second])?))
}

/// The operands of an operation of three.
pub(crate) fn three_operands(alloc: Global, first: u32, second: u32, third: u32) -> Result<Ids, Mem>
    ensures { IfOk result (λ ids. ids ≡ first ∷ second ∷ third ∷ []) }
{
    Ok(Items::from_vec(Vec::from_array(alloc, [first, second, third])?))
}

/// A right side of a function's operation.
pub(crate) fn side(
    alloc: Global,
    kind: OpKind,
    operands: Ids,
    value_type: ValueType,
) -> Result<Part, Mem>
    ensures { IfOk result (λ part. part ≡ side_part kind operands value_type) }
{
    let side = RightSide {
        kind,
        operands,
        result: value_type,
    };
    Ok(Part::RightSide(Boxed::new(alloc, side)?))
}

/// A right side of a region's operation.
pub(crate) fn arith(
    alloc: Global,
    kind: BodyKind,
    operands: Ids,
    value_type: ValueType,
) -> Result<Part, Mem>
    ensures { IfOk result (λ part. part ≡ arith_part kind operands value_type) }
{
    let arith = Arith {
        kind,
        operands,
        result: value_type,
    };
    Ok(Part::Arith(Boxed::new(alloc, arith)?))
}
