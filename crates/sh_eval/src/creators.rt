ghost use Rattle.std.specs.Prelude.{◌≡◌, ◌≤◌, IfOk, length, map, option_map};
ghost use Rattle.sh_base.specs.Shape.{max_rank};
ghost use Rattle.sh_eval.specs.Cuts.{cut_shape};
ghost use Rattle.sh_eval.specs.Values.{GivesFew, known_value};
ghost use Rattle.sh_loops.specs.Cells.{HoldsCellsOf};
ghost use Rattle.sh_sem.specs.Given.{gives_constant, gives_undefined};
ghost use Rattle.sh_sem.specs.Given.{known_shape as shape_known};

use crate::constants::{constant, undefined};
use crate::layouts::fitting;
use sh_base::{Mem, Width};
use sh_ir::{Constant, Dim};
use sh_sem::dims_of;
use sh_tensor::Tensor;
use std::alloc::Global;

/// The extents of a type that knows all of them.
pub(crate) fn known_extents(alloc: Global, dims: &[Dim]) -> Result<Option<Vec<u128>>, Mem>
    ensures { IfOk result (λ out. option_map (λ all. all.items) out
        ≡ option_map cut_shape (shape_known dims.now)) }
{
    let mut all: Vec<u128> = Vec::with_capacity(alloc, dims.len())?;
    for dim in dims {
        match *dim {
            Dim::Known(extent) => all.push(u128::from(extent))?,
            Dim::Differs => return Ok(None),
        }
    }
    Ok(Some(all))
}

/// What a literal gives, which has no operands.
pub(crate) fn constant_op(
    alloc: Global,
    literal: &Constant,
    dims: &[Dim],
    width: Width,
    ts: &[&Tensor],
) -> Result<Option<Tensor>, Mem>
    requires rank { length dims.now ≤ max_rank }
    requires fitting { HoldsCellsOf width literal.now.contents }
    requires few { GivesFew (gives_constant literal.now) dims.now (map (λ t. t.now) ts.now) }
    ensures { IfOk result (λ out. out
        ≡ known_value (gives_constant literal.now) dims.now width (map (λ t. t.now) ts.now)) }
{
    if ts.len() != 0 {
        return Ok(None);
    }
    match known_extents(alloc, dims_of(&literal.value_type))? {
        Some(extents) => match fitting(alloc, dims, extents.as_slice()) {
            Some(shape) => constant(alloc, literal, shape, width),
            None => Ok(None),
        },
        None => Ok(None),
    }
}

/// What a tensor of undefined cells gives, which has no operands.
pub(crate) fn empty_op(
    alloc: Global,
    dims: &[Dim],
    width: Width,
    ts: &[&Tensor],
) -> Result<Option<Tensor>, Mem>
    requires rank { length dims.now ≤ max_rank }
    requires few { GivesFew (gives_undefined dims.now) dims.now (map (λ t. t.now) ts.now) }
    ensures { IfOk result (λ out. out
        ≡ known_value (gives_undefined dims.now) dims.now width (map (λ t. t.now) ts.now)) }
{
    if ts.len() != 0 {
        return Ok(None);
    }
    match known_extents(alloc, dims)? {
        Some(extents) => match fitting(alloc, dims, extents.as_slice()) {
            Some(shape) => undefined(alloc, shape, width),
            None => Ok(None),
        },
        None => Ok(None),
    }
}
