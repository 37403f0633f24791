ghost use Rattle.std.specs.Prelude.{◌≡◌, IfOk};
ghost use Rattle.sh_base.specs.Cells.{IsCellOf};

use sh_base::{Cell, MAX_RANK, Shape, Width, count, shape};
use sh_ir::{Arg, Dim, ValueType};
use sh_tensor::{Tensor, build};
use std::alloc::Global;
use std::test::Fail;

/// The extents of a type that knows them.
fn shape_of(alloc: Global, dims: &[Dim]) -> Result<Shape, Fail> {
    let mut found = Vec::new(alloc);
    for dim in dims {
        match dim {
            Dim::Known(extent) => found.push(*extent)?,
            Dim::Differs => return Err("an open extent")?,
        }
    }
    if found.len() > MAX_RANK {
        return Err("more than six extents")?;
    }
    Ok(shape(alloc, found.as_slice()))
}

/// One of some cells of a width: 0 and 1 by turns, or numbers from 1 to 124.
fn cell(w: Width, number: u64) -> Cell
    ensures { IsCellOf w result }
{
    match w {
        Width::I1 => Cell::Val(number % 2),
        Width::I8 | Width::I16 | Width::I32 | Width::I64 => Cell::Val(number % 42 * 3 + 1),
    }
}

/// A tensor of a shape and a width with these cells, from a number on.
fn tensor(alloc: Global, s: Shape, w: Width, first: u64) -> Result<Tensor, Fail> {
    let total = count(&s).ok_or("too many cells")?;
    let mut cells = Vec::with_capacity(alloc, total as usize)?;
    for number in 0..total {
        cells.push(cell(w, first % 1000 + number))?;
    }
    Ok(build(s, w, cells))
}

/// A tensor for each parameter.
pub fn arguments(alloc: Global, params: &[Arg]) -> Result<Vec<Tensor>, Fail> {
    let mut found = Vec::new(alloc);
    for (at, param) in params.iter().enumerate() {
        let ValueType::Tensor(t) = &param.value_type else {
            return Err("a parameter that isn't a tensor")?;
        };
        let s = shape_of(alloc, t.dims.as_slice())?;
        found.push(tensor(alloc, s, t.width, 7 * (at as u64 % 10))?)?;
    }
    Ok(found)
}
