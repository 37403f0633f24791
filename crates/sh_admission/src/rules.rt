ghost use Rattle.std.specs.Prelude.{◌≡◌, IfOk, IsTrue};
ghost use Rattle.sh_admission.specs.Faults.{BreaksFirst, IsFirstBroken};
ghost use Rattle.sh_admission.specs.Found.{IsWithin};
ghost use Rattle.sh_grid.specs.Grid.{IsGrid};
ghost use Rattle.sh_ir.specs.Agreement.{dims_of};
ghost use Rattle.sh_ir.specs.Limits.{has_few_dims};
ghost use Rattle.sh_ir.specs.Shapes.{extent_of, shape_of};

use crate::grids::{GridTable, grid_of_item};
use sh_base::{Mem, Rule, Shape, shape};
use sh_grid::Grid;
use sh_ir::{Dim, RawSharding, ValueType};
use sh_sharding::{AdmitRefusal, admit};
use std::alloc::Global;

/// The extents of a tensor type; none of another type.
fn dims(value_type: &ValueType) -> &[Dim]
    ensures { result.now ≡ dims_of value_type.now }
{
    match value_type {
        ValueType::Tensor(tensor) => tensor.dims.as_slice(),
        ValueType::Nothing | ValueType::Scalar(_) | ValueType::Sharding | ValueType::Index => &[],
    }
}

/// The extent of a whole tensor; it has none that is `?`.
fn extent(dim: Dim) -> u64
    ensures { result ≡ extent_of dim }
{
    match dim {
        Dim::Known(extent) => extent,
        Dim::Differs => 0,
    }
}

fn whole_shape(alloc: Global, value_type: &ValueType) -> Result<Shape, Mem>
    requires { IsTrue (has_few_dims value_type.now) }
    ensures { IfOk result (λ s. s ≡ shape_of value_type.now) }
{
    let mut extents: Vec<u64> = Vec::new(alloc);
    for dim in dims(value_type) {
        extents.push(extent(*dim))?;
    }
    Ok(shape(alloc, extents.as_slice()))
}

/// The first rule that a sharding breaks on a grid of its name, if it breaks one.
fn broken_on(
    alloc: Global,
    g: &Grid,
    raw: &RawSharding,
    noted: &ValueType,
) -> Result<Option<Rule>, Mem>
    requires grid { IsGrid g.now.extents }
    requires named { raw.now.grid ≡ g.now.name }
    requires within { IsWithin noted.now }
    ensures { IfOk result (λ broken. IsFirstBroken g.now raw.now (shape_of noted.now) broken) }
{
    let whole = whole_shape(alloc, noted)?;
    match admit(alloc, g, raw, &whole) {
        Ok(_) => Ok(None),
        Err(AdmitRefusal::Broken(rule)) => Ok(Some(rule)),
        Err(AdmitRefusal::Mem) => Err(Mem),
    }
}

/// The first of the rules A1 to A8 that a sharding breaks on the grid that it names.
pub(crate) fn broken_by(
    alloc: Global,
    table: &GridTable<'_>,
    raw: &RawSharding,
    noted: &ValueType,
) -> Result<Option<Rule>, Mem>
    requires { IsWithin noted.now }
    ensures { IfOk result (λ broken. BreaksFirst table.now raw.now noted.now broken) }
{
    let Some(item) = table.item(raw.grid.as_slice()) else {
        return Ok(None);
    };
    match grid_of_item(alloc, item)? {
        None => Ok(None),
        Some(g) => broken_on(alloc, &g, raw, noted),
    }
}
