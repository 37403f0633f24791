ghost use Rattle.std.specs.Prelude.{◌≡◌, ◌≤◌, map, nat_le};
ghost use Rattle.sh_base.specs.Shape.{cell_count, max_cells};
ghost use Rattle.sh_ir.specs.Agreement.{dims_of};
ghost use Rattle.sh_ir.specs.Limits.{counted_dim, has_few_cells, has_few_dims};
ghost use Rattle.sh_verify.specs.LimitFaults.{are_few_cells, are_few_dims};

use sh_base::{MAX_CELLS, MAX_RANK};
use sh_ir::{Dim, ValueType};

/// The extents of a tensor type; none of another type.
pub(crate) fn dims(value_type: &ValueType) -> &[Dim]
    ensures { result.now ≡ dims_of value_type.now }
{
    match value_type {
        ValueType::Tensor(tensor) => tensor.dims.as_slice(),
        ValueType::Nothing | ValueType::Scalar(_) | ValueType::Sharding | ValueType::Index => &[],
    }
}

/// Whether the rank isn't too great.
#[tactic(auto, unfolding(sh_ir::specs::Limits::has_few_dims))]
pub(crate) fn is_few_dims(value_type: &ValueType) -> bool
    ensures { result ≡ has_few_dims value_type.now }
{
    dims(value_type).len() <= MAX_RANK
}

/// An extent as it counts.
fn counted(dim: Dim) -> u64
    ensures value { result ≡ counted_dim dim }
    ensures some { 1 ≤ result }
{
    match dim {
        Dim::Known(extent) => extent.max(1),
        Dim::Differs => 1,
    }
}

/// Whether the known extents have few cells, an extent of 0 being counted as 1.
fn have_few_cells(dims: &[Dim]) -> bool
    ensures { result ≡ nat_le (cell_count (map counted_dim dims.now)) max_cells }
{
    let mut count: u64 = 1;
    for dim in dims {
        let product = count as u128 * counted(*dim) as u128;
        if product > MAX_CELLS as u128 {
            return false;
        }
        count = product as u64;
    }
    true
}

#[tactic(auto, unfolding(sh_ir::specs::Limits::has_few_cells))]
pub(crate) fn is_few_cells(value_type: &ValueType) -> bool
    ensures { result ≡ has_few_cells value_type.now }
{
    have_few_cells(dims(value_type))
}

pub(crate) fn all_few_dims(types: &[ValueType]) -> bool
    ensures { result ≡ are_few_dims types.now }
{
    types.iter().all(|value_type| is_few_dims(value_type))
}

pub(crate) fn all_few_cells(types: &[ValueType]) -> bool
    ensures { result ≡ are_few_cells types.now }
{
    types.iter().all(|value_type| is_few_cells(value_type))
}
