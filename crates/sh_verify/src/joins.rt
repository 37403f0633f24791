ghost use Rattle.std.specs.Prelude.{◌≡◌, ◌&&◌, ◌||◌, nat_eq, not};
ghost use Rattle.std.specs.List.{list_all, range_with_len};
ghost use Rattle.sh_ir.specs.declared.types.Dim.TheVariants.{Known};
ghost use Rattle.sh_ir.specs.Agreement as agreement;
ghost use Rattle.sh_ir.specs.Attributes.{has_dim};
ghost use Rattle.sh_ir.specs.Operands as operands;
ghost use Rattle.sh_ir.specs.Results as results;
ghost use Rattle.sh_ir.specs.Written.{first_type};
ghost use Rattle.sh_verify.specs.Joins as joins;

use crate::agreement::{dim_agrees, has_same_rank_and_bits};
use crate::attributes::{first_has_dim, first_rank};
use crate::loop_maps::is_known;
use crate::sizes::dims;
use sh_ir::{Dim, ValueType};

// ---- dimension by dimension

fn dim_at(value_type: &ValueType, at: u64) -> Dim
    ensures { result ≡ joins.dim_at value_type.now at }
{
    let extents = dims(value_type);
    if at < extents.len() as u64 {
        extents[at as usize]
    } else {
        Dim::Differs
    }
}

/// The first extent of a dimension that is known; `?` where none is.
fn column(types: &[ValueType], at: u64) -> Dim
    ensures { result ≡ joins.column types.now at }
{
    for value_type in types {
        let dim = dim_at(value_type, at);
        if is_known(dim) {
            return dim;
        }
    }
    Dim::Differs
}

fn all_agree(types: &[ValueType], at: u64, dim: Dim) -> bool
    ensures { result ≡ list_all (λ t. agreement.dims_agree dim (joins.dim_at t at)) types.now }
{
    for value_type in types {
        if !dim_agrees(dim, dim_at(value_type, at)) {
            return false;
        }
    }
    true
}

fn column_agrees(types: &[ValueType], axis: u64, at: u64) -> bool
    ensures { result ≡ (nat_eq at axis || joins.column_agrees types.now at) }
{
    at == axis || all_agree(types, at, column(types, at))
}

fn columns_agree(axis: u64, types: &[ValueType], rank: usize) -> bool
    ensures { result ≡ joins.columns_agree axis types.now (range_with_len 0 rank) }
{
    for at in 0..rank {
        if !column_agrees(types, axis, at as u64) {
            return false;
        }
    }
    true
}

// ---- operands

fn are_like(first: &ValueType, types: &[ValueType]) -> bool
    ensures { result ≡ list_all (agreement.same_rank_and_bits first.now) types.now }
{
    for value_type in types {
        if !has_same_rank_and_bits(first, value_type) {
            return false;
        }
    }
    true
}

fn are_alike(types: &[ValueType]) -> bool
    ensures { result ≡ list_all (agreement.same_rank_and_bits (first_type types.now)) types.now }
{
    match types.first() {
        Some(first) => are_like(first, types),
        None => true,
    }
}

fn agree_beside(axis: u64, types: &[ValueType]) -> bool
    ensures { result ≡ (not (has_dim (first_type types.now) axis)
        || joins.columns_agree axis types.now
        (range_with_len 0 (agreement.rank_of (first_type types.now)))) }
{
    !first_has_dim(types, axis) || columns_agree(axis, types, first_rank(types))
}

/// Whether types have one width and one rank, and their extents agree beside the axis, where it is
/// there.
#[tactic(auto, unfolding(sh_ir::specs::Operands::can_join))]
pub(crate) fn can_join(axis: u64, types: &[ValueType]) -> bool
    ensures { result ≡ operands.can_join axis types.now }
{
    are_alike(types) && agree_beside(axis, types)
}

// ---- the value

/// Whether an extent is that of all operands together, as far as these are known.
fn has_sum(count: u64, types: &[ValueType], axis: u64) -> bool
    ensures { result ≡ joins.has_sum count 0 (results.dims_along axis types.now) }
{
    let mut total: u128 = 0;
    for value_type in types {
        match dim_at(value_type, axis) {
            Dim::Known(extent) => total = total + extent as u128,
            Dim::Differs => return true,
        }
    }
    total == count as u128
}

/// Whether an extent is that of a dimension of the joined operands.
fn is_joined(axis: u64, types: &[ValueType], at: u64, dim: Dim) -> bool
    ensures { result ≡ agreement.dims_agree (results.joined_dim axis types.now at) dim }
{
    if at != axis {
        return dim_agrees(column(types, at), dim);
    }
    match dim {
        Dim::Known(count) => has_sum(count, types, axis),
        Dim::Differs => true,
    }
}

/// Whether extents are those of the joined operands.
pub(crate) fn are_joined(axis: u64, types: &[ValueType], extents: &[Dim]) -> bool
    ensures { result ≡ agreement.all_related
        (λ i d e. agreement.dims_agree (results.joined_dim axis types.now i) e) 0
        extents.now extents.now }
{
    for (at, dim) in extents.iter().enumerate() {
        if !is_joined(axis, types, at as u64, *dim) {
            return false;
        }
    }
    true
}
