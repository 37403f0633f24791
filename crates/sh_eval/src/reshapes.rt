ghost use Rattle.std.specs.Prelude.{◌≡◌, ◌++◌, ◌∷◌, ◌==◌, [], IfOk, OnOk, get_or, length, map, option_map};
ghost use Rattle.std.specs.List.{list_all};
ghost use Rattle.sh_base.specs.Shape.{cell_count};
ghost use Rattle.sh_eval.specs.Cuts.{cut_extent, cut_shape};
ghost use Rattle.sh_ir.specs.Numbers.{as_natural, as_naturals};
ghost use Rattle.sh_ir.specs.declared.types.Dim.TheVariants.{Differs};
ghost use Rattle.sh_sem.specs.Reshapes.{collapsed_shape as shape_collapsed, dims_at as dims_of_group};
ghost use Rattle.sh_sem.specs.Reshapes.{expanded_group as group_expanded};
ghost use Rattle.sh_sem.specs.Reshapes.{expanded_groups as groups_expanded, extents_at};
ghost use Rattle.sh_sem.specs.Reshapes.{expanded_shape as shape_expanded};
ghost use Rattle.sh_sem.specs.Reshapes.{known_product as product_of_known, open_count as count_of_open};
ghost use Rattle.sh_sem.specs.Reshapes.{with_open as open_filled};

use sh_base::{Mem, Numbers};
use sh_ir::Dim;
use sh_loops::natural;
use std::alloc::Global;

// ---- collapse_shape

/// The extent of a dimension; 0 where there is none.
fn extent_at(extents: &[u64], dim: &i128) -> u64
    ensures { result ≡ get_or extents.now (as_natural dim.now) 0 }
{
    let dim = natural(dim);
    if dim < extents.len() as u128 {
        return extents[dim as usize];
    }
    0
}

/// The product of the extents of a group's dimensions, cut.
fn product_at(extents: &[u64], group: &[i128]) -> u128
    ensures { result ≡ cut_extent (cell_count (extents_at extents.now (as_naturals group.now))) }
{
    let mut total: u128 = 1;
    for at in 0..group.len() {
        total = total.saturating_mul(u128::from(extent_at(extents, &group[at])));
    }
    total
}

/// Whether each extent is 1.
fn are_one(extents: &[u64]) -> bool
    ensures { result ≡ list_all (λ n. n == 1) extents.now }
{
    for extent in extents {
        if *extent != 1 {
            return false;
        }
    }
    true
}

/// The products of all groups, cut.
fn products(alloc: Global, groups: &[Numbers], extents: &[u64]) -> Result<Vec<u128>, Mem>
    ensures { IfOk result (λ all. all.items ≡ cut_shape
        (map (λ group. cell_count (extents_at extents.now (as_naturals group))) groups.now)) }
{
    let mut all: Vec<u128> = Vec::with_capacity(alloc, groups.len())?;
    for group in groups {
        all.push(product_at(extents, group.as_slice()))?;
    }
    Ok(all)
}

/// The extents of a collapsed tensor, cut; none where it is no single cell, and there is no group.
pub(crate) fn collapsed_shape(
    alloc: Global,
    groups: &[Numbers],
    extents: &[u64],
) -> Result<Option<Vec<u128>>, Mem>
    ensures { IfOk result (λ out. option_map (λ all. all.items) out
        ≡ option_map cut_shape (shape_collapsed groups.now extents.now)) }
{
    if groups.is_empty() && !are_one(extents) {
        return Ok(None);
    }
    Ok(Some(products(alloc, groups, extents)?))
}

// ---- expand_shape

/// The extent of a dimension, an open one this extent.
fn extent_with(dim: Dim, filler: u64) -> u128
    ensures { cut_shape (open_filled filler (dim ∷ [])) ≡ result ∷ [] }
{
    match dim {
        Dim::Known(known) => u128::from(known),
        Dim::Differs => u128::from(filler),
    }
}

/// Appends the extents of dimensions, an open one this extent.
fn fill_open(all: &mut Vec<u128>, filler: u64, dims: &[Dim]) -> Result<(), Mem>
    ensures { OnOk result (all.new.items ≡ all.old.items ++ cut_shape (open_filled filler dims.now)) }
{
    for dim in dims {
        all.push(extent_with(*dim, filler))?;
    }
    Ok(())
}

/// The product of the extents that a type knows, cut.
fn known_product(dims: &[Dim]) -> u128
    ensures { result ≡ cut_extent (product_of_known dims.now) }
{
    let mut total: u128 = 1;
    for at in 0..dims.len() {
        let dim = dims[at];
        total = total.saturating_mul(extent_with(dim, 1));
    }
    total
}

/// How many extents a type leaves open.
fn open_count(dims: &[Dim]) -> usize
    ensures { result ≡ count_of_open dims.now }
{
    let mut count = 0;
    for dim in dims {
        match *dim {
            Dim::Known(_) => {}
            Dim::Differs => count += 1,
        }
    }
    count
}

/// The dimensions that a group lists.
fn dims_at(alloc: Global, dims: &[Dim], group: &[i128]) -> Result<Vec<Dim>, Mem>
    ensures { IfOk result (λ listed. listed.items ≡ dims_of_group dims.now (as_naturals group.now)) }
{
    let mut listed: Vec<Dim> = Vec::with_capacity(alloc, group.len())?;
    for dim in group {
        listed.push(dim_at(dims, dim))?;
    }
    Ok(listed)
}

/// A dimension; an open one where there is none.
fn dim_at(dims: &[Dim], dim: &i128) -> Dim
    ensures { result ≡ get_or dims.now (as_natural dim.now) Differs }
{
    let dim = natural(dim);
    if dim < dims.len() as u128 {
        return dims[dim as usize];
    }
    Dim::Differs
}

/// The extent that an open dimension of a group has; none where there is no such group. Where none
/// is open it is 0.
fn open_extent(extent: u64, dims: &[Dim]) -> Option<u64>
    ensures { option_map (λ n. open_filled n dims.now) result ≡ group_expanded extent dims.now }
{
    let product = known_product(dims);
    let extent = u128::from(extent);
    match open_count(dims) {
        0 => { if product == extent { Some(0) } else { None } }
        1 => {
            if product == 0 || extent % product != 0 {
                return None;
            }
            Some((extent / product) as u64)
        }
        _ => None,
    }
}

/// The extents that all groups have, one behind the other, cut; none where those of one don't
/// follow from its extent.
fn expanded_groups(
    alloc: Global,
    dims: &[Dim],
    groups: &[Numbers],
    extents: &[u64],
) -> Result<Option<Vec<u128>>, Mem>
    requires { length groups.now ≡ length extents.now }
    ensures { IfOk result (λ out. option_map (λ all. all.items) out
        ≡ option_map cut_shape (groups_expanded dims.now groups.now extents.now)) }
{
    let mut all: Vec<u128> = Vec::with_capacity(alloc, dims.len())?;
    for at in 0..groups.len() {
        let listed = dims_at(alloc, dims, groups[at].as_slice())?;
        match open_extent(extents[at], listed.as_slice()) {
            Some(open) => fill_open(&mut all, open, listed.as_slice())?,
            None => return Ok(None),
        }
    }
    Ok(Some(all))
}

/// The extents of an expanded tensor of rank 0, cut.
fn expanded_scalar(alloc: Global, dims: &[Dim]) -> Result<Option<Vec<u128>>, Mem>
    ensures { IfOk result (λ out. option_map (λ all. all.items) out
        ≡ option_map cut_shape (shape_expanded dims.now [] [])) }
{
    if known_product(dims) != 1 {
        return Ok(None);
    }
    let mut all: Vec<u128> = Vec::with_capacity(alloc, dims.len())?;
    fill_open(&mut all, 1, dims)?;
    Ok(Some(all))
}

/// The extents of an expanded tensor, cut; none where they don't follow from those of its source.
pub(crate) fn expanded_shape(
    alloc: Global,
    dims: &[Dim],
    groups: &[Numbers],
    extents: &[u64],
) -> Result<Option<Vec<u128>>, Mem>
    ensures { IfOk result (λ out. option_map (λ all. all.items) out
        ≡ option_map cut_shape (shape_expanded dims.now groups.now extents.now)) }
{
    if groups.len() != extents.len() {
        return Ok(None);
    }
    if groups.is_empty() {
        return expanded_scalar(alloc, dims);
    }
    expanded_groups(alloc, dims, groups, extents)
}
