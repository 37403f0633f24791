ghost use Rattle.std.specs.Prelude.{◌≡◌, ◌+◌, ◌-◌, ◌*◌, ◌≤◌, ◌&&◌, flat_map, get_or, length, min, nat_eq, nat_lt};
ghost use Rattle.std.specs.Cmp.Lexicographic.{pointwise};
ghost use Rattle.std.specs.List.{list_all, range_with_len};
ghost use Rattle.sh_ir.specs.declared.types.Dim.TheVariants.{Differs, Known};
ghost use Rattle.sh_ir.specs.Agreement as agreement;
ghost use Rattle.sh_ir.specs.Attributes as attributes;
ghost use Rattle.sh_ir.specs.Formed.{is_not_negative};
ghost use Rattle.sh_ir.specs.Numbers as numbers;
ghost use Rattle.sh_ir.specs.Results as results;
ghost use Rattle.sh_verify.specs.Lists.{above_extents, counts_on};

use crate::numbers::{all_naturals, are_naturals, are_positive, natural};
use crate::sizes::dims;
use sh_base::Numbers;
use sh_ir::{Dim, ExpandShape, Slice};

// ---- slices

/// Whether the last cell of a slice of one dimension lies below an extent.
fn ends_below(offset: u128, size: u128, stride: u128, extent: u64) -> bool
    ensures { result ≡ nat_lt (offset + (size - 1) * stride) extent }
{
    let last = match size.saturating_sub(1).checked_mul(stride) {
        Some(way) => offset.checked_add(way),
        None => None,
    };
    match last {
        Some(place) => place < extent as u128,
        None => false,
    }
}

/// Whether the cells of a slice of one dimension lie within an extent.
fn in_extent(offset: u128, size: u128, stride: u128, dim: Dim) -> bool
    ensures { result ≡ attributes.in_extent offset size stride dim }
{
    match dim {
        Dim::Known(extent) => ends_below(offset, size, stride, extent),
        Dim::Differs => true,
    }
}

fn in_extents(offsets: &[i128], sizes: &[i128], strides: &[i128], dims: &[Dim]) -> bool
    requires offsets { length offsets.now ≡ length dims.now }
    requires sizes { length sizes.now ≡ length dims.now }
    requires strides { length strides.now ≡ length dims.now }
    ensures { result ≡ attributes.in_extents (numbers.as_naturals offsets.now)
        (numbers.as_naturals sizes.now) (numbers.as_naturals strides.now) dims.now }
{
    for (at, dim) in dims.iter().enumerate() {
        let size = natural(&sizes[at]);
        if !in_extent(natural(&offsets[at]), size, natural(&strides[at]), *dim) {
            return false;
        }
    }
    true
}

/// A number of each list for each dimension, in order, and all cells in range where that is known.
#[tactic(auto, unfolding(sh_ir::specs::Attributes::slice_fits))]
pub(crate) fn slice_fits(x: &Slice, dims: &[Dim]) -> bool
    ensures { result ≡ attributes.slice_fits x.now dims.now }
{
    let offsets = x.offsets.as_slice();
    let sizes = x.sizes.as_slice();
    let strides = x.strides.as_slice();
    if !are_naturals(dims.len(), offsets) || !are_positive(dims.len(), sizes) {
        return false;
    }
    are_positive(dims.len(), strides) && in_extents(offsets, sizes, strides, dims)
}

// ---- groups of dimensions

fn are_not_empty(groups: &[Numbers]) -> bool
    ensures { result ≡ list_all (λ group. nat_lt 0 (length group)) groups.now }
{
    groups.iter().all(|group| group.len() > 0)
}

fn are_not_negative(groups: &[Numbers]) -> bool
    ensures { result ≡ list_all (λ group. list_all is_not_negative group) groups.now }
{
    groups.iter().all(|group| all_naturals(group.as_slice()))
}

/// Whether a number is the next one, and below the bound.
fn comes_next(next: usize, bound: usize, number: &i128) -> bool
    ensures { result ≡ (nat_lt next bound && nat_eq (numbers.as_natural number.now) next) }
{
    next < bound && natural(number) == next as u128
}

/// Where numbers that go on from one, each the next, have come to; nothing where they don't, or
/// pass the bound.
fn count_on(from: usize, bound: usize, group: &[i128]) -> Option<usize>
    requires { from ≤ bound }
    ensures { result ≡ counts_on from bound (numbers.as_naturals group.now) }
{
    let mut next = from;
    for number in group {
        if !comes_next(next, bound, number) {
            return None;
        }
        next = next + 1;
    }
    Some(next)
}

/// Whether the groups have all numbers below the bound, in order.
fn count_up(bound: usize, groups: &[Numbers]) -> bool
    ensures { result ≡ pointwise nat_eq (flat_map numbers.as_naturals groups.now)
        (range_with_len 0 bound) }
{
    let mut next: usize = 0;
    for group in groups {
        match count_on(next, bound, group.as_slice()) {
            Some(after) => next = after,
            None => return false,
        }
    }
    next == bound
}

fn are_groups_of(bound: usize, groups: &[Numbers]) -> bool
    ensures { result ≡ numbers.are_groups_of bound groups.now }
{
    are_not_empty(groups) && are_not_negative(groups) && count_up(bound, groups)
}

/// The groups of a reshape: one for each dimension of the side of fewer, of all dimensions of the
/// other; none where that side has rank 0.
#[tactic(auto, unfolding(sh_ir::specs::Attributes::groups_fit))]
pub(crate) fn groups_fit(few: usize, many: usize, groups: &[Numbers]) -> bool
    ensures { result ≡ attributes.groups_fit few many groups.now }
{
    groups.len() == few && (few == 0 || are_groups_of(many, groups))
}

#[tactic(auto, unfolding(sh_ir::specs::Attributes::expansion_fits))]
pub(crate) fn expansion_fits(x: &ExpandShape, rank: usize) -> bool
    ensures { result ≡ attributes.expansion_fits x.now rank }
{
    groups_fit(dims(&x.source_type).len(), rank, x.reassociation.as_slice())
        && are_naturals(rank, x.output_shape.as_slice())
}

// ---- products

/// No extent is as great: two to the 64th.
const ABOVE_EXTENTS: u128 = 1 << 64;

/// A product, no more than the first number that no extent reaches.
pub(crate) fn cut_product(count: u128, factor: u128) -> u128
    ensures { result ≡ min (count * factor) above_extents }
{
    match count.checked_mul(factor) {
        Some(product) => product.min(ABOVE_EXTENTS),
        None => ABOVE_EXTENTS,
    }
}

/// The dimension of a number; `?` where there is none.
fn dim_at(dims: &[Dim], number: &i128) -> Dim
    ensures { result ≡ get_or dims.now (numbers.as_natural number.now) Differs }
{
    let at = natural(number);
    if at < dims.len() as u128 {
        dims[at as usize]
    } else {
        Dim::Differs
    }
}

/// Whether dimensions have so many cells together, as far as that is known.
fn have_cells(count: u64, dims: &[Dim]) -> bool
    ensures { result ≡ agreement.dims_agree (Known count) (results.product_dim dims.now) }
{
    let mut product: u128 = 1;
    for dim in dims {
        match *dim {
            Dim::Known(extent) => product = cut_product(product, extent as u128),
            Dim::Differs => return true,
        }
    }
    product == count as u128
}

/// The same of those of a group.
fn has_cells(count: u64, dims: &[Dim], group: &[i128]) -> bool
    ensures { result ≡ agreement.dims_agree (Known count)
        (results.product_dim (results.dims_at dims.now group.now)) }
{
    let mut product: u128 = 1;
    for number in group {
        match dim_at(dims, number) {
            Dim::Known(extent) => product = cut_product(product, extent as u128),
            Dim::Differs => return true,
        }
    }
    product == count as u128
}

/// Whether a dimension has the cells of a group, as far as both are known.
fn stands_for(dim: Dim, dims: &[Dim], group: &[i128]) -> bool
    ensures { result ≡ agreement.dims_agree dim
        (results.product_dim (results.dims_at dims.now group.now)) }
{
    match dim {
        Dim::Known(count) => has_cells(count, dims, group),
        Dim::Differs => true,
    }
}

fn stand_for(few: &[Dim], groups: &[Numbers], many: &[Dim]) -> bool
    ensures { result ≡ pointwise (λ e group. agreement.dims_agree e
        (results.product_dim (results.dims_at many.now group))) few.now groups.now }
{
    if few.len() != groups.len() {
        return false;
    }
    for (at, dim) in few.iter().enumerate() {
        if !stands_for(*dim, many, groups[at].as_slice()) {
            return false;
        }
    }
    true
}

/// Each dimension of the side of fewer has the cells of its group; one of rank 0 has one cell.
#[tactic(auto, unfolding(sh_ir::specs::Results::products_fit))]
pub(crate) fn products_fit(few: &[Dim], groups: &[Numbers], many: &[Dim]) -> bool
    ensures { result ≡ results.products_fit few.now groups.now many.now }
{
    if few.is_empty() {
        have_cells(1, many)
    } else {
        stand_for(few, groups, many)
    }
}
