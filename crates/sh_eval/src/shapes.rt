ghost use Rattle.std.specs.Prelude.{◌≡◌, ◌+◌, ◌≤◌, ◌<◌, ◌^◌, ℕ, List, All, IfOk, IfSome, IsTrue, length, get_or, map, option_map, set};
ghost use Rattle.std.specs.Cmp.Lexicographic.{pointwise};
ghost use Rattle.std.specs.Prelude.{nat_eq};
ghost use Rattle.std.specs.List.{list_all};
ghost use Rattle.sh_base.specs.Shape.{max_rank};
ghost use Rattle.sh_eval.specs.Cuts.{cut_extent, cut_shape};
ghost use Rattle.sh_eval.specs.Shapes.{fits_extent};
ghost use Rattle.sh_ir.specs.Numbers.{as_natural, as_naturals};
ghost use Rattle.sh_sem.specs.Given.{known_shape as shape_known};
ghost use Rattle.sh_sem.specs.Pieces.{is_like as is_like_shape};
ghost use Rattle.sh_sem.specs.Pieces.{joined_shape as shape_joined, padded_shape as shape_padded};
ghost use Rattle.sh_sem.specs.Pieces.{total_extent as extent_of_all};
ghost use Rattle.sh_sem.specs.Types.{have_extents};

use crate::reading::entry_at;
use sh_base::{Mem, Shape, shape};
use sh_ir::Dim;
use sh_loops::natural;
use sh_tensor::Tensor;
use smallvec::SmallVec;
use std::alloc::Global;

// ---- extents that types know

/// The extents of a type that knows all of them. It takes no memory.
pub(crate) fn known_shape(alloc: Global, dims: &[Dim]) -> Option<Shape>
    requires { length dims.now ≤ max_rank }
    ensures { result ≡ shape_known dims.now }
{
    let mut extents: SmallVec<u64, 6> = SmallVec::new(alloc);
    for dim in dims {
        match *dim {
            Dim::Known(extent) => extents.push_reserved(extent),
            Dim::Differs => return None,
        }
    }
    Some(shape(alloc, extents.as_slice()))
}

/// Whether an extent is the one that a type knows, if it knows it.
fn is_extent(dim: Dim, extent: u64) -> bool
    ensures { result ≡ fits_extent dim extent }
{
    match dim {
        Dim::Known(known) => known == extent,
        Dim::Differs => true,
    }
}

/// Whether an extent, cut, is.
fn is_cut_extent(dim: Dim, extent: u128) -> bool
    ensures { (n : ℕ) → extent ≡ cut_extent n → result ≡ fits_extent dim n }
{
    match dim {
        Dim::Known(known) => u128::from(known) == extent,
        Dim::Differs => true,
    }
}

/// Whether the extents are as many as a type says, and those that it knows.
#[tactic(auto, using(crate::proofs::ListRules::next_extent))]
pub(crate) fn has_extents(dims: &[Dim], extents: &[u64]) -> bool
    ensures { result ≡ have_extents dims.now extents.now }
{
    if dims.len() != extents.len() {
        return false;
    }
    for at in 0..dims.len() {
        if !is_extent(dims[at], extents[at]) {
            return false;
        }
    }
    true
}

/// Whether extents, which are cut, are as many as a type says, and those that it knows.
pub(crate) fn has_cut_extents(dims: &[Dim], extents: &[u128]) -> bool
    ensures long { IsTrue result → length dims.now ≡ length extents.now }
    ensures value { (s : List ℕ) → extents.now ≡ cut_shape s → result ≡ have_extents dims.now s }
{
    if dims.len() != extents.len() {
        return false;
    }
    for at in 0..dims.len() {
        if !is_cut_extent(dims[at], extents[at]) {
            return false;
        }
    }
    true
}

/// Extents with room for greater ones.
pub(crate) fn wide(alloc: Global, extents: &[u64]) -> Result<Vec<u128>, Mem>
    ensures value { IfOk result (λ all. all.items ≡ extents.now) }
    ensures cut { IfOk result (λ all. all.items ≡ cut_shape extents.now) }
{
    let mut all: Vec<u128> = Vec::with_capacity(alloc, extents.len())?;
    for extent in extents {
        all.push(u128::from(*extent))?;
    }
    Ok(all)
}

/// The shape of extents that aren't too great. It takes no memory.
pub(crate) fn narrow(alloc: Global, extents: &[u128]) -> Shape
    requires few { length extents.now ≤ max_rank }
    requires small { All (λ n. n < 2 ^ 64) extents.now }
    ensures { result ≡ extents.now }
{
    let mut all: SmallVec<u64, 6> = SmallVec::new(alloc);
    for extent in extents {
        all.push_reserved(*extent as u64);
    }
    shape(alloc, all.as_slice())
}

// ---- extents of pieces, padded and joined tensors

/// The extents with another along an axis.
pub(crate) fn with_extent(
    alloc: Global,
    extents: &[u64],
    axis: u64,
    size: u128,
) -> Result<Vec<u128>, Mem>
    ensures { IfOk result (λ all. all.items ≡ cut_shape (set extents.now axis size)) }
{
    let mut all: Vec<u128> = Vec::with_capacity(alloc, extents.len())?;
    for (at, extent) in extents.iter().enumerate() {
        all.push(if at as u64 == axis {
            size
        } else {
            u128::from(*extent)
        })?;
    }
    Ok(all)
}

/// The extent of a dimension with so many cells before and behind it, cut.
fn padded_extent(low: &i128, high: &i128, extent: u64) -> u128
    ensures { result ≡ cut_extent (as_natural low.now + extent + as_natural high.now) }
{
    natural(low)
        .saturating_add(u128::from(extent))
        .saturating_add(natural(high))
}

/// The extents of a padded tensor, cut.
pub(crate) fn padded_shape(
    alloc: Global,
    low: &[i128],
    high: &[i128],
    extents: &[u64],
) -> Result<Vec<u128>, Mem>
    ensures { IfOk result (λ all. all.items
        ≡ cut_shape (shape_padded (as_naturals low.now) (as_naturals high.now) extents.now)) }
{
    let mut all: Vec<u128> = Vec::with_capacity(alloc, extents.len())?;
    for at in 0..low.len().min(high.len()).min(extents.len()) {
        all.push(padded_extent(&low[at], &high[at], extents[at]))?;
    }
    Ok(all)
}

/// Whether two shapes are one.
pub(crate) fn is_same(s: &[u64], other: &[u64]) -> bool
    ensures { result ≡ pointwise nat_eq s.now other.now }
{
    s == other
}

/// Whether two shapes differ at most in their extents along an axis.
fn is_like(axis: u64, s: &[u64], other: &[u64]) -> bool
    ensures { result ≡ is_like_shape axis s.now other.now }
{
    if s.len() != other.len() {
        return false;
    }
    for at in 0..s.len() {
        if at as u64 != axis && s[at] != other[at] {
            return false;
        }
    }
    true
}

/// Whether the shapes of all tensors differ from this one at most in their extents along an axis.
fn are_like(axis: u64, s: &[u64], ts: &[&Tensor]) -> bool
    ensures { result
        ≡ list_all (is_like_shape axis s.now) (map (λ t. t.shape) (map (λ t. t.now) ts.now)) }
{
    for at in 0..ts.len() {
        if !is_like(axis, s, ts[at].shape().extents()) {
            return false;
        }
    }
    true
}

/// The extents of all tensors along an axis together, cut.
fn total_extent(axis: u64, ts: &[&Tensor]) -> u128
    ensures { result
        ≡ cut_extent (extent_of_all axis (map (λ t. t.shape) (map (λ t. t.now) ts.now))) }
{
    let mut total: u128 = 0;
    for at in 0..ts.len() {
        total = total.saturating_add(u128::from(entry_at(ts[at].shape().extents(), axis as usize)));
    }
    total
}

/// The extents of tensors one after the other along an axis, cut; none where they differ along
/// another, or there is no tensor.
pub(crate) fn joined_shape(
    alloc: Global,
    axis: u64,
    ts: &[&Tensor],
) -> Result<Option<Vec<u128>>, Mem>
    ensures value { IfOk result (λ out. option_map (λ all. all.items) out ≡ option_map cut_shape
        (shape_joined axis (map (λ t. t.shape) (map (λ t. t.now) ts.now)))) }
    ensures some { IfOk result (λ out. IfSome out (λ all. 0 < length ts.now)) }
{
    if ts.len() == 0 {
        return Ok(None);
    }
    let first = ts[0].shape().extents();
    let (_, others) = ts.split_at(1);
    if !are_like(axis, first, others) {
        return Ok(None);
    }
    Ok(Some(with_extent(alloc, first, axis, total_extent(axis, ts))?))
}
