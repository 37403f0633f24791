ghost use Rattle.std.specs.Prelude.{IfSome, option_map, ◌≡◌, ◌+◌, ◌*◌, ◌≤◌, ◌<◌, ◌^◌, ◌↔◌, IsTrue, All, length, max, min, set, get_or};
ghost use Rattle.sh_base.specs.Shape.{max_cells, max_rank};
ghost use Rattle.sh_collectives.specs.Sizes as spec;
ghost use Rattle.sh_sem.specs.Types.{have_extents};
ghost use Rattle.sh_sharding.specs.Sharding.{counted_cells};

use sh_base::{MAX_CELLS, Shape, shape};
use sh_ir::Dim;
use smallvec::SmallVec;
use std::alloc::Global;

/// The shape of a collective's result at a place.
#[derive(Drop)]
pub enum Shaped {
    /// There is none: the group mismatches.
    Mismatch,
    /// It has more than 1,048,576 cells, an extent of 0 being counted as 1.
    TooLarge,
    Fits(Shape),
}

/// Extents, which may be larger than those of a tensor in memory.
pub(crate) type Sizes = SmallVec<u128, 6>;

/// The extents of a shape.
pub(crate) fn sizes_of(alloc: Global, s: &Shape) -> Sizes
    ensures value { result.items ≡ s.now }
    ensures short { length result.items ≤ max_rank }
{
    let extents = s.extents();
    let mut sizes: Sizes = SmallVec::new(alloc);
    for extent in extents {
        sizes.push_reserved(*extent as u128);
    }
    sizes
}

/// The extent at a place, where the axis has another.
fn size_at(extents: &[u64], axis: u64, size: u128, at: usize) -> u128
    requires { at < length extents.now }
    ensures { result ≡ get_or (set extents.now axis size) at 0 }
{
    if at as u64 == axis {
        return size;
    }
    extents[at] as u128
}

/// The extents of a shape, with another on an axis.
pub(crate) fn sizes_with(alloc: Global, s: &Shape, axis: u64, size: u128) -> Sizes
    ensures value { result.items ≡ set s.now axis size }
    ensures short { length result.items ≤ max_rank }
{
    let extents = s.extents();
    let mut sizes: Sizes = SmallVec::new(alloc);
    for at in 0..extents.len() {
        sizes.push_reserved(size_at(extents, axis, size, at));
    }
    sizes
}

/// Whether an extent is the one that a dimension knows.
fn is_extent(dim: Dim, size: u128) -> bool
    ensures { result ≡ spec.is_extent dim size }
{
    match dim {
        Dim::Known(extent) => extent as u128 == size,
        Dim::Differs => true,
    }
}

/// Whether the extents are as many as a type's, and those that it knows.
pub(crate) fn fits(dims: &[Dim], sizes: &[u128]) -> bool
    ensures { result ≡ have_extents dims.now sizes.now }
{
    if dims.len() != sizes.len() {
        return false;
    }
    for at in 0..dims.len() {
        if !is_extent(dims[at], sizes[at]) {
            return false;
        }
    }
    true
}

/// A number of cells with one dimension more, an extent of 0 being counted as 1; as one more than
/// the limit where it is greater.
fn counted_with(total: u128, size: u128) -> u128
    requires { total ≤ max_cells + 1 }
    ensures { result ≡ min (total * max 1 size) (max_cells + 1) }
{
    total
        .saturating_mul(size.max(1))
        .min(u128::from(MAX_CELLS) + 1)
}

/// Whether a tensor of these extents has at most 1,048,576 cells, an extent of 0 being counted as 1.
fn is_small(sizes: &[u128]) -> bool
    ensures { result ≡ spec.is_small sizes.now }
{
    let mut total = 1u128;
    for size in sizes {
        total = counted_with(total, *size);
    }
    total <= u128::from(MAX_CELLS)
}

/// The shape of these extents.
fn shape_with(alloc: Global, sizes: &[u128]) -> Shape
    requires short { length sizes.now ≤ max_rank }
    requires small { All (λ n. n < 2 ^ 64) sizes.now }
    ensures { result ≡ sizes.now }
{
    let mut extents: SmallVec<u64, 6> = SmallVec::new(alloc);
    for size in sizes {
        extents.push_reserved(*size as u64);
    }
    shape(alloc, extents.as_slice())
}

/// The shape of these extents, unless a tensor of it has too many cells.
pub(crate) fn small_shape(alloc: Global, sizes: &[u128]) -> Option<Shape>
    requires { length sizes.now ≤ max_rank }
    ensures { result ≡ spec.small_shape sizes.now }
{
    if is_small(sizes) {
        Some(shape_with(alloc, sizes))
    } else {
        None
    }
}

/// What is answered of extents that are there, or aren't.
pub(crate) fn answer_of(alloc: Global, sizes: Option<Sizes>) -> Shaped
    requires { IfSome sizes (λ s. length s.items ≤ max_rank) }
    ensures { result ≡ spec.shaped (option_map (λ s. s.items) sizes) }
{
    let Some(sizes) = sizes else {
        return Shaped::Mismatch;
    };
    match small_shape(alloc, sizes.as_slice()) {
        Some(shape) => Shaped::Fits(shape),
        None => Shaped::TooLarge,
    }
}
