ghost use Rattle.std.specs.Prelude.{◌≡◌, ◌<◌, ◌≤◌, ◌%◌, ◌/◌, ◌==◌, All, length, map, nat_eq, get_or, if◌then◌else◌, Some, None, slice_index, option_map, ℕ};
ghost use Rattle.std.specs.Cmp.Lexicographic.{pointwise};
ghost use Rattle.std.specs.List.{list_all};
ghost use Rattle.sh_base.specs.Limits.{max_devices};
ghost use Rattle.sh_sem.specs.Pieces as pieces;

use sh_base::Shape;
use sh_tensor::with_extent;
use std::alloc::Global;

/// Whether two shapes are one.
fn is_same(s: &Shape, other: &Shape) -> bool
    ensures { result ≡ pointwise nat_eq s.now other.now }
{
    s.extents() == other.extents()
}

/// Whether all these shapes are one with the first.
pub(crate) fn are_same(first: &Shape, others: &[&Shape]) -> bool
    ensures { result ≡ list_all (pointwise nat_eq first.now) (map (λ s. s.now) others.now) }
{
    for other in others {
        if !is_same(first, other) {
            return false;
        }
    }
    true
}

/// Whether two shapes differ at most in their extents along an axis.
fn is_like(alloc: Global, axis: u64, s: &Shape, other: &Shape) -> bool
    requires axis { axis < length s.now }
    requires axis_too { axis < length other.now }
    ensures { result ≡ pieces.is_like axis s.now other.now }
{
    let left = with_extent(alloc, s, axis, 0);
    let right = with_extent(alloc, other, axis, 0);
    is_same(&left, &right)
}

/// Whether all these shapes differ from the first at most in their extents along an axis.
pub(crate) fn are_like(alloc: Global, axis: u64, first: &Shape, others: &[&Shape]) -> bool
    requires axis { axis < length first.now }
    requires axes { All (λ s. axis < length s.now) others.now }
    ensures { result ≡ list_all (pieces.is_like axis first.now) (map (λ s. s.now) others.now) }
{
    for other in others {
        if !is_like(alloc, axis, first, other) {
            return false;
        }
    }
    true
}

/// The extents along an axis together.
pub(crate) fn total_extent(axis: u64, shapes: &[&Shape]) -> u128
    requires axes { All (λ s. axis < length s.now) shapes.now }
    requires few { length shapes.now ≤ max_devices }
    ensures { result ≡ pieces.total_extent axis (map (λ s. s.now) shapes.now) }
{
    let mut total = 0u128;
    for shape in shapes {
        total += shape.extents()[axis as usize] as u128;
    }
    total
}

/// The size of each of so many pieces of an extent, if they divide it.
pub(crate) fn piece_size(extent: u64, members: u64) -> Option<u64>
    ensures { (p : ℕ) → option_map (λ x. x.size) (pieces.equal_piece members p extent) ≡ result }
{
    if members == 0 || extent % members != 0 {
        return None;
    }
    Some(extent / members)
}
