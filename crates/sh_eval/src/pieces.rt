ghost use Rattle.std.specs.Prelude.{◌≡◌, ◌+◌, ◌-◌, ◌≤◌, ◌&&◌, get_or, length, map, nat_le, nat_lt, option_map, set};
ghost use Rattle.std.specs.List.{AllByRecursion};
ghost use Rattle.sh_base.specs.Cells.{IsCellOf};
ghost use Rattle.sh_base.specs.Shape.{max_rank};
ghost use Rattle.sh_eval.specs.Cuts.{cut, cut_index};
ghost use Rattle.sh_ir.specs.Numbers.{as_natural, as_naturals};
ghost use Rattle.sh_eval.specs.Values.{piece_in};
ghost use Rattle.sh_sem.specs.Pieces.{equal_piece as piece_of_equal, listed_piece as piece_of_listed};
ghost use Rattle.sh_sem.specs.Pieces.{is_own as is_own_index, padded_cell};
ghost use Rattle.sh_sem.specs.Pieces.{without_padding as index_without_padding};
ghost use Rattle.sh_tensor.specs.Tensor.{at as cell_of_tensor, joined_at};

use crate::reading::{entry_at, read};
use sh_base::{Cell, Shape, Width, shape};
use sh_loops::natural;
use sh_tensor::Tensor;
use smallvec::SmallVec;
use std::alloc::Global;

// ---- pieces

/// The index with this coordinate along an axis. It takes no memory.
fn with_coordinate(alloc: Global, index: &[u64], axis: u64, place: u64) -> Shape
    requires short { length index.now ≤ max_rank }
    ensures value { result ≡ set index.now axis place }
    ensures cut { result ≡ cut_index (set index.now axis place) }
{
    let mut places: SmallVec<u64, 6> = SmallVec::new(alloc);
    for (at, other) in index.iter().enumerate() {
        places.push_reserved(if at as u64 == axis { place } else { *other });
    }
    shape(alloc, places.as_slice())
}

/// A coordinate so far on, cut.
fn moved_place(place: u64, start: u128) -> u64
    ensures { result ≡ cut (start + place) }
{
    start
        .saturating_add(u128::from(place))
        .min(u128::from(u64::MAX)) as u64
}

/// The cell of a tensor at an index that is moved along an axis.
pub(crate) fn moved(alloc: Global, t: &Tensor, axis: u64, start: u128, index: &[u64]) -> Cell
    requires short { length index.now ≤ max_rank }
    ensures value { result
        ≡ cell_of_tensor t.now (set index.now axis (start + get_or index.now axis 0)) }
    ensures within { IsCellOf t.now.width result }
{
    let place = moved_place(entry_at(index, axis as usize), start);
    read(t, with_coordinate(alloc, index, axis, place).extents())
}

// ---- padding

/// Whether a coordinate of the padded tensor is one of the tensor's own.
fn is_own_place(low: &i128, extent: u64, place: u64) -> bool
    ensures { result ≡ (nat_le (as_natural low.now) place
        && nat_lt place (as_natural low.now + extent)) }
{
    let low = natural(low);
    let place = u128::from(place);
    low <= place && place < low + u128::from(extent)
}

/// Whether an index of the padded tensor is one of the tensor's own cells.
fn is_own(low: &[i128], extents: &[u64], index: &[u64]) -> bool
    ensures { result ≡ is_own_index (as_naturals low.now) extents.now index.now }
{
    for at in 0..low.len().min(extents.len()).min(index.len()) {
        if !is_own_place(&low[at], extents[at], index[at]) {
            return false;
        }
    }
    true
}

/// A coordinate without the cells before the tensor; 0 among them.
fn place_without(low: &i128, place: u64) -> u64
    ensures { result ≡ place - as_natural low.now }
{
    u128::from(place).saturating_sub(natural(low)) as u64
}

/// The index in the tensor of one of the padded tensor. It takes no memory.
fn without_padding(alloc: Global, low: &[i128], index: &[u64]) -> Shape
    requires short { length index.now ≤ max_rank }
    ensures { result ≡ index_without_padding (as_naturals low.now) index.now }
{
    let mut places: SmallVec<u64, 6> = SmallVec::new(alloc);
    for at in 0..low.len().min(index.len()) {
        places.push_reserved(place_without(&low[at], index[at]));
    }
    shape(alloc, places.as_slice())
}

/// The cell at an index of a padded tensor; undefined outside of the tensor.
pub(crate) fn padded(alloc: Global, low: &[i128], t: &Tensor, index: &[u64]) -> Cell
    requires short { length index.now ≤ max_rank }
    ensures value { result ≡ padded_cell (as_naturals low.now) t.now index.now }
    ensures within { IsCellOf t.now.width result }
{
    if !is_own(low, t.shape().extents(), index) {
        return Cell::Undef;
    }
    read(t, without_padding(alloc, low, index).extents())
}

// ---- joining

/// The cell at an index of tensors of one width that stand one after the other along an axis.
pub(crate) fn joined(alloc: Global, width: Width, axis: u64, ts: &[&Tensor], index: &[u64]) -> Cell
    requires short { length index.now ≤ max_rank }
    requires widths { AllByRecursion (λ t. t.width ≡ width) (map (λ t. t.now) ts.now) }
    ensures value { result ≡ joined_at axis (map (λ t. t.now) ts.now) index.now }
    ensures within { IsCellOf width result }
{
    let mut place = entry_at(index, axis as usize);
    for at in 0..ts.len() {
        let t = ts[at];
        let extent = entry_at(t.shape().extents(), axis as usize);
        if place < extent {
            return read(t, with_coordinate(alloc, index, axis, place).extents());
        }
        place -= extent;
    }
    Cell::Undef
}

// ---- which piece

/// A piece of a tensor along an axis.
#[derive(Clone, Copy)]
pub(crate) struct TensorPiece {
    pub(crate) start: u128,
    pub(crate) size: u128,
}

/// Piece `p` of `n` pieces of one size, if `n` divides the extent.
pub(crate) fn equal_piece(n: u64, p: u64, extent: u64) -> Option<TensorPiece>
    ensures { option_map piece_in result ≡ piece_of_equal n p extent }
{
    if n == 0 || extent % n != 0 {
        return None;
    }
    let size = u128::from(extent / n);
    Some(TensorPiece {
        start: u128::from(p) * size,
        size,
    })
}

/// A written number in a list; 0 where there is none.
fn natural_at(numbers: &[i128], at: u64) -> u128
    ensures { result ≡ get_or (as_naturals numbers.now) at 0 }
{
    match numbers.get(at as usize) {
        Some(number) => natural(number),
        None => 0,
    }
}

/// The piece with the listed start and size at place `p`, if it lies within the extent.
pub(crate) fn listed_piece(
    starts: &[i128],
    sizes: &[i128],
    p: u64,
    extent: u64,
) -> Option<TensorPiece>
    ensures { option_map piece_in result
        ≡ piece_of_listed (as_naturals starts.now) (as_naturals sizes.now) p extent }
{
    let start = natural_at(starts, p);
    let size = natural_at(sizes, p);
    if start.saturating_add(size) > u128::from(extent) {
        return None;
    }
    Some(TensorPiece { start, size })
}
