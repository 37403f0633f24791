ghost use Rattle.std.specs.Prelude.{◌≡◌, ◌+◌, ◌*◌, ◌/◌, ◌≤◌, length, nat_eq, IfOk};
ghost use Rattle.sh_base.specs.Shape.{max_rank};
ghost use Rattle.std.specs.List.{list_all};
ghost use Rattle.std.specs.Cmp.Lexicographic.{pointwise};
ghost use Rattle.sh_base.specs.Cells.{IsCellOf};
ghost use Rattle.sh_eval.specs.Cuts.{cut, cut_index, cut_shape};
ghost use Rattle.sh_eval.specs.Slices.{range_in, ranges_in};
ghost use Rattle.sh_ir.specs.Numbers.{as_natural};
ghost use Rattle.sh_sem.specs.Slices.{coordinate_in as coordinate_of_range, extracted_cell};
ghost use Rattle.sh_sem.specs.Slices.{index_in as index_of_ranges, inserted_cell, lies_within};
ghost use Rattle.sh_sem.specs.Slices.{range_of as range_of_dim, ranges_of as ranges_of_slice};
ghost use Rattle.sh_sem.specs.Slices.{sizes_of, sliced_index as index_sliced};

use crate::reading::read;
use sh_base::{Cell, Items, Mem, Shape, shape};
use sh_ir::{Dim, Slice};
use sh_loops::natural;
use sh_tensor::Tensor;
use smallvec::SmallVec;
use std::alloc::Global;

/// A slice of one dimension.
#[derive(Clone, Copy)]
pub(crate) struct SliceRange {
    /// The extent of the dimension that is sliced.
    pub(crate) extent: u64,
    pub(crate) offset: u128,
    pub(crate) size: u128,
    pub(crate) stride: u128,
}

/// The slice of a dimension. One whose extent the type leaves open is taken whole.
fn range_of(dim: Dim, extent: u64, offset: &i128, size: &i128, stride: &i128) -> SliceRange
    ensures { range_in result ≡ range_of_dim dim extent (as_natural offset.now)
        (as_natural size.now) (as_natural stride.now) }
{
    match dim {
        Dim::Known(_) => SliceRange {
            extent,
            offset: natural(offset),
            size: natural(size),
            stride: natural(stride),
        },
        Dim::Differs => SliceRange {
            extent,
            offset: 0,
            size: u128::from(extent),
            stride: 1,
        },
    }
}

/// The slices of all dimensions, by the type and the extents of the tensor that is sliced.
pub(crate) fn ranges_of(
    alloc: Global,
    slice: &Slice,
    dims: &[Dim],
    extents: &[u64],
) -> Result<Items<SliceRange>, Mem>
    ensures { IfOk result (λ ranges. ranges_in ranges
        ≡ ranges_of_slice slice.now dims.now extents.now) }
{
    let offsets = slice.offsets.as_slice();
    let sizes = slice.sizes.as_slice();
    let strides = slice.strides.as_slice();
    let fewest = offsets.len().min(sizes.len()).min(strides.len());
    let mut ranges: Vec<SliceRange> = Vec::new(alloc);
    for at in 0..dims.len().min(extents.len()).min(fewest) {
        ranges.push(range_of(
            dims[at],
            extents[at],
            &offsets[at],
            &sizes[at],
            &strides[at],
        ))?;
    }
    Ok(Items::from_vec(ranges))
}

/// Whether all cells of a slice lie in the tensor.
fn is_inside(range: &SliceRange) -> bool
    ensures { result ≡ lies_within (range_in range.now) }
{
    if range.size == 0 {
        return true;
    }
    let last = (range.size - 1).saturating_mul(range.stride);
    range.offset.saturating_add(last) < u128::from(range.extent)
}

/// Whether all cells of the slices of all dimensions do.
pub(crate) fn are_inside(ranges: &[SliceRange]) -> bool
    ensures { result ≡ list_all lies_within (ranges_in ranges.now) }
{
    for range in ranges {
        if !is_inside(range) {
            return false;
        }
    }
    true
}

/// The sizes of slices.
pub(crate) fn sizes(alloc: Global, ranges: &[SliceRange]) -> Result<Vec<u128>, Mem>
    ensures { IfOk result (λ sizes. sizes.items ≡ cut_shape (sizes_of (ranges_in ranges.now))) }
{
    let mut sizes: Vec<u128> = Vec::new(alloc);
    for range in ranges {
        sizes.push(range.size)?;
    }
    Ok(sizes)
}

/// Whether the sizes of slices are these extents.
pub(crate) fn are_extents(ranges: &[SliceRange], extents: &[u64]) -> bool
    ensures { result ≡ pointwise nat_eq (sizes_of (ranges_in ranges.now)) extents.now }
{
    if ranges.len() != extents.len() {
        return false;
    }
    for at in 0..ranges.len() {
        if ranges[at].size != u128::from(extents[at]) {
            return false;
        }
    }
    true
}

// ---- the cells of a slice

/// Where a coordinate of a slice stands in the tensor, cut.
fn sliced_place(range: &SliceRange, place: u64) -> u64
    ensures { result ≡ cut ((range_in range.now).offset + place * (range_in range.now).stride) }
{
    let behind = u128::from(place).saturating_mul(range.stride);
    range
        .offset
        .saturating_add(behind)
        .min(u128::from(u64::MAX)) as u64
}

/// Where the cell at an index of a slice stands in the tensor, cut. It takes no memory.
fn sliced_index(alloc: Global, ranges: &[SliceRange], index: &[u64]) -> Shape
    requires short { length index.now ≤ max_rank }
    ensures { result ≡ cut_index (index_sliced (ranges_in ranges.now) index.now) }
{
    let mut places: SmallVec<u64, 6> = SmallVec::new(alloc);
    for at in 0..ranges.len().min(index.len()) {
        places.push_reserved(sliced_place(&ranges[at], index[at]));
    }
    shape(alloc, places.as_slice())
}

/// The cell at an index of a slice.
pub(crate) fn sliced(alloc: Global, ranges: &[SliceRange], t: &Tensor, index: &[u64]) -> Cell
    requires short { length index.now ≤ max_rank }
    ensures value { result ≡ extracted_cell (ranges_in ranges.now) t.now index.now }
    ensures within { IsCellOf t.now.width result }
{
    read(t, sliced_index(alloc, ranges, index).extents())
}

// ---- the cells into which a slice goes

/// A quotient; 0 where the divisor is.
fn quotient(dividend: u128, divisor: u128) -> u128
    ensures { result ≡ dividend / divisor }
{
    if divisor == 0 {
        return 0;
    }
    dividend / divisor
}

/// The coordinate in a slice of a coordinate of the tensor, if the slice has one there.
fn coordinate_in(range: &SliceRange, place: u64) -> Option<u64>
    ensures { result ≡ coordinate_of_range (range_in range.now) place }
{
    let place = u128::from(place);
    if place < range.offset {
        return None;
    }
    let steps = quotient(place - range.offset, range.stride);
    if steps >= range.size {
        return None;
    }
    if range.offset + steps * range.stride != place {
        return None;
    }
    Some(steps as u64)
}

/// The index in a slice of an index of the tensor, if the slice has it. It takes no memory.
fn index_in(alloc: Global, ranges: &[SliceRange], index: &[u64]) -> Option<Shape>
    requires short { length index.now ≤ max_rank }
    ensures { result ≡ index_of_ranges (ranges_in ranges.now) index.now }
{
    let mut places: SmallVec<u64, 6> = SmallVec::new(alloc);
    for at in 0..ranges.len().min(index.len()) {
        match coordinate_in(&ranges[at], index[at]) {
            Some(place) => places.push_reserved(place),
            None => return None,
        }
    }
    Some(shape(alloc, places.as_slice()))
}

/// The source's cell where the slice has the index, else the destination's own.
pub(crate) fn inserted(
    alloc: Global,
    ranges: &[SliceRange],
    source: &Tensor,
    destination: &Tensor,
    index: &[u64],
) -> Cell
    requires short { length index.now ≤ max_rank }
    requires widths { destination.now.width ≡ source.now.width }
    ensures value { result
        ≡ inserted_cell (ranges_in ranges.now) source.now destination.now index.now }
    ensures within { IsCellOf source.now.width result }
{
    match index_in(alloc, ranges, index) {
        Some(place) => read(source, place.extents()),
        None => read(destination, index),
    }
}
