ghost use Rattle.std.specs.Prelude.{◌≡◌, ◌<◌, ◌≤◌, [], All, IfSome, Some, ℕ, get_or, is_some, length, map, option_and_then, option_map};
ghost use Rattle.std.specs.List.{list_all};
ghost use Rattle.sh_base.specs.Limits.{max_devices};
ghost use Rattle.sh_base.specs.Shape.{max_rank};
ghost use Rattle.sh_collectives.specs.Ways.{CanWork, IsGroup, collecting_by, places_asked, source_by};
ghost use Rattle.sh_sem.specs.Collected as collected;
ghost use Rattle.sh_sem.specs.Given.{of_dims};
ghost use Rattle.sh_sem.specs.Pieces as pieces;
ghost use Rattle.sh_sem.specs.Types.{have_extents};

use crate::members::{are_like, are_same, piece_size, total_extent};
use crate::shifts::source;
use crate::sizes::{Sizes, fits, sizes_of, sizes_with};
use crate::ways::{Shifting, Way};
use sh_base::Shape;
use sh_ir::Dim;
use sh_tensor::with_extent;
use std::alloc::Global;

/// The shape of all operands one after the other along an axis.
fn gathered(alloc: Global, axis: u64, shapes: &[&Shape]) -> Option<Sizes>
    requires some { 0 < length shapes.now }
    requires few { length shapes.now ≤ max_devices }
    requires axes { All (λ s. axis < length s) (map (λ s. s.now) shapes.now) }
    ensures value { option_map (λ s. s.items) result
        ≡ pieces.joined_shape axis (map (λ s. s.now) shapes.now) }
    ensures short { IfSome result (λ s. length s.items ≤ max_rank) }
{
    let first = shapes[0];
    if !are_like(alloc, axis, first, &shapes[1..]) {
        return None;
    }
    Some(sizes_with(alloc, first, axis, total_extent(axis, shapes)))
}

/// The one shape of all operands.
fn common<'a>(shapes: &[&'a Shape]) -> Option<&'a Shape>
    requires { 0 < length shapes.now }
    ensures value { option_map (λ s. s.now) result
        ≡ pieces.common_shape (map (λ s. s.now) shapes.now) }
    ensures first { IfSome result (λ s. s.now ≡ get_or (map (λ s. s.now) shapes.now) 0 []) }
{
    let first = shapes[0];
    if !are_same(first, &shapes[1..]) {
        return None;
    }
    Some(first)
}

/// The shape of a combination of all operands.
fn reduced(alloc: Global, shapes: &[&Shape]) -> Option<Sizes>
    requires { 0 < length shapes.now }
    ensures value { option_map (λ s. s.items) result
        ≡ pieces.common_shape (map (λ s. s.now) shapes.now) }
    ensures short { IfSome result (λ s. length s.items ≤ max_rank) }
{
    match common(shapes) {
        Some(s) => Some(sizes_of(alloc, s)),
        None => None,
    }
}

/// The shape of a piece of a tensor.
fn piece_of(alloc: Global, axis: u64, s: &Shape, members: u64) -> Option<Sizes>
    requires { axis < length s.now }
    ensures value { (p : ℕ) → option_map (λ s. s.items) result
        ≡ collected.scattered_shape axis members p s.now }
    ensures short { IfSome result (λ s. length s.items ≤ max_rank) }
{
    match piece_size(s.extents()[axis as usize], members) {
        Some(size) => Some(sizes_with(alloc, s, axis, size as u128)),
        None => None,
    }
}

/// The shape of a piece of the combination of all operands.
fn scattered(alloc: Global, axis: u64, shapes: &[&Shape]) -> Option<Sizes>
    requires some { 0 < length shapes.now }
    requires axes { All (λ s. axis < length s) (map (λ s. s.now) shapes.now) }
    ensures value { (p : ℕ) → option_map (λ s. s.items) result
        ≡ option_and_then (collected.scattered_shape axis (length shapes.now) p)
        (pieces.common_shape (map (λ s. s.now) shapes.now)) }
    ensures short { IfSome result (λ s. length s.items ≤ max_rank) }
{
    match common(shapes) {
        Some(s) => piece_of(alloc, axis, s, shapes.len() as u64),
        None => None,
    }
}

/// The shape of so many pieces of a tensor, one after the other.
fn pieces_of(alloc: Global, split: u64, concat: u64, s: &Shape, members: u64) -> Option<Sizes>
    requires split { split < length s.now }
    requires concat { concat < length s.now }
    requires few { members ≤ max_devices }
    ensures value { (p : ℕ) → option_map (λ s. s.items) result
        ≡ collected.exchanged_shape split concat members p s.now }
    ensures short { IfSome result (λ s. length s.items ≤ max_rank) }
{
    match piece_size(s.extents()[split as usize], members) {
        Some(size) => {
            let part = with_extent(alloc, s, split, size);
            let extent = part.extents()[concat as usize];
            Some(sizes_with(alloc, &part, concat, members as u128 * extent as u128))
        }
        None => None,
    }
}

/// The shape of a piece of each operand, one after the other.
fn exchanged(alloc: Global, split: u64, concat: u64, shapes: &[&Shape]) -> Option<Sizes>
    requires some { 0 < length shapes.now }
    requires few { length shapes.now ≤ max_devices }
    requires split { All (λ s. split < length s) (map (λ s. s.now) shapes.now) }
    requires concat { All (λ s. concat < length s) (map (λ s. s.now) shapes.now) }
    ensures value { (p : ℕ) → option_map (λ s. s.items) result
        ≡ option_and_then (collected.exchanged_shape split concat (length shapes.now) p)
        (pieces.common_shape (map (λ s. s.now) shapes.now)) }
    ensures short { IfSome result (λ s. length s.items ≤ max_rank) }
{
    match common(shapes) {
        Some(s) => pieces_of(alloc, split, concat, s, shapes.len() as u64),
        None => None,
    }
}

/// The shape that a shift gives at a place: that of the source, or the own one.
fn moved<'a>(alloc: Global, x: &Shifting, shapes: &[&'a Shape], place: u64) -> &'a Shape
    requires group { IsGroup x.now (length shapes.now) }
    requires few { length shapes.now ≤ max_devices }
    requires place { place < length shapes.now }
    ensures { Some result.now
        ≡ collected.shifted_shape (source_by x.now place) place (map (λ s. s.now) shapes.now) }
{
    match source(alloc, x, place) {
        Some(from) => shapes[from as usize],
        None => shapes[place as usize],
    }
}

/// The extents that a collective gives at a place; none where sizes disagree.
pub(crate) fn sizes_at(alloc: Global, way: &Way, shapes: &[&Shape], place: u64) -> Option<Sizes>
    requires works { CanWork way.now (map (λ s. s.now) shapes.now) }
    requires place { place < length shapes.now }
    ensures value { option_map (λ s. s.items) result
        ≡ (collecting_by way.now).shape place (map (λ s. s.now) shapes.now) }
    ensures short { IfSome result (λ s. length s.items ≤ max_rank) }
{
    match way {
        Way::Gather(axis) => gathered(alloc, *axis, shapes),
        Way::Reduce(_) => reduced(alloc, shapes),
        Way::Scatter(_, axis) => scattered(alloc, *axis, shapes),
        Way::Exchange(split, concat) => exchanged(alloc, *split, *concat, shapes),
        Way::Shift(x) => Some(sizes_of(alloc, moved(alloc, x, shapes, place))),
    }
}

/// Whether all operands have the extents that their type knows.
pub(crate) fn operands_fit(alloc: Global, dims: &[Dim], shapes: &[&Shape]) -> bool
    ensures { result ≡ list_all (have_extents dims.now) (map (λ s. s.now) shapes.now) }
{
    for shape in shapes {
        let sizes = sizes_of(alloc, shape);
        if !fits(dims, sizes.as_slice()) {
            return false;
        }
    }
    true
}

/// The extents, where they are those that a type knows.
fn if_fitting(dims: &[Dim], sizes: Sizes) -> Option<Sizes>
    ensures value { option_map (λ s. s.items) result ≡ of_dims dims.now sizes.items }
    ensures same { IfSome result (λ s. s ≡ sizes) }
{
    if fits(dims, sizes.as_slice()) {
        Some(sizes)
    } else {
        None
    }
}

/// The extents that a collective gives at a place, where they are those that its result's type
/// knows.
pub(crate) fn fitting_at(
    alloc: Global,
    dims: &[Dim],
    way: &Way,
    shapes: &[&Shape],
    place: u64,
) -> Option<Sizes>
    requires works { CanWork way.now (map (λ s. s.now) shapes.now) }
    requires place { place < length shapes.now }
    ensures value { option_map (λ s. s.items) result ≡ option_and_then (of_dims dims.now)
        ((collecting_by way.now).shape place (map (λ s. s.now) shapes.now)) }
    ensures short { IfSome result (λ s. length s.items ≤ max_rank) }
{
    match sizes_at(alloc, way, shapes, place) {
        Some(sizes) => if_fitting(dims, sizes),
        None => None,
    }
}

/// How many places of a group are asked for their results: only those of a shift differ in shape
/// from place to place.
fn asked(way: &Way, members: usize) -> usize
    ensures value { result ≡ places_asked way.now members }
    ensures within { result ≤ members }
{
    match way {
        Way::Shift(_) => members,
        Way::Gather(_) | Way::Reduce(_) | Way::Scatter(..) | Way::Exchange(..) => members.min(1),
    }
}

/// Whether each place has a result of the extents that a type knows.
pub(crate) fn all_fit(alloc: Global, dims: &[Dim], way: &Way, shapes: &[&Shape]) -> bool
    requires { CanWork way.now (map (λ s. s.now) shapes.now) }
    ensures { result ≡ is_some (collected.shapes_by dims.now (map (λ s. s.now) shapes.now)
        (collecting_by way.now)) }
{
    for place in 0..asked(way, shapes.len()) {
        match fitting_at(alloc, dims, way, shapes, place as u64) {
            Some(_) => {}
            None => return false,
        }
    }
    true
}
