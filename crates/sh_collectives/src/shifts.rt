ghost use Rattle.std.specs.Prelude.{◌≡◌, ◌<◌, ◌≤◌, IfSome, Some, true, false, length, pos};
ghost use Rattle.std.specs.Int.{int_rem_euclid};
ghost use Rattle.sh_base.specs.Limits.{max_devices};
ghost use Rattle.sh_base.specs.Shape.{cell_count};
ghost use Rattle.sh_collectives.specs.Ways.{source_by};
ghost use Rattle.sh_sem.specs.Collected as collected;

use crate::ways::Shifting;
use sh_base::{flat, unflat};
use sh_tensor::with_extent;
use std::alloc::Global;

/// An offset in a ring of this extent.
fn steps_in(extent: u64, offset: i128) -> u64
    requires some { 0 < extent }
    requires few { extent ≤ max_devices }
    ensures value { pos result ≡ int_rem_euclid offset (pos extent) }
    ensures within { result < extent }
{
    offset.rem_euclid(extent as i128) as u64
}

/// A coordinate less an offset, round the axis.
fn rotated(extent: u64, coordinate: u64, offset: i128) -> u64
    requires within { coordinate < extent }
    requires few { extent ≤ max_devices }
    ensures value { Some result ≡ collected.shifted extent true coordinate offset }
    ensures within { result < extent }
{
    (coordinate + extent - steps_in(extent, offset)) % extent
}

/// A coordinate less an offset, where it is in the axis.
fn moved(extent: u64, coordinate: u64, offset: i128) -> Option<u64>
    requires within { coordinate < extent }
    requires few { extent ≤ max_devices }
    ensures value { result ≡ collected.shifted extent false coordinate offset }
    ensures within { IfSome result (λ c. c < extent) }
{
    let extent = extent as i128;
    if offset <= -extent || extent <= offset {
        return None;
    }
    let source = coordinate as i128 - offset;
    if source < 0 || extent <= source {
        return None;
    }
    Some(source as u64)
}

/// A coordinate less the offset of a shift.
fn shifted(x: &Shifting, extent: u64, coordinate: u64) -> Option<u64>
    requires within { coordinate < extent }
    requires few { extent ≤ max_devices }
    ensures value { result ≡ collected.shifted extent x.now.rotate coordinate x.now.offset }
    ensures within { IfSome result (λ c. c < extent) }
{
    if x.rotate {
        Some(rotated(extent, coordinate, x.offset))
    } else {
        moved(extent, coordinate, x.offset)
    }
}

/// The place from which a shift takes the operand for a place, if there is one.
pub(crate) fn source(alloc: Global, x: &Shifting, place: u64) -> Option<u64>
    requires place { place < cell_count x.now.extents }
    requires few { cell_count x.now.extents ≤ max_devices }
    requires along { IfSome x.now.along (λ along. along < length x.now.extents) }
    ensures value { result ≡ source_by x.now place }
    ensures within { IfSome result (λ p. p < cell_count x.now.extents) }
{
    let along = match x.along {
        Some(along) => along,
        None => return None,
    };
    let coordinates = unflat(alloc, &x.extents, place);
    let extent = x.extents.extents()[along as usize];
    let coordinate = coordinates.extents()[along as usize];
    match shifted(x, extent, coordinate) {
        Some(other) => Some(flat(&x.extents, &with_extent(alloc, &coordinates, along, other))),
        None => None,
    }
}
