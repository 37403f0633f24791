ghost use Rattle.std.specs.Prelude.{◌≡◌, ◌+◌, ◌*◌, ◌<◌, ◌≤◌, All, IfOk, Some, length, map, option_and_then};
ghost use Rattle.sh_base.specs.Shape.{cell_count, max_cells};
ghost use Rattle.sh_collectives.specs.Operands.{AreTensors, pieces_at};
ghost use Rattle.sh_sem.specs.Collected.{combined_at, exchanged_shape, piece_of, scattered_shape};
ghost use Rattle.sh_sem.specs.Pieces.{common_shape};
ghost use Rattle.sh_tensor.specs.Tensor as tensor;

use crate::combining::combine;
use crate::joining::join;
use crate::members::piece_size;
use sh_base::{Kind, Mem, Shape, Width};
use sh_tensor::{Tensor, copy, slice};
use std::alloc::Global;

/// Where the piece at a place starts, of pieces of one size.
fn start_of(extent: u64, place: u64, size: u64) -> u64
    requires { place * size + size ≤ extent }
    ensures { result ≡ place * size }
{
    place * size
}

/// A piece of a tensor along an axis, of so many of one size; the whole where they can't be.
fn piece(alloc: Global, axis: u64, t: &Tensor, members: u64, place: u64) -> Result<Tensor, Mem>
    requires axis { axis < length t.now.shape }
    requires place { place < members }
    ensures { IfOk result (λ part. part ≡ piece_of axis members place t.now) }
{
    let extent = t.shape().extents()[axis as usize];
    match piece_size(extent, members) {
        Some(size) => slice(alloc, t, axis, start_of(extent, place, size), size),
        None => copy(alloc, t),
    }
}

/// The piece at a place of each tensor, of as many as there are tensors.
fn pieces(alloc: Global, axis: u64, ts: &[&Tensor], place: u64) -> Result<Vec<Tensor>, Mem>
    requires axes { All (λ t. axis < length t.shape) (map (λ t. t.now) ts.now) }
    requires place { place < length ts.now }
    ensures { IfOk result (λ parts. parts.items ≡ pieces_at axis place (map (λ t. t.now) ts.now)) }
{
    let mut parts: Vec<Tensor> = Vec::new(alloc);
    for at in 0..ts.len() {
        parts.push(piece(alloc, axis, ts[at], ts.len() as u64, place)?)?;
    }
    Ok(parts)
}

/// The tensors, borrowed.
fn borrow<'a>(alloc: Global, ts: &'a [Tensor]) -> Result<Vec<&'a Tensor>, Mem>
    ensures { IfOk result (λ borrowed. map (λ t. t.now) borrowed.items ≡ ts.now) }
{
    let mut borrowed: Vec<&'a Tensor> = Vec::new(alloc);
    for at in 0..ts.len() {
        borrowed.push(&ts[at])?;
    }
    Ok(borrowed)
}

/// The piece at a place of the combination of the tensors, of this shape.
pub(crate) fn scatter(
    alloc: Global,
    kind: Kind,
    axis: u64,
    width: Width,
    ts: &[&Tensor],
    shape: Shape,
    place: u64,
) -> Result<Tensor, Mem>
    requires axes { All (λ t. axis < length t.shape) (map (λ t. t.now) ts.now) }
    requires operands { AreTensors width (map (λ t. t.now) ts.now) }
    requires place { place < length ts.now }
    requires shape { option_and_then (scattered_shape axis (length ts.now) place)
        (common_shape (map (λ t. t.shape) (map (λ t. t.now) ts.now))) ≡ Some shape }
    requires small { cell_count shape ≤ max_cells }
    ensures { IfOk result (λ out. out ≡ tensor.build shape width
        (combined_at kind (pieces_at axis place (map (λ t. t.now) ts.now)))) }
{
    let parts = pieces(alloc, axis, ts, place)?;
    let borrowed = borrow(alloc, parts.as_slice())?;
    combine(alloc, kind, width, borrowed.as_slice(), shape)
}

/// The pieces at a place of all tensors one after the other, together of this shape.
pub(crate) fn exchange(
    alloc: Global,
    split: u64,
    concat: u64,
    width: Width,
    ts: &[&Tensor],
    shape: Shape,
    place: u64,
) -> Result<Tensor, Mem>
    requires split { All (λ t. split < length t.shape) (map (λ t. t.now) ts.now) }
    requires concat { All (λ t. concat < length t.shape) (map (λ t. t.now) ts.now) }
    requires operands { AreTensors width (map (λ t. t.now) ts.now) }
    requires place { place < length ts.now }
    requires shape { option_and_then (exchanged_shape split concat (length ts.now) place)
        (common_shape (map (λ t. t.shape) (map (λ t. t.now) ts.now))) ≡ Some shape }
    requires small { cell_count shape ≤ max_cells }
    ensures { IfOk result (λ out. out ≡ tensor.build shape width
        (tensor.joined_at concat (pieces_at split place (map (λ t. t.now) ts.now)))) }
{
    let parts = pieces(alloc, split, ts, place)?;
    let borrowed = borrow(alloc, parts.as_slice())?;
    join(alloc, concat, width, borrowed.as_slice(), shape)
}
