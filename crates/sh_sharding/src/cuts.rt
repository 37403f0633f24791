ghost use Rattle.std.specs.Prelude.{◌≡◌, ◌+◌, ◌*◌, ◌<◌, ◌≤◌, IfOk, length, slice_index, unwrap_or};
ghost use Rattle.sh_base.specs.Shape.{cell_count, max_cells};
ghost use Rattle.sh_grid.specs.Grid.{AreAxesOf, IsGrid};
ghost use Rattle.sh_tensor.specs.Tensor.{IsTensor, slice_of};
ghost use Rattle.sh_sharding.specs.Cut.{cut_of};
ghost use Rattle.sh_sharding.specs.Sharding.{IsDimension, whole_of};
ghost use Rattle.sh_sharding.specs.Windows.{after_in, before_in, from_in, padded_by, sliced_by, taken_in};

use crate::padding::padded;
use crate::parts::span;
use crate::reading::{dimension, rank};
use crate::{Dimension, Sharding};
use sh_base::Mem;
use sh_grid::Grid;
use sh_tensor::{Tensor, copy, slice};
use std::alloc::Global;

/// What a device holds along a dimension, with its halos.
#[derive(Clone, Copy)]
struct Window {
    /// Where it begins in the whole.
    from: u64,
    /// How much of it lies in the whole.
    taken: u64,
    /// How much of it lies before the whole.
    before: u64,
    /// How much of it lies after the whole.
    after: u64,
}

fn window_of(g: &Grid, d: &Dimension, device: u64) -> Window
    requires grid { IsGrid g.now.extents }
    requires axes { AreAxesOf (length g.now.extents) d.now.axes }
    requires admitted { IsDimension g.now.extents d.now }
    requires device { device < cell_count g.now.extents }
    requires small { d.now.extent ≤ max_cells }
    ensures from { result.from ≡ from_in g.now.extents device d.now }
    ensures taken { result.taken ≡ taken_in g.now.extents device d.now }
    ensures before { result.before ≡ before_in g.now.extents device d.now }
    ensures after { result.after ≡ after_in g.now.extents device d.now }
    ensures within { result.from + result.taken ≤ d.now.extent }
    ensures few { result.before + result.taken + result.after ≤ 3 * max_cells }
{
    let (start, size) = span(g, d, device);
    let end = start + size + d.high;
    let from = start.saturating_sub(d.low);
    Window {
        from,
        taken: end.min(d.extent) - from,
        before: d.low.saturating_sub(start),
        after: end.saturating_sub(d.extent),
    }
}

/// The part of a tensor along an axis, or `None` where that is all of it.
fn sliced(
    alloc: Global,
    t: &Tensor,
    axis: u64,
    start: u64,
    size: u64,
) -> Result<Option<Tensor>, Mem>
    requires axis { axis < length t.now.shape }
    requires within { start + size ≤ slice_index t.now.shape axis }
    ensures { IfOk result (λ part. unwrap_or part t.now ≡ slice_of t.now axis start size) }
{
    if size == t.shape().extents()[axis as usize] {
        return Ok(None);
    }
    Ok(Some(slice(alloc, t, axis, start, size)?))
}

/// The part along one axis more. `None` stands for all of the tensor, which is so copied once at
/// most.
fn sliced_further(
    alloc: Global,
    t: &Tensor,
    part: Option<Tensor>,
    axis: u64,
    start: u64,
    size: u64,
) -> Result<Option<Tensor>, Mem>
    requires axis { axis < length (unwrap_or part t.now).shape }
    requires within { start + size ≤ slice_index (unwrap_or part t.now).shape axis }
    ensures { IfOk result (λ next.
        unwrap_or next t.now ≡ slice_of (unwrap_or part t.now) axis start size) }
{
    let Some(part) = part else {
        return sliced(alloc, t, axis, start, size);
    };
    match sliced(alloc, &part, axis, start, size)? {
        Some(next) => Ok(Some(next)),
        None => Ok(Some(part)),
    }
}

/// What lies in the whole of the cut for a device.
fn clipped(alloc: Global, t: &Tensor, s: &Sharding, g: &Grid, device: u64) -> Result<Tensor, Mem>
    requires grid { s.now.grid ≡ g.now }
    requires shape { t.now.shape ≡ whole_of s.now }
    requires device { device < cell_count g.now.extents }
    ensures whole { IsTensor t.now }
    ensures ok { IfOk result (λ part.
        part ≡ sliced_by g.now.extents device s.now.dimensions t.now (length s.now.dimensions)) }
{
    let rank = t.shape().extents().len() as u64;
    let mut part = None;
    for dim in 0..rank {
        let window = window_of(g, dimension(s, dim), device);
        part = sliced_further(alloc, t, part, dim, window.from, window.taken)?;
    }
    match part {
        Some(part) => Ok(part),
        None => copy(alloc, t),
    }
}

/// The local tensor of a device, halos included: a copy of its part, and undefined cells where a
/// halo leaves the whole. Want of memory is the only refusal.
pub fn cut(alloc: Global, t: &Tensor, s: &Sharding, g: &Grid, device: u64) -> Result<Tensor, Mem>
    requires grid { s.now.grid ≡ g.now }
    requires shape { t.now.shape ≡ whole_of s.now }
    requires device { device < cell_count g.now.extents }
    ensures { IfOk result (λ part. part ≡ cut_of s.now t.now device) }
{
    let mut part = clipped(alloc, t, s, g, device)?;
    for dim in 0..rank(s) {
        let window = window_of(g, dimension(s, dim), device);
        part = padded(alloc, part, dim, window.before, window.after)?;
    }
    Ok(part)
}
