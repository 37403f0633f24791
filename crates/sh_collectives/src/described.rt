ghost use Rattle.std.specs.Prelude.{◌≡◌, ◌<◌, None, IfNone, IfSome, length, max, position, nat_eq, get_or, pos};
ghost use Rattle.sh_collectives.specs.Described.{IsDescription, IsShift};
ghost use Rattle.sh_grid.specs.Grid.{AreAxesOf, IsGrid, on_axes};
ghost use Rattle.sh_ir.specs.Numbers.{as_natural, as_naturals};
ghost use Rattle.sh_sem.specs.Collected.{collecting};
ghost use Rattle.sh_sem.specs.Steps.{axes_of};

use crate::ways::{Described, Shifting, Way};
use sh_base::{Shape, shape};
use sh_grid::{Grid, extents};
use sh_ir::{OpKind, Shift};
use sh_sem::dims_of;
use smallvec::SmallVec;
use std::alloc::Global;

/// The extent of a grid on a written axis.
fn extent_on(all: &[u64], axis: &i128) -> u64
    requires { as_natural axis.now < length all.now }
    ensures { result ≡ get_or all.now (as_natural axis.now) 0 }
{
    let axis = *axis;
    all[axis.max(0) as usize]
}

/// The extents of a grid on the written axes.
fn group_extents(alloc: Global, g: &Grid, axes: &[i128]) -> Shape
    requires { AreAxesOf (length g.now.extents) (as_naturals axes.now) }
    ensures { result ≡ on_axes (as_naturals axes.now) g.now.extents }
{
    let all = extents(g).extents();
    let mut found: SmallVec<u64, 6> = SmallVec::new(alloc);
    for axis in axes {
        found.push_reserved(extent_on(all, axis));
    }
    shape(alloc, found.as_slice())
}

/// Whether a written axis is this one.
fn is_axis(written: &i128, axis: u64) -> bool
    ensures { result ≡ nat_eq axis (as_natural written.now) }
{
    let written = *written;
    written.max(0) == axis as i128
}

/// Where an axis stands among the written ones.
fn place_among(axes: &[i128], axis: u64) -> Option<u64>
    ensures { result ≡ position (nat_eq axis) (as_naturals axes.now) }
{
    for at in 0..axes.len() {
        if is_axis(&axes[at], axis) {
            return Some(at as u64);
        }
    }
    None
}

fn shifting(alloc: Global, x: &Shift, g: &Grid) -> Shifting
    requires { AreAxesOf (length g.now.extents) (as_naturals x.now.on.grid_axes) }
    ensures { IsShift x.now g.now.extents result }
{
    let axes = x.on.grid_axes.as_slice();
    Shifting {
        extents: group_extents(alloc, g, axes),
        along: place_among(axes, x.shift_axis),
        offset: x.offset,
        rotate: x.rotate,
    }
}

/// What a collective does on a grid; nothing of a kind that isn't described.
#[tactic(auto, unfolding(sh_sem::specs::Collected::collecting))]
pub(crate) fn described<'a>(alloc: Global, kind: &'a OpKind, g: &Grid) -> Option<Described<'a>>
    requires { AreAxesOf (length g.now.extents) (axes_of kind.now) }
    ensures some { IfSome result (IsDescription kind.now g.now.extents) }
    ensures none { IfNone result (collecting kind.now g.now.extents ≡ None) }
    ensures grid { IsGrid g.now.extents }
{
    // asked for what holds of the extents of every grid
    let _extents = extents(g);
    match kind {
        OpKind::AllGather(x) => Some(Described {
            way: Way::Gather(x.gather_axis),
            dims: dims_of(&x.operand_type),
        }),
        OpKind::AllReduce(x) => Some(Described {
            way: Way::Reduce(x.reduction),
            dims: dims_of(&x.operand_type),
        }),
        OpKind::ReduceScatter(x) => Some(Described {
            way: Way::Scatter(x.reduction, x.scatter_axis),
            dims: dims_of(&x.operand_type),
        }),
        OpKind::AllToAll(x) => Some(Described {
            way: Way::Exchange(x.split_axis, x.concat_axis),
            dims: dims_of(&x.operand_type),
        }),
        OpKind::Shift(x) => Some(Described {
            way: Way::Shift(shifting(alloc, x, g)),
            dims: dims_of(&x.operand_type),
        }),
        _ => None,
    }
}
