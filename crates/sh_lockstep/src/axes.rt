ghost use Rattle.std.specs.Prelude.{◌≡◌, length};
ghost use Rattle.sh_grid.specs.Grid.{AreAxesOf};
ghost use Rattle.sh_ir.specs.Numbers.{as_naturals};
ghost use Rattle.sh_lockstep.specs.Groups.{HasOneList};
ghost use Rattle.sh_sem.specs.Steps.{axes_of};

use sh_base::Shape;
use sh_eval::axes_on;
use sh_grid::Grid;
use sh_ir::OpKind;
use std::alloc::Global;

/// The written axes along which the group of an instruction stands; none of one without a group.
fn written_axes(kind: &OpKind) -> &[i128]
    requires { HasOneList kind.now }
    ensures { as_naturals result.now ≡ axes_of kind.now }
{
    match kind {
        OpKind::AllGather(x) => x.on.grid_axes.as_slice(),
        OpKind::AllSlice(x) => x.on.grid_axes.as_slice(),
        OpKind::AllReduce(x) => x.on.grid_axes.as_slice(),
        OpKind::ReduceScatter(x) => x.on.grid_axes.as_slice(),
        OpKind::AllToAll(x) => x.on.grid_axes.as_slice(),
        OpKind::Shift(x) => x.on.grid_axes.as_slice(),
        OpKind::Take(x) => x.on.grid_axes.as_slice(),
        _ => &[],
    }
}

/// The axes of a grid along which the group of an instruction stands.
pub(crate) fn group_axes(alloc: Global, kind: &OpKind, g: &Grid) -> Shape
    requires list { HasOneList kind.now }
    requires axes { AreAxesOf (length g.now.extents) (axes_of kind.now) }
    ensures { result ≡ axes_of kind.now }
{
    axes_on(alloc, g, written_axes(kind))
}
