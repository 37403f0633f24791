ghost use Rattle.std.specs.Prelude.{◌≡◌, ◌<◌, All, IfOk, length, map, nat_le, option_map, slice_get, true};
ghost use Rattle.std.specs.List.{list_all};
ghost use Rattle.sh_base.specs.Shape.{cell_count};
ghost use Rattle.sh_grid.specs.Grid.{AreAxesOf, group_of};
ghost use Rattle.sh_ir.specs.declared.operations.OpKind.TheVariants as kind_variants;
ghost use Rattle.sh_ir.specs.declared.shard_ops.UpdateHalo as declared_halo;
ghost use Rattle.sh_ir.specs.Classes.{class_of};
ghost use Rattle.sh_ir.specs.Numbers.{as_natural, as_naturals};
ghost use Rattle.sh_sem.specs.Steps.{axes_of, is_collective_class};
ghost use Rattle.sh_turns.specs.Program.{all_there};
ghost use Rattle.sh_turns.specs.World.{device_at, posted_for};
ghost use Rattle.sh_world.specs.States.{HasPosted, device_of};

use crate::states::State;
use sh_base::{Mem, Shape, shape};
use sh_grid::{Grid, extents, group_size, member};
use sh_ir::OpKind;
use sh_tensor::Tensor;
use smallvec::SmallVec;
use std::alloc::Global;

/// The written axes of a collective but an exchange of halos.
fn collective_axes(kind: &OpKind) -> &[i128]
    requires collective { is_collective_class (class_of kind.now) ≡ true }
    requires described { (x : declared_halo.UpdateHalo) → kind.now ≡ kind_variants.UpdateHalo x → ⊥ }
    ensures { axes_of kind.now ≡ as_naturals result.now }
{
    match kind {
        OpKind::AllGather(x) => x.on.grid_axes.as_slice(),
        OpKind::AllReduce(x) => x.on.grid_axes.as_slice(),
        OpKind::ReduceScatter(x) => x.on.grid_axes.as_slice(),
        OpKind::AllToAll(x) => x.on.grid_axes.as_slice(),
        OpKind::Shift(x) => x.on.grid_axes.as_slice(),
        _ => unreachable!(),
    }
}

/// A written axis of a grid of so many.
fn axis_of(rank: usize, axis: &i128) -> u64
    requires { as_natural axis.now < rank }
    ensures { result ≡ as_natural axis.now }
{
    let axis = *axis;
    axis.max(0) as u64
}

/// Written axes of a grid.
fn axes_on(alloc: Global, g: &Grid, axes: &[i128]) -> Shape
    requires { AreAxesOf (length g.now.extents) (as_naturals axes.now) }
    ensures { result ≡ as_naturals axes.now }
{
    let rank = extents(g).extents().len();
    let mut found: SmallVec<u64, 6> = SmallVec::new(alloc);
    for axis in axes {
        found.push_reserved(axis_of(rank, axis));
    }
    shape(alloc, found.as_slice())
}

/// The axes along which the groups of a collective stand. It takes no memory.
pub(crate) fn group_axes(alloc: Global, g: &Grid, kind: &OpKind) -> Shape
    requires collective { is_collective_class (class_of kind.now) ≡ true }
    requires described { (x : declared_halo.UpdateHalo) → kind.now ≡ kind_variants.UpdateHalo x → ⊥ }
    requires axes { AreAxesOf (length g.now.extents) (axes_of kind.now) }
    ensures { result ≡ axes_of kind.now }
{
    axes_on(alloc, g, collective_axes(kind))
}

/// Whether each member of a device's group has at least so many posts.
pub(crate) fn all_posted(
    states: &[State],
    g: &Grid,
    axes: &Shape,
    device: u64,
    count: usize,
) -> bool
    requires axes { AreAxesOf (length g.now.extents) axes.now }
    requires states { length states.now ≡ cell_count g.now.extents }
    requires device { device < cell_count g.now.extents }
    ensures { result
        ≡ list_all (λ m. nat_le count (length (device_at (map device_of states.now) m).posts))
        (group_of g.now.extents axes.now device) }
{
    for place in 0..group_size(g, axes) {
        let other = member(g, axes, device, place);
        if states[other as usize].post_count() < count {
            return false;
        }
    }
    true
}

/// The tensors in the posts with this number of a device's group, in group order, if each names this
/// instruction.
pub(crate) fn gathered<'a>(
    alloc: Global,
    states: &'a [State],
    g: &Grid,
    axes: &Shape,
    device: u64,
    instruction: usize,
    number: usize,
) -> Result<Option<Vec<&'a Tensor>>, Mem>
    requires axes { AreAxesOf (length g.now.extents) axes.now }
    requires states { length states.now ≡ cell_count g.now.extents }
    requires device { device < cell_count g.now.extents }
    requires posted { All HasPosted states.now }
    ensures { IfOk result (λ found. option_map (λ ts. map (λ t. t.now) ts.items) found
        ≡ all_there (map (λ m. posted_for instruction
        (slice_get (device_at (map device_of states.now) m).posts number))
        (group_of g.now.extents axes.now device))) }
{
    let mut found: Vec<&'a Tensor> = Vec::new(alloc);
    for place in 0..group_size(g, axes) {
        let state = &states[member(g, axes, device, place) as usize];
        let Some(t) = state.posted(instruction, number) else {
            return Ok(None);
        };
        found.push(t)?;
    }
    Ok(Some(found))
}
