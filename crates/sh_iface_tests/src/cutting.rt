ghost use Rattle.std.specs.Prelude.{◌≡◌, ◌<◌, IfOk, IsTrue};
ghost use Rattle.sh_base.specs.Shape.{cell_count};
ghost use Rattle.sh_iface.specs.Valid.{IsValid};
ghost use Rattle.sh_sharding.specs.Sharding.{whole_of};
ghost use Rattle.sh_sharding.specs.Together.{AreParts};

use crate::values::last_value;
use sh_base::Same;
use sh_grid::{Grid, devices};
use sh_iface::{LocalPart, LoopOption, ShardIface};
use sh_sharding::{Sharding, cut, put_together, whole};
use sh_sharding_tests::all_cuts;
use sh_tensor::Tensor;
use std::alloc::Global;
use std::test::Fail;

/// The cut of a tensor on a device, where the tensor has the sharding's shape.
fn cut_of(alloc: Global, t: &Tensor, s: &Sharding, g: &Grid, device: u64) -> Result<Tensor, Fail>
    requires grid { s.now.grid ≡ g.now }
    requires device { device < cell_count g.now.extents }
{
    if !t.shape().same(whole(s)) {
        return Err("a tensor of another shape")?;
    }
    Ok(cut(alloc, t, s, g, device)?)
}

/// The cuts of the operands on a device.
#[tactic(auto, unfolding(sh_iface::specs::Splits::implied_of))]
fn operands_on<O: ShardIface>(
    alloc: Global,
    x: &O,
    g: &Grid,
    o: &LoopOption,
    wholes: &[&Tensor],
    device: u64,
) -> Result<Vec<Tensor>, Fail>
    requires valid { IsValid (O.meaning x.now).nest g.now o.now }
    requires device { device < cell_count g.now.extents }
{
    let mut cuts = Vec::new(alloc);
    for v in 0..x.operands() {
        let t = wholes.get(v as usize).copied().ok_or("no such operand")?;
        let s = x.implied(alloc, g, o, v)?;
        cuts.push(cut_of(alloc, t, &s, g, device)?)?;
    }
    Ok(cuts)
}

/// A part, where it has the shape and the width of a cut.
fn fitting(part: Tensor, cut: &Tensor) -> Result<Tensor, Fail>
    ensures shape { IfOk result (λ part. part.shape ≡ cut.now.shape) }
    ensures width { IfOk result (λ part. part.width ≡ cut.now.width) }
{
    if !part.shape().same(cut.shape()) || !part.width().same(&cut.width()) {
        return Err("a part that doesn't fit the result's sharding")?;
    }
    Ok(part)
}

/// What a local part gives of operands.
fn value_of_part(alloc: Global, local: &LocalPart, operands: Vec<Tensor>) -> Result<Tensor, Fail> {
    match local.combine {
        None => last_value(alloc, local.ops.as_slice(), operands),
        Some(_) => Err("parts that are to be combined")?,
    }
}

/// What the local part makes on a device.
fn part_on<O: ShardIface>(
    alloc: Global,
    x: &O,
    g: &Grid,
    o: &LoopOption,
    wholes: &[&Tensor],
    device: u64,
) -> Result<Tensor, Fail>
    requires valid { IsValid (O.meaning x.now).nest g.now o.now }
    requires device { device < cell_count g.now.extents }
{
    let operands = operands_on(alloc, x, g, o, wholes, device)?;
    let local = x.localize(alloc, g, o)?;
    value_of_part(alloc, &local, operands)
}

/// What the local part makes on all devices, each of the shape and the width of a cut.
fn parts_on<O: ShardIface>(
    alloc: Global,
    x: &O,
    g: &Grid,
    o: &LoopOption,
    wholes: &[&Tensor],
    s: &Sharding,
    cuts: &Vec<Tensor>,
) -> Result<Vec<Tensor>, Fail>
    requires valid { IsValid (O.meaning x.now).nest g.now o.now }
    requires grid { s.now.grid ≡ g.now }
    requires cuts { AreParts s.now cuts.now.items }
    ensures { IfOk result (λ parts. AreParts s.now parts.items) }
{
    let mut parts = Vec::new(alloc);
    for device in 0..devices(g) {
        let part = part_on(alloc, x, g, o, wholes, device)?;
        parts.push(fitting(part, &cuts[device as usize])?)?;
    }
    Ok(parts)
}

/// Whether two tensors are one.
fn are_one(a: &Tensor, b: &Tensor) -> bool {
    a.shape().same(b.shape()) && a.width().same(&b.width()) && a.cells() == b.cells()
}

/// Whether what the local part makes on all devices, put together, is the whole result.
#[tactic(auto, unfolding(sh_iface::specs::Splits::implied_of))]
pub fn parts_make_whole<O: ShardIface>(
    alloc: Global,
    x: &O,
    g: &Grid,
    o: &LoopOption,
    wholes: &[&Tensor],
    want: &Tensor,
) -> Result<bool, Fail> {
    if !x.admits(g, o) {
        return Err("an option that isn't valid")?;
    }
    let s = x.implied(alloc, g, o, x.operands())?;
    if !want.shape().same(whole(&s)) {
        return Err("a result of another shape")?;
    }
    let cuts = all_cuts(alloc, want, &s, g)?;
    let parts = parts_on(alloc, x, g, o, wholes, &s, &cuts)?;
    match put_together(alloc, &parts, &s, g) {
        Ok(t) => Ok(are_one(&t, want)),
        Err(_) => Ok(false),
    }
}
