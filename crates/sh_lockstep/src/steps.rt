ghost use Rattle.std.specs.Prelude.{◌≡◌, ◌<◌, ℕ, IfOk, List, false, length, map, option_map, true};
ghost use Rattle.sh_base.specs.Shape.{cell_count};
ghost use Rattle.sh_grid.specs.Grid.{AreAxesOf, group_of};
ghost use Rattle.sh_lockstep.specs.Rows.{IsRow};
ghost use Rattle.sh_eval.specs.Devices.{operand_of};
ghost use Rattle.sh_lockstep.specs.Steps.{CanStepOn, CanStepOnAll};
ghost use Rattle.sh_lockstep.specs.Tables.{values_in};
ghost use Rattle.sh_pieces.specs.Instructions.{gives};
ghost use Rattle.sh_sem.specs.Steps.{axes_of, steps_on};
ghost use Rattle.sh_turns.specs.Program.{all_there};

use crate::table::Table;
use sh_base::{Items, Mem, Shape};
use sh_collectives::collect_at;
use sh_eval::step_local;
use sh_grid::{Grid, devices, group_size, member, place_in_group};
use sh_ir::{Op, OpClass};
use sh_tensor::Tensor;
use std::alloc::Global;

/// What an instruction gives on all devices.
#[derive(Drop)]
pub(crate) enum Row {
    /// A value on each device.
    Values(Items<Tensor>),
    /// No value on this device, the first of those without one.
    Lacking(u64),
}

/// The tensors of names on a device, if each has one.
pub(crate) fn operands<'s>(
    alloc: Global,
    table: &'s Table,
    names: &[u32],
    device: u64,
) -> Result<Option<Vec<&'s Tensor>>, Mem>
    ensures { IfOk result (λ out. option_map (λ ts. map (λ t. t.now) ts.items) out
        ≡ all_there (map (values_in table.now device) names.now)) }
{
    let mut ts: Vec<&'s Tensor> = Vec::with_capacity(alloc, names.len())?;
    for name in names {
        match table.get(device, *name) {
            Some(t) => ts.push(t)?,
            None => return Ok(None),
        }
    }
    Ok(Some(ts))
}

/// What a device gives to a collective.
fn operand<'s>(table: &'s Table, op: &Op, device: u64) -> Option<&'s Tensor>
    ensures { option_map (λ t. t.now) result ≡ operand_of op.now (values_in table.now device) }
{
    match op.operands.get(0) {
        Some(name) => table.get(device, *name),
        None => None,
    }
}

/// What the members of a device's group give to a collective, if each gives something.
fn group_operands<'s>(
    alloc: Global,
    table: &'s Table,
    op: &Op,
    g: &Grid,
    axes: &Shape,
    device: u64,
) -> Result<Option<Vec<&'s Tensor>>, Mem>
    requires axes { AreAxesOf (length g.now.extents) axes.now }
    requires device { device < cell_count g.now.extents }
    ensures { IfOk result (λ out. option_map (λ ts. map (λ t. t.now) ts.items) out
        ≡ all_there (map (λ m. operand_of op.now (values_in table.now m))
        (group_of g.now.extents axes.now device))) }
{
    let mut ts: Vec<&'s Tensor> = Vec::new(alloc);
    for place in 0..group_size(g, axes) {
        match operand(table, op, member(g, axes, device, place)) {
            Some(t) => ts.push(t)?,
            None => return Ok(None),
        }
    }
    Ok(Some(ts))
}

/// What a local instruction gives on a device.
fn local_value(
    alloc: Global,
    table: &Table,
    op: &Op,
    g: &Grid,
    device: u64,
) -> Result<Option<Tensor>, Mem>
    requires can { CanStepOn g.now.extents op.now (values_in table.now) device }
    requires axes { AreAxesOf (length g.now.extents) (axes_of op.now.kind) }
    requires device { device < cell_count g.now.extents }
    requires local { (steps_on g.now.extents).is_collective op.now ≡ false }
    ensures { IfOk result (λ out. out
        ≡ gives (steps_on g.now.extents) op.now (values_in table.now) device) }
{
    match operands(alloc, table, op.operands.as_slice(), device)? {
        Some(ts) => step_local(alloc, op, g, device, ts.as_slice()),
        None => Ok(None),
    }
}

/// What a collective gives on a device.
fn collective_value(
    alloc: Global,
    table: &Table,
    op: &Op,
    g: &Grid,
    axes: &Shape,
    device: u64,
) -> Result<Option<Tensor>, Mem>
    requires can { CanStepOn g.now.extents op.now (values_in table.now) device }
    requires axes { AreAxesOf (length g.now.extents) axes.now }
    requires own { axes.now ≡ axes_of op.now.kind }
    requires device { device < cell_count g.now.extents }
    requires collective { (steps_on g.now.extents).is_collective op.now ≡ true }
    ensures { IfOk result (λ out. out
        ≡ gives (steps_on g.now.extents) op.now (values_in table.now) device) }
{
    match group_operands(alloc, table, op, g, axes, device)? {
        Some(ts) => collect_at(alloc, op, g, ts.as_slice(), place_in_group(g, axes, device)),
        None => Ok(None),
    }
}

/// Whether an instruction is a collective.
#[tactic(auto, unfolding(sh_sem::specs::Steps::steps_on))]
pub(crate) fn is_collective(op: &Op) -> bool
    ensures { (grid : List ℕ) → result ≡ (steps_on grid).is_collective op.now }
{
    match op.kind.class() {
        OpClass::Collective => true,
        OpClass::Creator
        | OpClass::Element
        | OpClass::Layout
        | OpClass::Structured
        | OpClass::Convolution
        | OpClass::Sharding
        | OpClass::Note
        | OpClass::DeviceLayout
        | OpClass::Call
        | OpClass::Return => false,
    }
}

/// What an instruction gives on a device.
fn value_on(
    alloc: Global,
    table: &Table,
    op: &Op,
    g: &Grid,
    axes: &Shape,
    device: u64,
) -> Result<Option<Tensor>, Mem>
    requires can { CanStepOn g.now.extents op.now (values_in table.now) device }
    requires axes { AreAxesOf (length g.now.extents) axes.now }
    requires own { axes.now ≡ axes_of op.now.kind }
    requires device { device < cell_count g.now.extents }
    ensures { IfOk result (λ out. out
        ≡ gives (steps_on g.now.extents) op.now (values_in table.now) device) }
{
    if is_collective(op) {
        collective_value(alloc, table, op, g, axes, device)
    } else {
        local_value(alloc, table, op, g, device)
    }
}

/// What an instruction gives on all devices, in order.
pub(crate) fn row_of(
    alloc: Global,
    table: &Table,
    op: &Op,
    g: &Grid,
    axes: &Shape,
) -> Result<Row, Mem>
    requires can { CanStepOnAll g.now.extents op.now (values_in table.now) }
    requires axes { AreAxesOf (length g.now.extents) axes.now }
    requires own { axes.now ≡ axes_of op.now.kind }
    ensures { IfOk result (λ row. IsRow g.now.extents op.now (values_in table.now) row) }
{
    let mut row = Items::new(alloc);
    for device in 0..devices(g) {
        match value_on(alloc, table, op, g, axes, device)? {
            Some(t) => row.push(t)?,
            None => return Ok(Row::Lacking(device)),
        }
    }
    Ok(Row::Values(row))
}
