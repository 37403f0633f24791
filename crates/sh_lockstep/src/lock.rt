ghost use Rattle.std.specs.Prelude.{◌≡◌, ◌<◌, ℕ, IfOk, IsSome, All, List, Some, filter, get_or, length, map, not, slice_get, []};
ghost use Rattle.sh_base.specs.Shape.{cell_count};
ghost use Rattle.sh_grid.specs.Grid.{AreAxesOf};
ghost use Rattle.sh_ir.specs.Classes.{is_return};
ghost use Rattle.sh_lockstep.specs.Behind.{CanLock, arguments_in};
ghost use Rattle.sh_lockstep.specs.Groups.{HasOneList};
ghost use Rattle.sh_lockstep.specs.Locks.{AreRows, IsColumn, IsStep, fault_on, outcome_in};
ghost use Rattle.sh_lockstep.specs.Steps.{CanStepOnAll};
ghost use Rattle.sh_lockstep.specs.Tables.{values_in};
ghost use Rattle.sh_pieces.specs.Runs.{argument_under};
ghost use Rattle.sh_sem.specs.Steps.{axes_of, device_function, device_program};
ghost use Rattle.sh_turns.specs.Lockstep.{lockstep as in_step};
ghost use Rattle.sh_turns.specs.Program.{all_there};

use crate::axes::group_axes;
use crate::steps::{Row, is_collective, operands, row_of};
use crate::table::Table;
use sh_base::{Items, Mem};
use sh_eval::returned;
use sh_grid::{Grid, devices};
use sh_ir::{Arg, Func, Op, OpClass};
use sh_tensor::{Tensor, copy};
use std::alloc::Global;

/// How a function ends that is run in step.
#[derive(Drop)]
pub enum Lock {
    /// With the results of each device.
    Done(Items<Items<Tensor>>),
    /// At an instruction that is stuck, on the first device where it is.
    Stuck { device: u64, op: u64 },
    /// At a collective whose group mismatches, on the first device where it does.
    Mismatch { device: u64, op: u64 },
}

/// The argument of this number on all devices.
fn column(alloc: Global, args: &[Items<Tensor>], at: usize) -> Result<Items<Tensor>, Mem>
    requires { All (λ ts. at < length ts) args.now }
    ensures { IfOk result (λ row. IsColumn args.now at (length args.now) row) }
{
    let mut row = Items::new(alloc);
    for ts in args {
        row.push(copy(alloc, &ts.as_slice()[at])?)?;
    }
    Ok(row)
}

/// The arguments of all devices under the names of the parameters.
fn at_start(alloc: Global, params: &[Arg], args: &[Items<Tensor>]) -> Result<Table, Mem>
    requires { All (λ ts. length ts ≡ length params.now) args.now }
    ensures { IfOk result (λ table. (c : ℕ) → (name : ℕ) → c < length args.now
        → values_in table c name
        ≡ argument_under (map (λ a. a.id) params.now) (get_or args.now c []) name) }
{
    let mut table = Table::new(alloc);
    for at in 0..params.len() {
        let row = column(alloc, args, at)?;
        table.define(Some(params[at].id), row)?;
    }
    Ok(table)
}

/// The instructions among operations in order: all but the return.
fn instructions<'f>(alloc: Global, ops: &'f [Op]) -> Result<Vec<&'f Op>, Mem>
    ensures { IfOk result (λ found. map (λ op. op.now) found.items
        ≡ filter (λ op. not (is_return op.kind)) ops.now) }
{
    let mut found: Vec<&'f Op> = Vec::new(alloc);
    for op in ops {
        if op.kind.class() != OpClass::Return {
            found.push(op)?;
        }
    }
    Ok(found)
}

/// How a function ends at an instruction that has no value on a device.
fn stop(op: &Op, at: u64, device: u64) -> Lock
    ensures { (grid : List ℕ) → outcome_in result ≡ fault_on grid op.now at device }
{
    if is_collective(op) {
        Lock::Mismatch { device, op: at }
    } else {
        Lock::Stuck { device, op: at }
    }
}

/// Does an instruction on all devices, or says how the function ends there.
fn advance(
    alloc: Global,
    op: &Op,
    at: u64,
    g: &Grid,
    table: &mut Table,
) -> Result<Option<Lock>, Mem>
    requires list { HasOneList op.now.kind }
    requires axes { AreAxesOf (length g.now.extents) (axes_of op.now.kind) }
    requires can { CanStepOnAll g.now.extents op.now (values_in table.old) }
    ensures { IfOk result (λ end. IsStep g.now.extents op.now at end (values_in table.old)
        (values_in table.new)) }
{
    let axes = group_axes(alloc, &op.kind, g);
    match row_of(alloc, table, op, g, &axes)? {
        Row::Values(row) => {
            table.define(op.defines, row)?;
            Ok(None)
        }
        Row::Lacking(device) => Ok(Some(stop(op, at, device))),
    }
}

/// Copies of tensors.
fn copies(alloc: Global, ts: &[&Tensor]) -> Result<Items<Tensor>, Mem>
    ensures { IfOk result (λ out. out ≡ map (λ t. t.now) ts.now) }
{
    let mut out = Items::new(alloc);
    for t in ts {
        out.push(copy(alloc, t)?)?;
    }
    Ok(out)
}

/// The tensors of names on a device, where they are.
fn results_on(
    alloc: Global,
    table: &Table,
    names: &[u32],
    device: u64,
) -> Result<Items<Tensor>, Mem>
    requires { IsSome (all_there (map (values_in table.now device) names.now)) }
    ensures { IfOk result (λ ts. all_there (map (values_in table.now device) names.now) ≡ Some ts) }
{
    let ts = operands(alloc, table, names, device)?.unwrap();
    copies(alloc, ts.as_slice())
}

/// The tensors of names on all devices, where they are.
fn results(
    alloc: Global,
    table: &Table,
    names: &[u32],
    g: &Grid,
) -> Result<Items<Items<Tensor>>, Mem>
    requires { (c : ℕ) → c < cell_count g.now.extents
        → IsSome (all_there (map (values_in table.now c) names.now)) }
    ensures { IfOk result (λ rows. AreRows (values_in table.now) names.now
        (cell_count g.now.extents) rows) }
{
    let mut rows = Items::new(alloc);
    for device in 0..devices(g) {
        rows.push(results_on(alloc, table, names, device)?)?;
    }
    Ok(rows)
}

/// Runs a function, whose instructions are these, on its arguments in step.
fn run(alloc: Global, f: &Func, g: &Grid, args: &[Items<Tensor>], ops: &[&Op]) -> Result<Lock, Mem>
    requires can { CanLock f.now g.now.extents args.now }
    requires ops { map (λ op. op.now) ops.now ≡ (device_function f.now).instructions }
    ensures { IfOk result (λ lock. outcome_in lock
        ≡ in_step (device_program f.now g.now.extents (arguments_in args.now))) }
{
    let mut table = at_start(alloc, f.args.as_slice(), args)?;
    for at in 0..ops.len() {
        if let Some(end) = advance(alloc, ops[at], at as u64, g, &mut table)? {
            return Ok(end);
        }
    }
    let names = returned(f.ops.as_slice());
    Ok(Lock::Done(results(alloc, &table, names, g)?))
}

/// Runs a function in device form in step, on the arguments of each device: each instruction on all
/// devices, then the next one. It ends at the first instruction that is stuck or mismatches, and
/// there with the first device.
pub fn lockstep(alloc: Global, f: &Func, g: &Grid, args: &Vec<Items<Tensor>>) -> Result<Lock, Mem>
    requires { CanLock f.now g.now.extents args.now.items }
    ensures { IfOk result (λ lock. outcome_in lock
        ≡ in_step (device_program f.now g.now.extents (arguments_in args.now.items))) }
{
    let ops = instructions(alloc, f.ops.as_slice())?;
    run(alloc, f, g, args.as_slice(), ops.as_slice())
}
