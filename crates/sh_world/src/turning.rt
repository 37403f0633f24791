ghost use Rattle.std.specs.Prelude.{◌≡◌, ℕ, ◌+◌, ◌-◌, ◌^◌, ◌<◌, ◌≤◌, List, All, IfOk, IsOk, OnErr, OnOk, Some, length, map, option_and_then, slice_get, take, true, vec_capacity};
ghost use Rattle.sh_base.specs.Shape.{cell_count};
ghost use Rattle.sh_grid.specs.Grid.{AreAxesOf, group_of, place_in};
ghost use Rattle.sh_ir.specs.declared.operations.OpKind.TheVariants as kind_variants;
ghost use Rattle.sh_ir.specs.declared.shard_ops.UpdateHalo as declared_halo;
ghost use Rattle.sh_ir.specs.Classes.{class_of};
ghost use Rattle.sh_sem.specs.Collected.{collected};
ghost use Rattle.sh_sem.specs.Steps.{axes_of, is_collective_class, steps_on};
ghost use Rattle.sh_tensor.specs.Tensor.{TensorValue};
ghost use Rattle.sh_turns.specs.declared.Turn.TheVariants.{Posted};
ghost use Rattle.sh_turns.specs.Program.{all_there, collectives};
ghost use Rattle.sh_turns.specs.World.{after, can_move, device_at, local_turn, posted_for, take_turn, turn, turn_of};
ghost use Rattle.sh_world.specs.Machine.{program_of};
ghost use Rattle.sh_world.specs.Sound.{IsSound, arguments_in, source_of};
ghost use Rattle.sh_world.specs.States.{HasPosted, HasRoom, device_of, tensor_at};
ghost use Rattle.sh_world.specs.Turning.{CanMake, CanTake, CanTurn, posted_in, step_of};

use crate::groups::{all_posted, gathered, group_axes};
use crate::scripts::{Instruction, Script, is_collective};
use crate::states::State;
use crate::steps::LocalSteps;
use sh_base::Mem;
use sh_collectives::collect_at;
use sh_grid::{Grid, place_in_group};
use sh_tensor::Tensor;
use sh_turns::Turn;
use std::alloc::Global;

/// Whether a device can move.
pub(crate) fn able(alloc: Global, script: &Script<'_>, states: &[State], device: u64) -> bool
    requires sound { IsSound script.now states.now }
    requires device { device < cell_count script.now.grid.now.extents }
    ensures { result ≡ can_move (program_of (source_of script.now states.now))
        (map device_of states.now) device }
{
    let state = &states[device as usize];
    if state.next >= script.instructions.len() {
        return false;
    }
    let op = script.instructions[state.next].op;
    if !is_collective(op) || !state.waits {
        return true;
    }
    let axes = group_axes(alloc, script.grid, &op.kind);
    all_posted(states, script.grid, &axes, device, state.post_count())
}

/// What the next turn of a device does.
#[derive(Drop)]
pub(crate) enum Step {
    /// A local instruction gives this value.
    Gives(Tensor),
    /// A collective gives this value.
    Takes(Tensor),
    /// The device posts the value at this place.
    Posts(usize),
    /// The turn is stuck or a mismatch.
    Stops(Turn),
}

/// The values at some places.
fn values_at<'a>(
    alloc: Global,
    values: &'a [Tensor],
    places: &[usize],
) -> Result<Vec<&'a Tensor>, Mem>
    requires { All (λ place. place < length values.now) places.now }
    ensures { IfOk result (λ ts. map (λ t. t.now) ts.items
        ≡ map (tensor_at values.now) places.now) }
{
    let mut found: Vec<&'a Tensor> = Vec::with_capacity(alloc, places.len())?;
    for place in places {
        found.push(&values[*place])?;
    }
    Ok(found)
}

/// What a local instruction does on a device.
fn local_step<S: LocalSteps>(
    alloc: Global,
    steps: &S,
    instruction: &Instruction<'_>,
    g: &Grid,
    device: u64,
    state: &State,
) -> Result<Step, Mem>
    requires next { state.now.next + 1 < 2 ^ 64 }
    requires places { All (λ place. place < length state.now.values.items)
        instruction.now.places.items }
    requires axes { AreAxesOf (length g.now.extents) (axes_of instruction.now.op.now.kind) }
    requires device { device < cell_count g.now.extents }
    requires can { S.can instruction.now.op.now g.now.extents device
        (map (tensor_at state.now.values.items) instruction.now.places.items) }
    ensures step { IfOk result (λ x. step_of state.now x ≡ local_turn (device_of state.now)
        ((steps_on g.now.extents).local instruction.now.op.now device
        (map (tensor_at state.now.values.items) instruction.now.places.items))) }
    ensures made { IfOk result (CanMake state.now) }
{
    let operands = values_at(
        alloc,
        state.values.as_slice(),
        instruction.places.as_slice(),
    )?;
    match steps.step(alloc, instruction.op, g, device, operands.as_slice())? {
        Some(t) => Ok(Step::Gives(t)),
        None => Ok(Step::Stops(Turn::Stuck)),
    }
}

/// What a collective does on a device that waits for it.
fn take_step(
    alloc: Global,
    instruction: &Instruction<'_>,
    g: &Grid,
    states: &[State],
    device: u64,
    state: &State,
) -> Result<Step, Mem>
    requires next { state.now.next + 1 < 2 ^ 64 }
    requires collective { is_collective_class (class_of instruction.now.op.now.kind) ≡ true }
    requires described { (x : declared_halo.UpdateHalo)
        → instruction.now.op.now.kind ≡ kind_variants.UpdateHalo x → ⊥ }
    requires axes { AreAxesOf (length g.now.extents) (axes_of instruction.now.op.now.kind) }
    requires states { length states.now ≡ cell_count g.now.extents }
    requires device { device < cell_count g.now.extents }
    requires posted { All HasPosted states.now }
    requires can { (ts : List TensorValue)
        → posted_in g.now.extents instruction.now.op.now device state.now.next
        (length (device_of state.now).posts - 1) (map device_of states.now) ≡ Some ts
        → CanTake instruction.now.op.now g.now.extents ts
        (place_in g.now.extents (axes_of instruction.now.op.now.kind) device) }
    ensures step { IfOk result (λ x. step_of state.now x ≡ take_turn (device_of state.now)
        (option_and_then (λ ts. collected instruction.now.op.now g.now.extents ts
        (place_in g.now.extents (axes_of instruction.now.op.now.kind) device))
        (posted_in g.now.extents instruction.now.op.now device state.now.next
        (length (device_of state.now).posts - 1) (map device_of states.now)))) }
    ensures made { IfOk result (CanMake state.now) }
{
    let axes = group_axes(alloc, g, &instruction.op.kind);
    let number = state.post_count().saturating_sub(1);
    let Some(ts) = gathered(alloc, states, g, &axes, device, state.next, number)? else {
        return Ok(Step::Stops(Turn::Mismatch));
    };
    let place = place_in_group(g, &axes, device);
    match collect_at(alloc, instruction.op, g, ts.as_slice(), place)? {
        Some(t) => Ok(Step::Takes(t)),
        None => Ok(Step::Stops(Turn::Mismatch)),
    }
}

/// What the next turn of a device does.
fn next_step<S: LocalSteps>(
    alloc: Global,
    steps: &S,
    script: &Script<'_>,
    states: &[State],
    device: u64,
    state: &State,
) -> Result<Step, Mem>
    requires sound { IsSound script.now states.now }
    requires device { device < cell_count script.now.grid.now.extents }
    requires state { slice_get states.now device ≡ Some state.now }
    requires moves { can_move (program_of (source_of script.now states.now))
        (map device_of states.now) device ≡ true }
    requires can { CanTurn S.can (source_of script.now states.now) (map device_of states.now)
        device }
    ensures step { IfOk result (λ x. turn_of (program_of (source_of script.now states.now))
        (map device_of states.now) device (device_at (map device_of states.now) device)
        ≡ step_of state.now x) }
    ensures made { IfOk result (CanMake state.now) }
    ensures posted { turn (program_of (source_of script.now states.now)) (map device_of states.now)
        device ≡ Posted → IsOk result }
{
    let instruction = &script.instructions[state.next];
    if !is_collective(instruction.op) {
        return local_step(alloc, steps, instruction, script.grid, device, state);
    }
    if !state.waits {
        return Ok(Step::Posts(instruction.places[0]));
    }
    take_step(alloc, instruction, script.grid, states, device, state)
}

/// Makes a step of a device.
fn make_step(state: &mut State, step: Step) -> Result<Turn, Mem>
    requires made { CanMake state.old step }
    requires posted { HasPosted state.old }
    ensures kind { IfOk result (λ t. t ≡ (step_of state.old step).0) }
    ensures after { OnOk result (device_of state.new ≡ (step_of state.old step).1) }
    ensures arguments { (n : ℕ) → n ≤ length state.old.values.items
        → take n state.new.values.items ≡ take n state.old.values.items }
    ensures placed { HasPosted state.new }
    ensures room { vec_capacity state.old.posts ≤ vec_capacity state.new.posts }
    ensures posted { (step_of state.old step).0 ≡ Posted → IsOk result }
    ensures err { OnErr result (device_of state.new ≡ device_of state.old) }
{
    match step {
        Step::Stops(turn) => Ok(turn),
        Step::Gives(t) => {
            state.append(t)?;
            Ok(Turn::Local)
        }
        Step::Takes(t) => {
            state.take(t)?;
            Ok(Turn::Took)
        }
        Step::Posts(place) => {
            state.post(place);
            Ok(Turn::Posted)
        }
    }
}

/// Makes a turn of a device.
pub(crate) fn make_turn<S: LocalSteps>(
    alloc: Global,
    steps: &S,
    script: &Script<'_>,
    states: &mut [State],
    device: u64,
) -> Result<Turn, Mem>
    requires sound { IsSound script.now states.old }
    requires device { device < cell_count script.now.grid.now.extents }
    requires moves { can_move (program_of (source_of script.now states.old))
        (map device_of states.old) device ≡ true }
    requires can { CanTurn S.can (source_of script.now states.old) (map device_of states.old)
        device }
    ensures kind { IfOk result (λ t. t ≡ turn (program_of (source_of script.now states.old))
        (map device_of states.old) device) }
    ensures after { OnOk result (map device_of states.new
        ≡ after (program_of (source_of script.now states.old)) (map device_of states.old) device) }
    ensures arguments { map (arguments_in script.now.arity) states.new
        ≡ map (arguments_in script.now.arity) states.old }
    ensures placed { All HasPosted states.new }
    ensures room { All (HasRoom (collectives (program_of (source_of script.now states.old))
        (program_of (source_of script.now states.old)).size)) states.new }
    ensures posted { turn (program_of (source_of script.now states.old)) (map device_of states.old)
        device ≡ Posted → IsOk result }
    ensures err { OnErr result (map device_of states.new ≡ map device_of states.old) }
{
    let now = &states[..];
    let at = device as usize;
    let step = next_step(alloc, steps, script, now, device, &now[at])?;
    make_step(&mut states[at], step)
}
