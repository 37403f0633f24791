ghost use Rattle.std.specs.Prelude.{◌≡◌, IfOk, Some, OnOk, filter_map, length, map};
ghost use Rattle.sh_ir.specs.Classes.{class_of};
ghost use Rattle.sh_pieces.specs.Instructions.{last_place};
ghost use Rattle.sh_sem.specs.Returned.{returned as names_returned};
ghost use Rattle.sh_sem.specs.Steps.{is_collective_class};
ghost use Rattle.sh_world.specs.Scripts.{AllArePlaced, KnowsOperands, collectives_in, names_until, places_in, without_return};

use crate::places::{Places, known_places, parameters, places_of};
use sh_base::Mem;
use sh_grid::Grid;
use sh_ir::{Arg, Func, Op, OpClass};
use std::alloc::Global;

/// An instruction, with the places of its operands among the values of a device.
#[derive(Drop)]
pub(crate) struct Instruction<'a> {
    pub(crate) op: &'a Op,
    pub(crate) places: Vec<usize>,
}

/// What each device runs: a function on a grid, its names turned into places once.
#[derive(Drop)]
pub(crate) struct Script<'a> {
    pub(crate) func: &'a Func,
    pub(crate) grid: &'a Grid,
    /// How many parameters the function has.
    pub(crate) arity: usize,
    pub(crate) instructions: Vec<Instruction<'a>>,
    /// The places of the results.
    pub(crate) results: Vec<usize>,
}

/// Whether the devices of a group do an operation together.
pub(crate) fn is_collective(op: &Op) -> bool
    ensures { result ≡ is_collective_class (class_of op.now.kind) }
{
    matches!(op.kind.class(), OpClass::Collective)
}

/// The operations but the return.
fn instructions<'a>(alloc: Global, ops: &'a [Op]) -> Result<Vec<&'a Op>, Mem>
    ensures { IfOk result (λ found. map (λ op. op.now) found.items ≡ without_return ops.now) }
{
    let mut found: Vec<&'a Op> = Vec::new(alloc);
    for op in ops {
        if op.kind.class() != OpClass::Return {
            found.push(op)?;
        }
    }
    Ok(found)
}

/// The names that the return gives back.
fn returned(ops: &[Op]) -> &[u32]
    ensures { result.now ≡ names_returned ops.now }
{
    for op in ops {
        if op.kind.class() == OpClass::Return {
            return op.operands.as_slice();
        }
    }
    &[]
}

/// Instructions with the places of their operands, behind parameters whose places are known. Then
/// the places of all names are known.
fn placed<'a>(
    alloc: Global,
    params: &[Arg],
    ops: &[&'a Op],
    places: &mut Places,
) -> Result<Vec<Instruction<'a>>, Mem>
    requires places { places_in places.old
        ≡ last_place (map (λ name. Some name) (map (λ a. a.id) params.now)) }
    requires known { KnowsOperands (map (λ a. a.id) params.now) (map (λ op. op.now) ops.now) }
    ensures instructions { IfOk result (λ is. AllArePlaced (map (λ a. a.id) params.now)
        (map (λ op. op.now) ops.now) (length ops.now) is.items) }
    ensures places { OnOk result (places_in places.new ≡ last_place
        (names_until (map (λ a. a.id) params.now) (map (λ op. op.now) ops.now) (length ops.now))) }
{
    let mut found: Vec<Instruction<'a>> = Vec::with_capacity(alloc, ops.len())?;
    for at in 0..ops.len() {
        let op = ops[at];
        let Some(operands) = places_of(alloc, places, op.operands.as_slice())? else {
            unreachable!();
        };
        found.push(Instruction {
            op,
            places: operands,
        })?;
        let place = params.len().checked_add(at).ok_or(Mem)?;
        places.define(op.defines, place)?;
    }
    Ok(found)
}

/// What each device runs, with the places of all names.
pub(crate) fn script_of<'a>(
    alloc: Global,
    func: &'a Func,
    grid: &'a Grid,
) -> Result<Script<'a>, Mem>
    requires { KnowsOperands (map (λ a. a.id) func.now.args) (without_return func.now.ops) }
    ensures func { IfOk result (λ x. x.func.now ≡ func.now) }
    ensures grid { IfOk result (λ x. x.grid.now ≡ grid.now) }
    ensures arity { IfOk result (λ x. x.arity ≡ length func.now.args) }
    ensures placed { IfOk result (λ x. AllArePlaced (map (λ a. a.id) func.now.args)
        (without_return func.now.ops) (length (without_return func.now.ops)) x.instructions.items) }
    ensures results { IfOk result (λ x. x.results.items ≡ filter_map (last_place
        (names_until (map (λ a. a.id) func.now.args) (without_return func.now.ops)
        (length (without_return func.now.ops)))) (names_returned func.now.ops)) }
{
    let params = func.args.as_slice();
    let ops = func.ops.as_slice();
    let mut places = parameters(alloc, params)?;
    let found = instructions(alloc, ops)?;
    let instructions = placed(alloc, params, found.as_slice(), &mut places)?;
    let results = known_places(alloc, &places, returned(ops))?;
    Ok(Script {
        func,
        grid,
        arity: params.len(),
        instructions,
        results,
    })
}

/// How many of the instructions are collectives.
pub(crate) fn collectives(instructions: &[Instruction<'_>]) -> usize
    ensures { result ≡ collectives_in (map (λ i. i.op.now) instructions.now)
        (length instructions.now) }
{
    let mut count = 0;
    for at in 0..instructions.len() {
        if is_collective(instructions[at].op) {
            count += 1;
        }
    }
    count
}
