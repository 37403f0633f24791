ghost use Rattle.std.specs.Prelude.{◌≡◌, ◌+◌, ◌^◌, ◌<◌, ◌≤◌, ◌++◌, ◌∷◌, [], IfOk, OnOk, length};
ghost use Rattle.sh_sharding.specs.Made.{IsState};
ghost use Rattle.sh_ways.specs.Graph.{Leads};
ghost use Rattle.sh_plan.specs.Instructions.{IsPlainPlan, ReshardsAlong, instruction_of, instructions_of};
ghost use Rattle.sh_plan.specs.Moves.{IsNamedAt};
ghost use Rattle.sh_plan.specs.States.{IsStateTo, towards};

use crate::kinds::{kind_of, local_type};
use sh_base::{Duplicate, Items, Mem, Place, Width};
use sh_grid::Grid;
use sh_ir::{Ops, push_op};
use sh_plan::{Move, Plan, moved};
use sh_sharding::Sharding;
use std::alloc::Global;

/// The place of an operation that stands in no text.
const NO_TEXT: Place = Place { line: 1, column: 1 };

/// Appends the instruction of a move, which takes the value of one name and defines another.
fn push_instruction(
    alloc: Global,
    ops: &mut Ops,
    s: &Sharding,
    next: &Sharding,
    width: Width,
    m: Move,
    value: u32,
    id: u32,
) -> Result<(), Mem>
    requires grid { s.now.grid ≡ next.now.grid }
    requires rank { length s.now.dimensions ≡ length next.now.dimensions }
    requires named { IsNamedAt s.now m }
    ensures { OnOk result
        (ops.new ≡ ops.old ++ instruction_of width s.now next.now m value id ∷ []) }
{
    let mut operands = Items::new(alloc);
    operands.push(value)?;
    let result = local_type(alloc, next, width)?;
    let kind = kind_of(alloc, s, next, width, m)?;
    push_op(ops, kind, operands, Some(id), result, NO_TEXT)
}

/// The instructions of moves that lead from one sharding without halos to another of its shape on
/// its grid, for tensors of a width. The first takes the value `value`, each other one the value
/// before it, and they define the ids from `first_id` on.
///
/// Errors: `Mem` where memory is wanting.
fn instructions(
    alloc: Global,
    from: &Sharding,
    to: &Sharding,
    moves: &[Move],
    width: Width,
    first_id: u32,
    value: u32,
) -> Result<Ops, Mem>
    requires source { IsStateTo to.now from.now }
    requires target { IsState to.now }
    requires leads { Leads (towards to.now) from.now.dimensions moves.now to.now.dimensions }
    requires ids { first_id + length moves.now ≤ 2 ^ 32 }
    ensures { IfOk result
        (λ ops. ops ≡ instructions_of width to.now from.now moves.now value first_id) }
{
    let mut ops = Items::new(alloc);
    let mut state = from.duplicate(alloc)?;
    let mut operand = value;
    let mut id = u64::from(first_id);
    let mut left = moves;
    while let Some((m, later)) = left.split_first() {
        let next = moved(alloc, &state, to, *m)?;
        let name = id as u32;
        push_instruction(alloc, &mut ops, &state, &next, width, *m, operand, name)?;
        operand = name;
        id += 1;
        state = next;
        left = later;
    }
    Ok(ops)
}

/// The instructions of a plan between two shardings without halos, for tensors of a width. The
/// first takes the value `value`, each other one the value before it, and they define the ids from
/// `first_id` on. Run in step on the cuts of a tensor by the source, they give its cuts by the
/// target.
///
/// Errors: `Mem` where memory is wanting.
pub fn lower(
    alloc: Global,
    g: &Grid,
    from: &Sharding,
    to: &Sharding,
    p: &Plan,
    width: Width,
    first_id: u32,
    value: u32,
) -> Result<Ops, Mem>
    requires source { from.now.grid ≡ g.now }
    requires target { to.now.grid ≡ g.now }
    requires plan { IsPlainPlan from.now to.now p.now }
    requires value { value < first_id }
    requires ids { first_id + length p.now.moves ≤ 2 ^ 32 }
    ensures instructions { IfOk result
        (λ ops. ops ≡ instructions_of width to.now from.now p.now.moves value first_id) }
    ensures reshards { ReshardsAlong width from.now to.now p.now.moves value first_id }
{
    instructions(alloc, from, to, p.moves.as_slice(), width, first_id, value)
}
