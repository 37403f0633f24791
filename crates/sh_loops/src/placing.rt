ghost use Rattle.std.specs.Prelude.{◌≡◌, ◌++◌, map, Some, IfOk};
ghost use Rattle.sh_loops.specs.Placing.{ArePlaced, IsAlike, StandsForBody};
ghost use Rattle.sh_pieces.specs.Instructions.{last_place as last_place_in};
ghost use Rattle.sh_sem.specs.Region.{placed, placed_op};

use crate::regions::{PlacedStep, Region, work_of};
use sh_base::{Cells, Items, Mem};
use sh_ir::{Body, BodyOp};
use std::alloc::Global;

/// The last place of a name.
fn last_place(names: &[u32], name: u32) -> Option<usize>
    ensures { result ≡ last_place_in (map (λ n. Some n) names.now) name }
{
    let mut found: Option<usize> = None;
    for at in 0..names.len() {
        let here = names[at];
        if here == name {
            found = Some(at);
        }
    }
    found
}

/// The last places of names.
fn last_places(alloc: Global, names: &[u32], wanted: &[u32]) -> Result<Items<Option<usize>>, Mem>
    ensures { IfOk result (λ places. places
        ≡ map (last_place_in (map (λ n. Some n) names.now)) wanted.now) }
{
    let mut places: Vec<Option<usize>> = Vec::with_capacity(alloc, wanted.len())?;
    for name in wanted {
        places.push(last_place(names, *name))?;
    }
    Ok(Items::from_vec(places))
}

/// An operation whose operands are places behind these names.
fn placed_step(alloc: Global, names: &[u32], op: &BodyOp) -> Result<PlacedStep, Mem>
    ensures { IfOk result (λ step. IsAlike step
        (placed_op (map (λ n. Some n) names.now) op.now)) }
{
    let sources = last_places(alloc, names, op.operands.as_slice())?;
    Ok(PlacedStep {
        work: work_of(&op.kind, &op.result),
        sources,
    })
}

/// The names of the scalars that a region uses, then those of its block arguments.
fn block_names(alloc: Global, captured: &[u32], body: &Body) -> Result<Vec<u32>, Mem>
    ensures { IfOk result (λ names. names.items ≡ captured.now ++ body.now.args) }
{
    let mut names: Vec<u32> = Vec::from_slice(alloc, captured)?;
    names.extend_from_slice(body.args.as_slice())?;
    Ok(names)
}

/// Operations behind these names, to which their own are added.
fn placed_steps(
    alloc: Global,
    names: &mut Vec<u32>,
    ops: &[BodyOp],
) -> Result<Items<PlacedStep>, Mem>
    ensures { IfOk result (λ steps. ArePlaced steps names.old.items ops.now names.new.items) }
{
    let mut steps: Vec<PlacedStep> = Vec::with_capacity(alloc, ops.len())?;
    for at in 0..ops.len() {
        let op = &ops[at];
        steps.push(placed_step(alloc, names.as_slice(), op)?)?;
        names.push(op.defines)?;
    }
    Ok(Items::from_vec(steps))
}

/// A region of an operation, whose names are made places once.
#[tactic(auto, unfolding(sh_sem::specs::Region::placed))]
pub(crate) fn region_of(
    alloc: Global,
    captured: &[u32],
    body: &Body,
    scalars: Cells,
) -> Result<Region, Mem>
    ensures body { IfOk result (λ region. StandsForBody region (placed captured.now body.now)) }
    ensures scalars { IfOk result (λ region. region.scalars ≡ scalars) }
{
    let mut names = block_names(alloc, captured, body)?;
    let steps = placed_steps(alloc, &mut names, body.ops.as_slice())?;
    let yields = last_place(names.as_slice(), body.yields);
    Ok(Region {
        steps,
        yields,
        scalars,
    })
}
