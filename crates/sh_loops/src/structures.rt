ghost use Rattle.std.specs.Prelude.{◌≡◌, ◌++◌, ◌∷◌, [], All, Some, map, drop, get_or, min};
ghost use Rattle.std.specs.Prelude.{IfOk, IfSome, option_and_then};
ghost use Rattle.sh_base.specs.Shape.{cell_count};
ghost use Rattle.sh_loops.specs.Nests.{structured_value};
ghost use Rattle.sh_loops.specs.Structured.{CanFoldParts, CanNest, IsOfStructure, IsRegionStep};
ghost use Rattle.sh_loops.specs.Structured.{IsStep, fixed_by, value_by, widths_of};
ghost use Rattle.sh_loops.specs.Structures.{HasFewLoops};
ghost use Rattle.sh_ir.specs.Loops.{Structure, structure_of};
ghost use Rattle.sh_sem.specs.Given.{gives_nest};
ghost use Rattle.sh_tensor.specs.Tensor.{IsHeld, at as cell_of_tensor};

use crate::loops::{Loops, loops_of};
use crate::nests::{Nest, structured};
use crate::placing::region_of;
use crate::sizes::agreed;
use crate::steps::PointStep;
use sh_base::{Cell, Cells, Duplicate, Ids, Items, Mem, Shape, Width};
use sh_ir::{Body, OpKind};
use sh_tensor::Tensor;
use std::alloc::Global;

/// The cells of scalars.
fn scalar_cells(alloc: Global, scalars: &[&Tensor]) -> Result<Cells, Mem>
    ensures { IfOk result (λ cells. cells
        ≡ map (λ t. cell_of_tensor t []) (map (λ t. t.now) scalars.now)) }
{
    let mut cells: Vec<Cell> = Vec::with_capacity(alloc, scalars.len())?;
    for at in 0..scalars.len() {
        cells.push(first_cell(scalars[at]))?;
    }
    Ok(Items::from_vec(cells))
}

/// The cell of a scalar.
#[tactic(auto, unfolding(sh_tensor::specs::Tensor::at))]
fn first_cell(t: &Tensor) -> Cell
    ensures { result ≡ cell_of_tensor t.now [] }
{
    t.cells().first().copied().unwrap_or(Cell::Undef)
}

/// The step of a region.
fn region_step(
    alloc: Global,
    captured: &[u32],
    body: &Body,
    scalars: &[&Tensor],
) -> Result<PointStep, Mem>
    ensures { IfOk result (λ step. IsRegionStep step body.now captured.now
        (map (λ t. cell_of_tensor t []) (map (λ t. t.now) scalars.now))) }
{
    let cells = scalar_cells(alloc, scalars)?;
    Ok(PointStep::Yielded(region_of(alloc, captured, body, cells)?))
}

/// The width of an input.
fn width_at(inputs: &[&Tensor], at: usize, width: Width) -> Width
    ensures { result ≡ get_or (widths_of (map (λ t. t.now) inputs.now)) at width }
{
    match inputs.get(at) {
        Some(t) => t.width(),
        None => width,
    }
}

/// The step of an operation, with an output of this width.
#[tactic(auto, unfolding(sh_ir::specs::Loops::structure_of))]
fn step_of(
    alloc: Global,
    kind: &OpKind,
    captured: &[u32],
    width: Width,
    inputs: &[&Tensor],
    scalars: &[&Tensor],
) -> Result<PointStep, Mem>
    ensures { IfOk result (λ step. IfSome (structure_of kind.now) (λ s. IsStep step s.step
        (widths_of (map (λ t. t.now) inputs.now)) width captured.now
        (map (λ t. cell_of_tensor t []) (map (λ t. t.now) scalars.now)))) }
{
    match kind {
        OpKind::Reduce(x) => region_step(alloc, captured, &x.body, scalars),
        OpKind::Generic(x) => region_step(alloc, captured, &x.body, scalars),
        OpKind::Fill(_) => Ok(PointStep::Copied),
        OpKind::Transpose(_) => Ok(PointStep::Copied),
        OpKind::Broadcast(_) => Ok(PointStep::Copied),
        _ => Ok(PointStep::ProductAdded(width_at(inputs, 0, width), width_at(inputs, 1, width))),
    }
}

/// All maps, the output's last.
pub(crate) fn all_maps(alloc: Global, loops: &Loops) -> Result<Items<Items<Ids>>, Mem>
    ensures { IfOk result (λ maps. maps ≡ loops.now.inputs ++ loops.now.output ∷ []) }
{
    let mut maps = loops.inputs.duplicate(alloc)?;
    maps.push(loops.output.duplicate(alloc)?)?;
    Ok(maps)
}

/// How many loop points there are; at most one less than 2 to the 128.
pub(crate) fn count_points(extents: &Shape) -> u128
    ensures { result ≡ min (cell_count extents.now) 340282366920938463463374607431768211455 }
{
    let mut total: u128 = 1;
    for extent in extents.extents() {
        // A product that is too large stays so, unless a later extent is 0.
        total = total.saturating_mul(u128::from(*extent));
    }
    total
}

/// Each of these is a tensor: what reading its shape tells.
pub(crate) fn are_tensors(ins: &[&Tensor])
    ensures { All IsHeld (map (λ t. t.now) ins.now) }
{
    for at in 0..ins.len() {
        let _whole = ins[at].shape();
    }
}

/// What an operation gives of inputs, an output and scalars whose sizes agree.
fn fold_parts(
    alloc: Global,
    kind: &OpKind,
    loops: Loops,
    captured: &[u32],
    extents: &Shape,
    inputs: &[&Tensor],
    outs: &Tensor,
    scalars: &[&Tensor],
) -> Result<Option<Tensor>, Mem>
    requires { CanFoldParts kind.now loops captured.now extents.now
        (map (λ t. t.now) inputs.now) outs.now (map (λ t. t.now) scalars.now) }
    ensures { (s : Structure) → structure_of kind.now ≡ Some s → IfOk result (λ out. out
        ≡ structured_value s (fixed_by captured.now (map (λ t. t.now) inputs.now) outs.now
        (map (λ t. t.now) scalars.now)) extents.now (map (λ t. t.now) inputs.now) outs.now) }
{
    // Each operand has cells of its width, as reading it tells.
    are_tensors(inputs);
    are_tensors(scalars);
    let _whole = outs.shape();
    let step = step_of(alloc, kind, captured, outs.width(), inputs, scalars)?;
    let nest = Nest {
        inputs: loops.inputs,
        output: loops.output,
        step,
    };
    structured(alloc, &nest, extents, count_points(extents), inputs, outs)
}

/// The names behind so many.
fn names_behind(names: &[u32], count: usize) -> &[u32]
    ensures { result.now ≡ drop count names.now }
{
    if count > names.len() {
        return &[];
    }
    let (_, rest) = names.split_at(count);
    rest
}

/// What an operation of these loops gives of its operands.
fn fold_op(
    alloc: Global,
    kind: &OpKind,
    loops: Loops,
    operands: &[u32],
    ins: &[&Tensor],
    width: Width,
) -> Result<Option<Tensor>, Mem>
    requires { IsOfStructure kind.now loops operands.now width (map (λ t. t.now) ins.now) }
    ensures { (s : Structure) → structure_of kind.now ≡ Some s → IfOk result (λ out. out
        ≡ value_by (gives_nest operands.now s) width (map (λ t. t.now) ins.now)) }
{
    let count = loops.inputs.len();
    if ins.len() <= count {
        return Ok(None);
    }
    let (inputs, others) = ins.split_at(count);
    let (typed, scalars) = ins.split_at(count + 1);
    let outs = others[0];
    let maps = all_maps(alloc, &loops)?;
    match agreed(alloc, maps.as_slice(), typed, loops.count) {
        Some(extents) => {
            let captured = names_behind(operands, count + 1);
            fold_parts(
                alloc, kind, loops, captured, &extents, inputs, outs, scalars,
            )
        }
        None => Ok(None),
    }
}

/// What a structured operation gives of its operands; none where it is stuck, or isn't structured.
pub fn structured_op(
    alloc: Global,
    kind: &OpKind,
    operands: &[u32],
    ins: &[&Tensor],
    width: Width,
) -> Result<Option<Tensor>, Mem>
    requires few { HasFewLoops kind.now }
    requires fits { IfSome (structure_of kind.now)
        (λ s. CanNest s operands.now width (map (λ t. t.now) ins.now)) }
    ensures { IfOk result (λ out. out ≡ option_and_then
        (λ s. value_by (gives_nest operands.now s) width (map (λ t. t.now) ins.now))
        (structure_of kind.now)) }
{
    match loops_of(alloc, kind)? {
        Some(loops) => fold_op(alloc, kind, loops, operands, ins, width),
        None => Ok(None),
    }
}
