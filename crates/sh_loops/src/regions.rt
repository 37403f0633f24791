ghost use Rattle.std.specs.Prelude.{◌≡◌, ◌∷◌, ◌++◌, [], ℕ, List, Some, IfOk, IfSome, OnOk, option_map, option_and_then, slice_get};
ghost use Rattle.std.specs.List.{AllByRecursion};
ghost use Rattle.sh_base.specs.Cells.{IsCellOf};
ghost use Rattle.sh_base.specs.declared.numbers.Cell.{Cell};
ghost use Rattle.sh_loops.specs.Nests.{TakesRegion};
ghost use Rattle.sh_loops.specs.Placing.{TakesBody};
ghost use Rattle.sh_loops.specs.Regions.{CanRun, TakesWork, ran, region_given};
ghost use Rattle.sh_loops.specs.Regions.{step_given, steps_given, work_cell};
ghost use Rattle.sh_int.specs.Elements.{cast_of};
ghost use Rattle.sh_sem.specs.Region.{body_cell, source_cells};
ghost use Rattle.sh_sem.specs.Scalars.{cast as cast_formula, constant_cell, formula_cell};

use crate::formulas::Formula;
use crate::steps::same_width;
use sh_base::{CastOp, Cell, Cells, Items, Mem, Width};
use sh_int::cast;
use sh_ir::{BodyKind, Contents, ValueType};
use sh_sem::width_of;
use std::alloc::Global;

/// What an operation of a region does.
#[derive(Drop)]
pub(crate) enum RegionWork {
    /// It gives this cell; none where its literal is broken.
    Constant(Option<Cell>),
    Formula(Formula),
    /// The point's coordinate along a loop.
    Index(u64),
    /// A coordinate at a width.
    IndexCast(Width),
}

/// The cell of a literal of one cell.
fn constant_of(contents: &Contents) -> Option<Cell>
    ensures { result ≡ constant_cell contents.now 0 }
{
    match contents {
        Contents::Held(cells) => cells.as_slice().first().copied(),
        Contents::Broken => None,
    }
}

/// What an operation does.
#[tactic(auto, unfolding(sh_sem::specs::Region::body_cell, crate::specs::Regions::work_cell, crate::specs::Placing::TakesBody, crate::specs::Regions::TakesWork))]
pub(crate) fn work_of(kind: &BodyKind, result_type: &ValueType) -> RegionWork
    ensures takes { (cells : List Cell) → TakesBody kind.now result_type.now cells
        → TakesWork result cells }
    ensures gives { (point : List ℕ) → (cells : List Cell)
        → work_cell result point cells ≡ body_cell kind.now result_type.now point cells }
{
    let width = width_of(result_type);
    match kind {
        BodyKind::Constant(x) => RegionWork::Constant(constant_of(&x.contents)),
        BodyKind::Binary(op) => RegionWork::Formula(Formula::Binary(*op, width)),
        BodyKind::Compare(x) => {
            RegionWork::Formula(Formula::Compare(x.predicate, width_of(&x.operand_type)))
        }
        BodyKind::Select(_) => RegionWork::Formula(Formula::Choice(width)),
        BodyKind::Cast(x) => {
            RegionWork::Formula(Formula::Cast(x.op, width_of(&x.operand_type), width))
        }
        BodyKind::Index(x) => RegionWork::Index(x.dimension),
        BodyKind::IndexCast => RegionWork::IndexCast(width),
    }
}

/// A cell of a loop's index at a width: its low bits.
fn index_cast(width: Width, a: Cell) -> Cell
    requires { IsCellOf Width.I64 a }
    ensures value { result ≡ cast_of CastOp.Trunci Width.I64 width a }
    ensures within { IsCellOf width result }
{
    if same_width(width, Width::I64) {
        return a;
    }
    cast(CastOp::Trunci, Width::I64, width, a)
}

impl RegionWork {
    /// What it gives at a loop point of its operands' cells; none where it is stuck.
    #[tactic(auto, unfolding(crate::specs::Regions::work_cell, crate::specs::Regions::TakesWork))]
    fn cell(&self, point: &[u64], cells: &[Cell]) -> Option<Cell>
        requires { TakesWork self.now cells.now }
        ensures { result ≡ work_cell self.now point.now cells.now }
    {
        match self {
            RegionWork::Constant(cell) => *cell,
            RegionWork::Formula(formula) => formula.on_list(cells),
            RegionWork::Index(l) => coordinate_at(point, *l),
            RegionWork::IndexCast(width) => cast_index(*width, cells),
        }
    }
}

/// The coordinate along one loop, as a cell.
fn coordinate_at(point: &[u64], l: u64) -> Option<Cell>
    ensures { result ≡ option_map (λ k. Cell.Val k) (slice_get point.now l) }
{
    match point.get(l as usize) {
        Some(coordinate) => Some(Cell::Val(*coordinate)),
        None => None,
    }
}

/// The cell of a loop's index at a width, where it is the only one.
fn cast_index(width: Width, cells: &[Cell]) -> Option<Cell>
    requires { AllByRecursion (IsCellOf Width.I64) cells.now }
    ensures { result ≡ formula_cell (cast_formula CastOp.Trunci Width.I64 width) cells.now }
{
    if cells.len() != 1 {
        return None;
    }
    Some(index_cast(width, cells[0]))
}

// ---- placed operations

/// An operation of a region, whose operands are places among the cells before it.
#[derive(Drop)]
pub(crate) struct PlacedStep {
    pub(crate) work: RegionWork,
    pub(crate) sources: Items<Option<usize>>,
}

/// A region whose names are places.
#[derive(Drop)]
pub(crate) struct Region {
    pub(crate) steps: Items<PlacedStep>,
    pub(crate) yields: Option<usize>,
    /// The cells of the function's scalars that it uses.
    pub(crate) scalars: Cells,
}

/// The cell at a place, if there is one.
fn read(cells: &[Cell], source: Option<usize>) -> Option<Cell>
    ensures { result ≡ option_and_then (slice_get cells.now) source }
{
    match source {
        Some(at) => cells.get(at).copied(),
        None => None,
    }
}

/// The cells at these places; none where one isn't there.
fn cells_at(alloc: Global, cells: &[Cell], sources: &[Option<usize>]) -> Result<Option<Cells>, Mem>
    ensures { IfOk result (λ found. found ≡ source_cells cells.now sources.now) }
{
    let mut found: Vec<Cell> = Vec::with_capacity(alloc, sources.len())?;
    for at in 0..sources.len() {
        match read(cells, sources[at]) {
            Some(cell) => found.push(cell)?,
            None => return Ok(None),
        }
    }
    Ok(Some(Items::from_vec(found)))
}

/// What a placed operation gives at a loop point of the cells before it.
#[tactic(auto, unfolding(crate::specs::Regions::step_given))]
fn step_cell(
    alloc: Global,
    step: &PlacedStep,
    point: &[u64],
    cells: &[Cell],
) -> Result<Option<Cell>, Mem>
    requires { (found : List Cell) → source_cells cells.now step.now.sources ≡ Some found
        → TakesWork step.now.work found }
    ensures { IfOk result (λ cell. cell ≡ step_given step.now point.now cells.now) }
{
    match cells_at(alloc, cells, step.sources.as_slice())? {
        Some(found) => Ok(step.work.cell(point, found.as_slice())),
        None => Ok(None),
    }
}

/// Appends what these operations give, one after the other; no where one is stuck.
fn run(
    alloc: Global,
    steps: &[PlacedStep],
    point: &[u64],
    cells: &mut Vec<Cell>,
) -> Result<bool, Mem>
    requires { CanRun steps.now point.now cells.old.items }
    ensures { IfOk result (λ there. ran there cells.new.items
        ≡ steps_given steps.now point.now cells.old.items) }
{
    for at in 0..steps.len() {
        match step_cell(alloc, &steps[at], point, cells.as_slice())? {
            Some(cell) => cells.push(cell)?,
            None => return Ok(false),
        }
    }
    Ok(true)
}

/// Puts the cells of a region's block into a list: those of the scalars, of the inputs, and the
/// output's.
fn fill_block(
    block: &mut Vec<Cell>,
    scalars: &[Cell],
    cells: &[Cell],
    so_far: Cell,
) -> Result<(), Mem>
    ensures { OnOk result (block.new.items ≡ scalars.now ++ cells.now ++ so_far ∷ []) }
{
    block.clear();
    block.extend_from_slice(scalars)?;
    block.extend_from_slice(cells)?;
    block.push(so_far)?;
    Ok(())
}

/// The cell that a region yields at a loop point; none where an operation is stuck.
#[tactic(auto, unfolding(crate::specs::Regions::region_given))]
pub(crate) fn yielded(
    alloc: Global,
    region: &Region,
    point: &[u64],
    cells: &[Cell],
    so_far: Cell,
    block: &mut Vec<Cell>,
) -> Result<Option<Cell>, Mem>
    requires { CanRun region.now.steps point.now
        (region.now.scalars ++ cells.now ++ so_far ∷ []) }
    ensures value { IfOk result (λ cell. cell
        ≡ region_given region.now point.now (region.now.scalars ++ cells.now ++ so_far ∷ [])) }
    ensures within { (w : Width) → TakesRegion region.now w cells.now → IsCellOf w so_far
        → IfOk result (λ cell. IfSome cell (IsCellOf w)) }
{
    fill_block(block, region.scalars.as_slice(), cells, so_far)?;
    if !run(alloc, region.steps.as_slice(), point, block)? {
        return Ok(None);
    }
    Ok(read(block.as_slice(), region.yields))
}
