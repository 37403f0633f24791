ghost use Rattle.std.specs.Prelude.{◌≡◌, ◌∷◌, [], All, IfOk, IfSome, length};
ghost use Rattle.sh_base.specs.Cells.{IsCellOf};
ghost use Rattle.sh_loops.specs.Cells.{cells_by};
ghost use Rattle.sh_loops.specs.Formulas.{
  CanApply,
  WorksOn,
  formula_value,
  formula_at,
  formula_of,
  operand_width,
  result_width,
};

use sh_base::{Cell, Cells, Items, Mem};
use sh_loops::{Formula, made, shape_of};
use sh_sem::cells_of;
use sh_tensor::Tensor;
use std::alloc::Global;

/// What a formula gives of each cell, or none where it is stuck at one.
fn on_cells(alloc: Global, formula: Formula, first: &[Cell]) -> Result<Option<Cells>, Mem>
    requires first { All (IsCellOf (operand_width formula)) first.now }
    requires widths { CanApply formula }
    ensures value { IfOk result (λ out. out
        ≡ cells_by (formula_at (formula_of formula) (first.now ∷ [])) (length first.now)) }
    ensures within { IfOk result (λ out. IfSome out (All (IsCellOf (result_width formula)))) }
{
    let mut cells: Vec<Cell> = Vec::with_capacity(alloc, first.len())?;
    for at in 0..first.len() {
        match formula.on_one(first[at]) {
            Some(cell) => cells.push(cell)?,
            None => return Ok(None),
        }
    }
    Ok(Some(Items::from_vec(cells)))
}

/// What a formula gives of each two cells, or none where it is stuck at some.
fn on_pairs(
    alloc: Global,
    formula: Formula,
    first: &[Cell],
    second: &[Cell],
) -> Result<Option<Cells>, Mem>
    requires long { length second.now ≡ length first.now }
    requires first { All (IsCellOf (operand_width formula)) first.now }
    requires second { All (IsCellOf (operand_width formula)) second.now }
    ensures value { IfOk result (λ out. out
        ≡ cells_by (formula_at (formula_of formula) (first.now ∷ second.now ∷ []))
        (length first.now)) }
    ensures within { IfOk result (λ out. IfSome out (All (IsCellOf (result_width formula)))) }
{
    let mut cells: Vec<Cell> = Vec::with_capacity(alloc, first.len())?;
    for at in 0..first.len() {
        match formula.on_two(first[at], second[at]) {
            Some(cell) => cells.push(cell)?,
            None => return Ok(None),
        }
    }
    Ok(Some(Items::from_vec(cells)))
}

/// What a formula gives of each condition and two cells, or none where it is stuck at some.
fn on_triples(
    alloc: Global,
    formula: Formula,
    conditions: &[Cell],
    first: &[Cell],
    second: &[Cell],
) -> Result<Option<Cells>, Mem>
    requires conditions { length conditions.now ≡ length first.now }
    requires long { length second.now ≡ length first.now }
    requires first { All (IsCellOf (operand_width formula)) first.now }
    requires second { All (IsCellOf (operand_width formula)) second.now }
    ensures value { IfOk result (λ out. out
        ≡ cells_by (formula_at (formula_of formula) (conditions.now ∷ first.now ∷ second.now ∷ []))
        (length first.now)) }
    ensures within { IfOk result (λ out. IfSome out (All (IsCellOf (result_width formula)))) }
{
    let mut cells: Vec<Cell> = Vec::with_capacity(alloc, first.len())?;
    for at in 0..first.len() {
        match formula.on_three(conditions[at], first[at], second[at]) {
            Some(cell) => cells.push(cell)?,
            None => return Ok(None),
        }
    }
    Ok(Some(Items::from_vec(cells)))
}

/// What a formula gives of a tensor, or none where it is stuck at a cell.
pub fn element_of_one(alloc: Global, formula: Formula, a: &Tensor) -> Result<Option<Tensor>, Mem>
    requires works { WorksOn formula (a.now.width ∷ []) }
    ensures { IfOk result (λ out. out ≡ formula_value formula a.now.shape (a.now ∷ [])) }
{
    let cells = on_cells(alloc, formula, cells_of(a))?;
    Ok(made(shape_of(alloc, a), formula.result_width(), cells))
}

/// What a formula gives of two tensors of one shape, or none where it is stuck at some cells.
pub fn element_of_two(
    alloc: Global,
    formula: Formula,
    a: &Tensor,
    b: &Tensor,
) -> Result<Option<Tensor>, Mem>
    requires works { WorksOn formula (a.now.width ∷ b.now.width ∷ []) }
    requires same { b.now.shape ≡ a.now.shape }
    ensures { IfOk result (λ out. out ≡ formula_value formula a.now.shape (a.now ∷ b.now ∷ [])) }
{
    let cells = on_pairs(alloc, formula, cells_of(a), cells_of(b))?;
    Ok(made(shape_of(alloc, a), formula.result_width(), cells))
}

/// What a choice gives of conditions and two tensors, all of one shape.
pub fn element_of_three(
    alloc: Global,
    formula: Formula,
    conditions: &Tensor,
    a: &Tensor,
    b: &Tensor,
) -> Result<Option<Tensor>, Mem>
    requires works { WorksOn formula (a.now.width ∷ b.now.width ∷ []) }
    requires conditions { conditions.now.shape ≡ a.now.shape }
    requires same { b.now.shape ≡ a.now.shape }
    ensures { IfOk result (λ out. out
        ≡ formula_value formula a.now.shape (conditions.now ∷ a.now ∷ b.now ∷ [])) }
{
    let cells = on_triples(
        alloc,
        formula,
        cells_of(conditions),
        cells_of(a),
        cells_of(b),
    )?;
    Ok(made(shape_of(alloc, a), formula.result_width(), cells))
}
