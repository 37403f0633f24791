ghost use Rattle.std.specs.Prelude.{◌≡◌, ◌∷◌, [], IfSome};
ghost use Rattle.sh_base.specs.Cells.{IsCellOf};
ghost use Rattle.std.specs.List.{AllByRecursion};
ghost use Rattle.sh_loops.specs.Formulas.{CanApply, formula_of, measured, operand_width};
ghost use Rattle.sh_loops.specs.Formulas.{result_width};
ghost use Rattle.sh_loops.specs.Formulas.{result_width as width_given};
ghost use Rattle.sh_sem.specs.Scalars.{chosen as chosen_cell, formula_cell};

use crate::words::combined;
use sh_base::{BinOp, CastOp, Cell, Predicate, Width};
use sh_int::{cast, compare};

/// An element operation of the `arith` dialect with the widths at which it works.
#[derive(Clone, Copy, Debug)]
pub enum Formula {
    Binary(BinOp, Width),
    Compare(Predicate, Width),
    /// Of cells of a width, by a condition.
    Choice(Width),
    /// From the first width to the second.
    Cast(CastOp, Width, Width),
}

impl Formula {
    /// The width of what it gives.
    pub fn result_width(self) -> Width
        ensures { result ≡ width_given self }
    {
        match self {
            Formula::Binary(_, w) | Formula::Choice(w) | Formula::Cast(_, _, w) => w,
            Formula::Compare(..) => Width::I1,
        }
    }

    /// What it gives of one cell, or none where it is stuck.
    #[tactic(auto, unfolding(sh_sem::specs::Scalars::formula_cell))]
    pub fn on_one(self, a: Cell) -> Option<Cell>
        requires first { IsCellOf (operand_width self) a }
        requires widths { CanApply self }
        ensures value { result ≡ formula_cell (formula_of self) (a ∷ []) }
        ensures within { IfSome result (λ cell. IsCellOf (result_width self) cell) }
    {
        match self {
            Formula::Cast(op, from, to) => Some(cast(op, from, to, a)),
            _ => None,
        }
    }

    /// What it gives of two cells, or none where it is stuck.
    #[tactic(auto, unfolding(sh_sem::specs::Scalars::formula_cell))]
    pub fn on_two(self, a: Cell, b: Cell) -> Option<Cell>
        requires first { IsCellOf (operand_width self) a }
        requires second { IsCellOf (operand_width self) b }
        ensures value { result ≡ formula_cell (formula_of self) (a ∷ b ∷ []) }
        ensures within { IfSome result (λ cell. IsCellOf (result_width self) cell) }
    {
        match self {
            Formula::Binary(op, w) => combined(op, w, a, b),
            Formula::Compare(p, w) => Some(compare(p, w, a, b)),
            _ => None,
        }
    }

    /// What it gives of a condition and two cells, or none where it is stuck.
    #[tactic(auto, unfolding(sh_sem::specs::Scalars::formula_cell))]
    pub fn on_three(self, c: Cell, a: Cell, b: Cell) -> Option<Cell>
        requires first { IsCellOf (operand_width self) a }
        requires second { IsCellOf (operand_width self) b }
        ensures value { result ≡ formula_cell (formula_of self) (c ∷ a ∷ b ∷ []) }
        ensures within { IfSome result (λ cell. IsCellOf (result_width self) cell) }
    {
        match self {
            Formula::Choice(_) => Some(chosen(c, a, b)),
            _ => None,
        }
    }

    /// What it gives of cells, or none where it is stuck or they are too many or too few.
    pub(crate) fn on_list(self, cells: &[Cell]) -> Option<Cell>
        requires widths { CanApply self }
        requires cells { AllByRecursion (IsCellOf (operand_width self)) (measured self cells.now) }
        ensures { result ≡ formula_cell (formula_of self) cells.now }
    {
        match self {
            Formula::Choice(_) => {
                if cells.len() != 3 {
                    return None;
                }
                self.on_three(cells[0], cells[1], cells[2])
            }
            Formula::Cast(..) => {
                if cells.len() != 1 {
                    return None;
                }
                self.on_one(cells[0])
            }
            Formula::Binary(..) => {
                if cells.len() != 2 {
                    return None;
                }
                self.on_two(cells[0], cells[1])
            }
            Formula::Compare(..) => {
                if cells.len() != 2 {
                    return None;
                }
                self.on_two(cells[0], cells[1])
            }
        }
    }
}

/// The second cell where the condition holds, the third where it doesn't; an undefined condition
/// chooses neither.
fn chosen(condition: Cell, a: Cell, b: Cell) -> Cell
    ensures value { result ≡ chosen_cell condition a b }
    ensures within { (w : Width) → IsCellOf w a → IsCellOf w b → IsCellOf w result }
{
    match condition {
        Cell::Undef => Cell::Undef,
        Cell::Val(n) => { if n == 0 { b } else { a } }
    }
}
