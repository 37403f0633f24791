ghost use Rattle.std.specs.Prelude.{◌≡◌, ◌∷◌, [], IfOk, map, nat_eq, option_and_then};
ghost use Rattle.std.specs.Cmp.Lexicographic.{pointwise};
ghost use Rattle.sh_eval.specs.Shapes.{with_known};
ghost use Rattle.sh_loops.specs.Formulas.{CanApply, formula_of, operand_width, result_width};
ghost use Rattle.sh_loops.specs.Structured.{value_by, widths_of};
ghost use Rattle.sh_sem.specs.Given.{gives_cells};

use crate::elements::{element_of_one, element_of_three, element_of_two};
use crate::shapes::{has_extents, is_same};
use sh_base::{Mem, Width};
use sh_ir::Dim;
use sh_loops::Formula;
use sh_tensor::Tensor;
use std::alloc::Global;

/// Whether two tensors have one shape.
fn are_alike(a: &Tensor, b: &Tensor) -> bool
    ensures { result ≡ pointwise nat_eq a.now.shape b.now.shape }
{
    is_same(a.shape().extents(), b.shape().extents())
}

/// What a formula of one cell gives of its operand.
pub(crate) fn of_one_op(
    alloc: Global,
    formula: Formula,
    ts: &[&Tensor],
) -> Result<Option<Tensor>, Mem>
    requires can { CanApply formula }
    requires widths { widths_of (map (λ t. t.now) ts.now) ≡ operand_width formula ∷ [] }
    ensures { IfOk result (λ out. out ≡ value_by (gives_cells (formula_of formula))
        (result_width formula) (map (λ t. t.now) ts.now)) }
{
    element_of_one(alloc, formula, ts[0])
}

/// What a formula of two cells gives of its operands.
pub(crate) fn of_two_op(
    alloc: Global,
    formula: Formula,
    ts: &[&Tensor],
) -> Result<Option<Tensor>, Mem>
    requires can { CanApply formula }
    requires widths { widths_of (map (λ t. t.now) ts.now)
        ≡ operand_width formula ∷ operand_width formula ∷ [] }
    ensures { IfOk result (λ out. out ≡ value_by (gives_cells (formula_of formula))
        (result_width formula) (map (λ t. t.now) ts.now)) }
{
    let (a, b) = (ts[0], ts[1]);
    if !are_alike(a, b) {
        return Ok(None);
    }
    element_of_two(alloc, formula, a, b)
}

/// What a choice gives of conditions, of this width, and of two operands.
pub(crate) fn of_three_op(
    alloc: Global,
    formula: Formula,
    condition: Width,
    ts: &[&Tensor],
) -> Result<Option<Tensor>, Mem>
    requires can { CanApply formula }
    requires widths { widths_of (map (λ t. t.now) ts.now)
        ≡ condition ∷ operand_width formula ∷ operand_width formula ∷ [] }
    ensures { IfOk result (λ out. out ≡ value_by (gives_cells (formula_of formula))
        (result_width formula) (map (λ t. t.now) ts.now)) }
{
    let (conditions, a, b) = (ts[0], ts[1], ts[2]);
    if !are_alike(conditions, a) {
        return Ok(None);
    }
    if !are_alike(conditions, b) {
        return Ok(None);
    }
    element_of_three(alloc, formula, conditions, a, b)
}

/// The tensor, if it has the extents that a type knows.
pub(crate) fn with_extents(dims: &[Dim], out: Option<Tensor>) -> Option<Tensor>
    ensures { result ≡ option_and_then (with_known dims.now) out }
{
    match out {
        Some(t) => {
            if has_extents(dims, t.shape().extents()) {
                Some(t)
            } else {
                None
            }
        }
        None => None,
    }
}
