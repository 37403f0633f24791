ghost use Rattle.std.specs.Prelude.{◌≡◌, ◌<◌, ◌≤◌, All, IfOk, Some, get_or, map};
ghost use Rattle.std.specs.List.{AllByRecursion};
ghost use Rattle.sh_base.specs.Cells.{IsCellOf};
ghost use Rattle.sh_base.specs.Shape.{cell_count, max_cells, unflat_of};
ghost use Rattle.sh_eval.specs.Rules.{rule_cell};
ghost use Rattle.sh_loops.specs.Cells.{cells_by};

use crate::pieces::{joined, moved, padded};
use crate::reading::cell_numbered;
use crate::slices::{SliceRange, inserted, sliced};
use sh_base::{Cell, Cells, Items, Mem, Numbers, Shape, Width, unflat};
use sh_sem::{cells_of, count_of};
use sh_tensor::Tensor;
use std::alloc::Global;

/// Where the cells of a result come from.
#[derive(Drop)]
pub(crate) enum CellRule {
    /// A slice of the first operand.
    Sliced(Items<SliceRange>),
    /// The first operand where these slices of the second have the index, else the second.
    Inserted(Items<SliceRange>),
    /// The first operand's in row-major order.
    Reshaped,
    /// Of the first operand, so far on along an axis.
    Moved(u64, u128),
    /// Of the first operand, behind so many undefined cells along each dimension.
    Padded(Numbers),
    /// Of all operands, one after the other along an axis.
    Joined(u64),
}

impl CellRule {
    /// The cell with a number of a result of this shape, which has this index. All operands, of
    /// which `t` is the first, are of this width.
    #[tactic(auto, unfolding(crate::specs::Rules::rule_cell))]
    fn cell(
        &self,
        alloc: Global,
        t: &Tensor,
        ts: &[&Tensor],
        width: Width,
        shape: &Shape,
        number: u64,
    ) -> Cell
        requires below { number < cell_count shape.now }
        requires small { cell_count shape.now ≤ max_cells }
        requires first { t.now.width ≡ width }
        requires widths { AllByRecursion (λ t. t.width ≡ width) (map (λ t. t.now) ts.now) }
        ensures value { result ≡ rule_cell self.now t.now (map (λ t. t.now) ts.now) shape.now
            (unflat_of shape.now number) }
        ensures within { IsCellOf width result }
    {
        let place = unflat(alloc, shape, number);
        let index = place.extents();
        match self {
            CellRule::Sliced(ranges) => sliced(alloc, ranges.as_slice(), t, index),
            CellRule::Inserted(ranges) => {
                inserted(alloc, ranges.as_slice(), t, second_of(t, ts), index)
            }
            CellRule::Reshaped => cell_numbered(cells_of(t), number),
            CellRule::Moved(axis, start) => moved(alloc, t, *axis, *start, index),
            CellRule::Padded(low) => padded(alloc, low.as_slice(), t, index),
            CellRule::Joined(axis) => joined(alloc, width, *axis, ts, index),
        }
    }

    /// The cells of a result of this shape.
    pub(crate) fn cells(
        &self,
        alloc: Global,
        t: &Tensor,
        ts: &[&Tensor],
        width: Width,
        shape: &Shape,
    ) -> Result<Cells, Mem>
        requires small { cell_count shape.now ≤ max_cells }
        requires first { t.now.width ≡ width }
        requires widths { AllByRecursion (λ t. t.width ≡ width) (map (λ t. t.now) ts.now) }
        ensures value { IfOk result (λ cells. cells_by (λ k. Some (rule_cell self.now t.now
            (map (λ t. t.now) ts.now) shape.now (unflat_of shape.now k))) (cell_count shape.now)
            ≡ Some cells) }
        ensures within { IfOk result (λ cells. All (IsCellOf width) cells) }
    {
        let count = count_of(shape);
        let mut cells: Vec<Cell> = Vec::with_capacity(alloc, count)?;
        for number in 0..count {
            cells.push(self.cell(alloc, t, ts, width, shape, number as u64))?;
        }
        Ok(Items::from_vec(cells))
    }
}

/// The second operand; the first where there is one alone.
fn second_of<'a>(t: &'a Tensor, ts: &[&'a Tensor]) -> &'a Tensor
    ensures { result.now ≡ get_or (map (λ t. t.now) ts.now) 1 t.now }
{
    match ts.get(1) {
        Some(second) => second,
        None => t,
    }
}
