ghost use Rattle.std.specs.Prelude.{◌≡◌, ◌<◌, ℕ, All, IfOk, length, map, option_and_then, slice_get};
ghost use Rattle.sh_collectives.specs.Described.{CanCollect};
ghost use Rattle.sh_collectives.specs.Operands.{IsSmall, group_results};
ghost use Rattle.sh_sem.specs.Collected.{shapes_collected};
ghost use Rattle.sh_sem.specs.Scalars.{width_of};

use crate::results::collect_at;
use sh_base::{Items, Mem};
use sh_grid::Grid;
use sh_ir::Op;
use sh_tensor::Tensor;
use std::alloc::Global;

/// What a collective gives to each member of a group, in group order, by the members' operands in
/// this order; none where the group mismatches. Each result is small.
pub fn collect(
    alloc: Global,
    op: &Op,
    g: &Grid,
    ts: &[&Tensor],
) -> Result<Option<Items<Tensor>>, Mem>
    requires group { (place : ℕ) → place < length ts.now → CanCollect op.now.kind g.now.extents
        (map (λ t. t.shape) (map (λ t. t.now) ts.now)) place }
    requires widths { All (λ t. t.width ≡ width_of op.now.result) (map (λ t. t.now) ts.now) }
    requires small { (place : ℕ) → place < length ts.now → IsSmall (option_and_then
        (λ ss. slice_get ss place) (shapes_collected op.now g.now.extents
        (map (λ t. t.shape) (map (λ t. t.now) ts.now)))) }
    ensures { IfOk result (λ out. out
        ≡ group_results op.now g.now.extents (map (λ t. t.now) ts.now)) }
{
    let mut results = Items::new(alloc);
    for place in 0..ts.len() {
        match collect_at(alloc, op, g, ts, place as u64)? {
            Some(t) => results.push(t)?,
            None => return Ok(None),
        }
    }
    Ok(Some(results))
}
