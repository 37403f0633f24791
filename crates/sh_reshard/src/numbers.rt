ghost use Rattle.std.specs.Prelude.{◌≡◌, ◌<◌, IfOk, length, map, pos};
ghost use Rattle.sh_sharding.specs.LocalTypes.{part_sizes};
ghost use Rattle.sh_sharding.specs.Sharding.{dimension_of};
ghost use Rattle.sh_plan.specs.Instructions.{part_starts};

use sh_base::{Items, Mem, Numbers};
use sh_sharding::{Sharding, offset, part_count};
use std::alloc::Global;

/// The numbers as a text writes them.
pub(crate) fn integers(alloc: Global, numbers: &[u64]) -> Result<Numbers, Mem>
    ensures { IfOk result (λ written. written ≡ map pos numbers.now) }
{
    let mut written = Items::new(alloc);
    for number in numbers {
        written.push(i128::from(*number))?;
    }
    Ok(written)
}

/// Where the parts of a dimension begin.
#[tactic(auto, unfolding(sh_plan::specs::Instructions::part_starts))]
pub(crate) fn part_starts(alloc: Global, s: &Sharding, dim: u64) -> Result<Numbers, Mem>
    requires { dim < length s.now.dimensions }
    ensures { IfOk result
        (λ starts. starts ≡ map pos (part_starts s.now.grid.extents (dimension_of s.now dim))) }
{
    let mut starts = Items::new(alloc);
    for part in 0..part_count(s, dim) {
        starts.push(i128::from(offset(s, dim, part)))?;
    }
    Ok(starts)
}

/// How long the parts of a dimension are.
#[tactic(auto, unfolding(sh_sharding::specs::LocalTypes::part_sizes))]
pub(crate) fn part_sizes(alloc: Global, s: &Sharding, dim: u64) -> Result<Numbers, Mem>
    requires { dim < length s.now.dimensions }
    ensures { IfOk result
        (λ sizes. sizes ≡ map pos (part_sizes s.now.grid.extents (dimension_of s.now dim))) }
{
    let mut sizes = Items::new(alloc);
    for part in 0..part_count(s, dim) {
        let start = offset(s, dim, part);
        let end = offset(s, dim, part + 1);
        let size = end.saturating_sub(start);
        sizes.push(i128::from(size))?;
    }
    Ok(sizes)
}
