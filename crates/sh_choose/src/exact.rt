//! What a dimension of a known sharding proposes for the loop that it follows.
ghost use Rattle.std.specs.Prelude.{◌≡◌, ◌<◌, IfOk, length, map, pos};
ghost use Rattle.sh_iface.specs.declared.options.How.TheVariants.{Scale};
ghost use Rattle.sh_sharding.specs.Order.{offsets_along};
ghost use Rattle.sh_sharding.specs.Sharding.{dimension_of};
ghost use Rattle.sh_choose.specs.Proposals.{is_exact, split_under, start_under};

use sh_base::{Items, Mem, Numbers, shape};
use sh_iface::{How, Split};
use sh_sharding::{Sharding, axes, offset, part_count};
use std::alloc::Global;

/// Whether the parts of a dimension begin at multiples of a factor.
fn is_multiple(s: &Sharding, dim: u64, factor: u64) -> bool
    requires { dim < length s.now.dimensions }
    ensures { result ≡ is_exact (Scale factor)
        (offsets_along s.now.grid.extents (dimension_of s.now dim)) }
{
    if factor == 0 {
        return false;
    }
    for part in 0..part_count(s, dim) + 1 {
        if offset(s, dim, part) % factor != 0 {
            return false;
        }
    }
    true
}

/// Whether the parts of a dimension are those of a loop that it follows so.
pub(crate) fn is_exact(s: &Sharding, dim: u64, how: How) -> bool
    requires { dim < length s.now.dimensions }
    ensures { result ≡ is_exact how
        (offsets_along s.now.grid.extents (dimension_of s.now dim)) }
{
    match how {
        How::Scale(factor) => is_multiple(s, dim, factor),
        How::Same | How::Window(_) => true,
    }
}

/// Where the loop begins a part, of this extent, where the dimension begins it at this offset.
fn start_under(extent: u64, how: How, offset: u64) -> u64
    ensures { result ≡ start_under extent how offset }
{
    match how {
        How::Same => offset,
        How::Scale(factor) => if factor == 0 { 0 } else { offset / factor },
        How::Window(_) => offset.min(extent),
    }
}

/// The starts that a dimension proposes for the loop, of this extent, that it follows so.
#[tactic(auto, using(crate::proofs::OffsetLaws::starts_more, crate::proofs::OffsetLaws::starts_end))]
fn starts_under(
    alloc: Global,
    s: &Sharding,
    dim: u64,
    extent: u64,
    how: How,
) -> Result<Numbers, Mem>
    requires { dim < length s.now.dimensions }
    ensures { IfOk result (λ starts. starts ≡ map (λ n. pos (start_under extent how n))
        (offsets_along s.now.grid.extents (dimension_of s.now dim))) }
{
    let mut starts = Items::new(alloc);
    for part in 0..part_count(s, dim) + 1 {
        let start = start_under(extent, how, offset(s, dim, part));
        starts.push(i128::from(start))?;
    }
    Ok(starts)
}

/// The split that a dimension proposes for the loop, of this extent, that it follows so.
#[tactic(auto, unfolding(crate::specs::Proposals::split_under))]
pub(crate) fn split_under(
    alloc: Global,
    s: &Sharding,
    dim: u64,
    extent: u64,
    how: How,
) -> Result<Split, Mem>
    requires { dim < length s.now.dimensions }
    ensures { IfOk result (λ split. split
        ≡ split_under s.now.grid.extents (dimension_of s.now dim) extent how) }
{
    let starts = starts_under(alloc, s, dim, extent, how)?;
    Ok(Split {
        axes: shape(alloc, axes(s, dim).extents()),
        starts,
    })
}
