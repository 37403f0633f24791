ghost use Rattle.std.specs.Prelude.{◌≡◌, ◌↔◌, IsTrue, map};
ghost use Rattle.sh_sharding.specs.Normal.{IsSame, division_of, up_to_last_split};

use crate::offset_lists::is_split_dimension;
use crate::reading::{dimensions, grid};
use crate::{Dimension, Mark, Sharding};
use sh_base::Same;

/// The dimensions up to the last one that is split.
pub(crate) fn up_to_last_split(dimensions: &[Dimension]) -> &[Dimension]
    ensures { result.now ≡ up_to_last_split dimensions.now }
{
    let mut count = 0;
    for (at, dimension) in dimensions.iter().enumerate() {
        if is_split_dimension(dimension) {
            count = at + 1;
        }
    }
    &dimensions[..count]
}

/// Whether two marks are equal.
fn same_mark(a: &Mark, b: &Mark) -> bool
    ensures { IsTrue result ↔ (a.now ≡ b.now) }
{
    match (a, b) {
        (Mark::Balanced, Mark::Balanced) => true,
        (Mark::Offsets(left), Mark::Offsets(right)) => left.same(right),
        _ => false,
    }
}

/// Whether two dimensions are divided alike, whatever their extents.
fn same_division(a: &Dimension, b: &Dimension) -> bool
    ensures { IsTrue result ↔ (division_of a.now ≡ division_of b.now) }
{
    a.low == b.low && a.high == b.high && a.axes.same(&b.axes) && same_mark(&a.mark, &b.mark)
}

/// Whether two lists of dimensions are divided alike.
fn same_divisions(a: &[Dimension], b: &[Dimension]) -> bool
    ensures { IsTrue result ↔ (map division_of a.now ≡ map division_of b.now) }
{
    if a.len() != b.len() {
        return false;
    }
    for (at, dimension) in a.iter().enumerate() {
        if !same_division(dimension, &b[at]) {
            return false;
        }
    }
    true
}

/// Whether two shardings are the same: their grids are equal, and so are their normal forms, which
/// have for each dimension up to the last one that is split its axes, its mark and its halo sizes.
/// The shapes of the tensors may differ. It takes no memory.
pub fn same(a: &Sharding, b: &Sharding) -> bool
    ensures { IsTrue result ↔ IsSame a.now b.now }
{
    let left = up_to_last_split(dimensions(a));
    let right = up_to_last_split(dimensions(b));
    grid(a).same(grid(b)) && same_divisions(left, right)
}
