ghost use Rattle.std.specs.Prelude.{◌≡◌, ◌<◌, ◌≤◌, ◌^◌, All, get_or, length};
ghost use Rattle.sh_base.specs.Shape.{cell_count, max_rank, unflat_of};
ghost use Rattle.sh_loops.specs.Folds.{coordinate_of};
ghost use Rattle.sh_sem.specs.Nest.{index_at as index_of_point};

use sh_base::{Ids, Shape, shape};
use smallvec::SmallVec;
use std::alloc::Global;

/// The point of so many loops with this row-major number. It takes no memory.
pub(crate) fn point_at(alloc: Global, extents: &Shape, count: u128, number: u128) -> Shape
    requires count { count ≡ cell_count extents.now }
    requires below { number < count }
    ensures { result ≡ unflat_of extents.now number }
{
    let mut places: SmallVec<u64, 6> = SmallVec::new(alloc);
    let mut stride = count;
    let mut rest = number;
    for extent in extents.extents() {
        stride /= u128::from(*extent);
        places.push_reserved((rest / stride) as u64);
        rest %= stride;
    }
    shape(alloc, places.as_slice())
}

/// The coordinate along one loop; 0 where there is no such loop.
pub(crate) fn entry(point: &[u64], at: u32) -> u64
    ensures { result ≡ get_or point.now at 0 }
{
    point.get(at as usize).copied().unwrap_or(0)
}

/// The coordinate of a dimension that follows these loops: the sum of theirs.
fn coordinate(loops: &[u32], point: &[u64]) -> u64
    requires { coordinate_of point.now loops.now < 2 ^ 64 }
    ensures { result ≡ coordinate_of point.now loops.now }
{
    let mut total = 0;
    for at in loops {
        total += entry(point, *at);
    }
    total
}

/// The index that an operand has at a loop point. It takes no memory.
pub(crate) fn index_at(alloc: Global, dims: &[Ids], point: &Shape) -> Shape
    requires short { length dims.now ≤ max_rank }
    requires small { All (λ k. k < 2 ^ 64) (index_of_point dims.now point.now) }
    ensures { result ≡ index_of_point dims.now point.now }
{
    let point = point.extents();
    let mut places: SmallVec<u64, 6> = SmallVec::new(alloc);
    for loops in dims {
        places.push_reserved(coordinate(loops.as_slice(), point));
    }
    shape(alloc, places.as_slice())
}
