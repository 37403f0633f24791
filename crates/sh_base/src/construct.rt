ghost use Rattle.std.specs.Prelude.{◌≡◌, ◌≤◌, length};
ghost use Rattle.sh_base.specs.Shape.{max_rank};

use crate::Shape;
use smallvec::SmallVec;
use std::alloc::Global;

/// The shape with these extents, at most six. It takes no memory.
pub fn shape(alloc: Global, extents: &[u64]) -> Shape
    requires { length extents.now ≤ max_rank }
    ensures { result ≡ extents.now }
{
    Shape {
        extents: SmallVec::from_slice(alloc, extents).unwrap(),
    }
}
