//! What propagation and the partitioner ask of an operation.
ghost use Rattle.std.specs.Prelude.{◌≡◌, ◌↔◌, ◌≤◌, ◌<◌, ℕ, IsTrue, IfOk, length, get_or};
ghost use Rattle.std.specs.Option.{option_map_or};
ghost use Rattle.sh_grid.specs.Grid.{GridValue};
ghost use Rattle.sh_iface.specs.Lawful.{IsLawful};
ghost use Rattle.sh_iface.specs.LoopNest.{value_at, dim_at, loop_at};
ghost use Rattle.sh_iface.specs.Meaning.{Meaning};
ghost use Rattle.sh_iface.specs.Splits.{implied_of};
ghost use Rattle.sh_iface.specs.Valid.{IsValid};

use crate::{Follow, LocalPart, LoopOption};
use sh_base::{Kind, Mem};
use sh_grid::Grid;
use sh_sharding::Sharding;
use std::alloc::Global;

/// The loops of an operation, and what the dimensions of its values follow.
///
/// Operands are the tensor operands alone. A number `v` equal to their count means the result.
pub trait HasLoops {
    /// What the operation is.
    ghost meaning: { Self → Meaning };

    /// How many loops there are.
    fn loop_count(&self) -> u64
        ensures { result ≡ length (meaning self.now).nest.loops };

    /// The extent of a loop, at most 1,048,576.
    fn loop_extent(&self, l: u64) -> u64
        requires { l < length (meaning self.now).nest.loops }
        ensures { result ≡ (loop_at (meaning self.now).nest l).extent };

    /// How many operands there are.
    fn operands(&self) -> u64
        ensures { result ≡ length (meaning self.now).nest.operands };

    /// How many dimensions operand `v`, or the result, has.
    fn rank(&self, v: u64) -> u64
        requires { v ≤ length (meaning self.now).nest.operands }
        ensures { result ≡ length (value_at (meaning self.now).nest v).dims };

    /// The extent of a dimension of it.
    fn extent(&self, v: u64, dim: u64) -> u64
        requires v { v ≤ length (meaning self.now).nest.operands }
        requires dim { dim < length (value_at (meaning self.now).nest v).dims }
        ensures { result ≡ (dim_at (value_at (meaning self.now).nest v) dim).extent };

    /// The loop that a dimension of it follows, if it follows one.
    fn follows(&self, v: u64, dim: u64) -> Option<Follow>
        requires v { v ≤ length (meaning self.now).nest.operands }
        requires dim { dim < length (value_at (meaning self.now).nest v).dims }
        ensures { result ≡ (dim_at (value_at (meaning self.now).nest v) dim).follow };

    /// Whether an option may split a loop. It may only where some dimension is divided as the loop.
    fn splittable(&self, l: u64) -> bool
        requires { l < length (meaning self.now).nest.loops }
        ensures { result ≡ (loop_at (meaning self.now).nest l).splittable };

    /// How the parts of a reduction along a loop are combined; none where the result follows the
    /// loop, or where they can't be combined.
    fn reduction_kind(&self, l: u64) -> Option<Kind>
        requires { l < length (meaning self.now).nest.loops }
        ensures { result ≡ (loop_at (meaning self.now).nest l).kind };
}

/// An operation whose loops can be split among devices.
pub trait ShardIface: HasLoops {
    /// Whether the loops may be split so. It takes no memory.
    fn admits(&self, g: &Grid, o: &LoopOption) -> bool
        ensures { IsTrue result ↔ IsValid (Self.meaning self.now).nest g.now o.now };

    /// How operand `v`, or the result, is split then.
    ///
    /// Errors: `Mem` where memory is wanting.
    fn implied(&self, alloc: Global, g: &Grid, o: &LoopOption, v: u64) -> Result<Sharding, Mem>
        requires valid { IsValid (Self.meaning self.now).nest g.now o.now }
        requires v { v ≤ length (Self.meaning self.now).nest.operands }
        ensures { IfOk result (λ s.
            s ≡ implied_of g.now (Self.meaning self.now).nest o.now
            (value_at (Self.meaning self.now).nest v)) };

    /// What the operation becomes on a device then.
    ///
    /// Errors: `Mem` where memory is wanting.
    fn localize(&self, alloc: Global, g: &Grid, o: &LoopOption) -> Result<LocalPart, Mem>
        requires { IsValid (Self.meaning self.now).nest g.now o.now }
        ensures { IfOk result (λ part. part ≡ (Self.meaning self.now).part g.now o.now) };

    /// The laws.
    ghost lawful: { (x : Self) → IsLawful (Self.meaning x) };
}
