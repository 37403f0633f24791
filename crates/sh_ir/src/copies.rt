ghost use Rattle.std.specs.Prelude.{◌≡◌, IfOk};

mod arith_ops;
mod bodies;
mod calls;
mod functions;
mod linalg_ops;
mod modules;
mod operations;
mod shard_ops;
mod tensor_ops;
mod types;

use crate::Module;
use sh_base::{Duplicate, Mem};
use std::alloc::Global;

/// An equal module, its lists in memory of their own.
pub fn copy_module(alloc: Global, m: &Module) -> Result<Module, Mem>
    ensures { IfOk result (λ copy. copy ≡ m.now) }
{
    m.duplicate(alloc)
}
