ghost use Rattle.std.specs.Prelude.{◌≡◌, IfOk};

use crate::calls::Call;
use sh_base::{Duplicate, Mem};
use std::alloc::Global;

impl Duplicate for Call {
    fn duplicate(&self, alloc: Global) -> Result<Call, Mem> {
        Ok(Call {
            callee: self.callee.duplicate(alloc)?,
            operand_types: self.operand_types.duplicate(alloc)?,
        })
    }
}
