ghost use Rattle.std.specs.Prelude.{◌≡◌, IfOk};

use crate::arith_ops::{Cast, Compare, Constant, Contents, Select};
use sh_base::{Duplicate, Mem};
use std::alloc::Global;

impl Duplicate for Contents {
    fn duplicate(&self, alloc: Global) -> Result<Contents, Mem> {
        match self {
            Contents::Held(it) => Ok(Contents::Held(it.duplicate(alloc)?)),
            Contents::Broken => Ok(Contents::Broken),
        }
    }
}

impl Duplicate for Constant {
    fn duplicate(&self, alloc: Global) -> Result<Constant, Mem> {
        Ok(Constant {
            value_type: self.value_type.duplicate(alloc)?,
            contents: self.contents.duplicate(alloc)?,
        })
    }
}

impl Duplicate for Compare {
    fn duplicate(&self, alloc: Global) -> Result<Compare, Mem> {
        Ok(Compare {
            predicate: self.predicate,
            operand_type: self.operand_type.duplicate(alloc)?,
        })
    }
}

impl Duplicate for Select {
    fn duplicate(&self, alloc: Global) -> Result<Select, Mem> {
        Ok(Select {
            condition_type: self.condition_type.duplicate(alloc)?,
        })
    }
}

impl Duplicate for Cast {
    fn duplicate(&self, alloc: Global) -> Result<Cast, Mem> {
        Ok(Cast {
            op: self.op,
            operand_type: self.operand_type.duplicate(alloc)?,
        })
    }
}
