ghost use Rattle.std.specs.Prelude.{◌≡◌, IfOk};

use crate::modules::{CallItem, GridItem, Module};
use sh_base::{Duplicate, Mem};
use std::alloc::Global;

impl Duplicate for CallItem {
    fn duplicate(&self, alloc: Global) -> Result<CallItem, Mem> {
        Ok(CallItem {
            callee: self.callee.duplicate(alloc)?,
            place: self.place,
            args: self.args.duplicate(alloc)?,
        })
    }
}

impl Duplicate for GridItem {
    fn duplicate(&self, alloc: Global) -> Result<GridItem, Mem> {
        Ok(GridItem {
            name: self.name.duplicate(alloc)?,
            extents: self.extents.duplicate(alloc)?,
            place: self.place,
        })
    }
}

impl Duplicate for Module {
    fn duplicate(&self, alloc: Global) -> Result<Module, Mem> {
        Ok(Module {
            name: self.name.duplicate(alloc)?,
            grids: self.grids.duplicate(alloc)?,
            calls: self.calls.duplicate(alloc)?,
            funcs: self.funcs.duplicate(alloc)?,
        })
    }
}
