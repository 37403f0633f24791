ghost use Rattle.std.specs.Prelude.{◌≡◌, IfOk};

use crate::functions::{Arg, Carry, Cut, Func, Note};
use sh_base::{Duplicate, Mem};
use std::alloc::Global;

impl Duplicate for Arg {
    fn duplicate(&self, alloc: Global) -> Result<Arg, Mem> {
        Ok(Arg {
            id: self.id,
            value_type: self.value_type.duplicate(alloc)?,
        })
    }
}

impl Duplicate for Cut {
    fn duplicate(&self, alloc: Global) -> Result<Cut, Mem> {
        Ok(Cut {
            whole: self.whole.duplicate(alloc)?,
            sharding: self.sharding.duplicate(alloc)?,
        })
    }
}

impl Duplicate for Carry {
    fn duplicate(&self, alloc: Global) -> Result<Carry, Mem> {
        Ok(Carry {
            grid: self.grid.duplicate(alloc)?,
            args: self.args.duplicate(alloc)?,
            results: self.results.duplicate(alloc)?,
        })
    }
}

impl Duplicate for Func {
    fn duplicate(&self, alloc: Global) -> Result<Func, Mem> {
        Ok(Func {
            name: self.name.duplicate(alloc)?,
            private: self.private,
            args: self.args.duplicate(alloc)?,
            results: self.results.duplicate(alloc)?,
            place: self.place,
            carry: self.carry.duplicate(alloc)?,
            ops: self.ops.duplicate(alloc)?,
        })
    }
}

impl Duplicate for Note {
    fn duplicate(&self, alloc: Global) -> Result<Note, Mem> {
        Ok(Note {
            value: self.value,
            for_users: self.for_users,
            sharding: self.sharding.duplicate(alloc)?,
        })
    }
}
