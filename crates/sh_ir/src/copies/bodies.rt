ghost use Rattle.std.specs.Prelude.{◌≡◌, IfOk};

use crate::bodies::{Body, BodyKind, BodyOp};
use sh_base::{Duplicate, Mem};
use std::alloc::Global;

impl Duplicate for BodyKind {
    fn duplicate(&self, alloc: Global) -> Result<BodyKind, Mem> {
        match self {
            BodyKind::Constant(it) => Ok(BodyKind::Constant(it.duplicate(alloc)?)),
            BodyKind::Binary(it) => Ok(BodyKind::Binary(*it)),
            BodyKind::Compare(it) => Ok(BodyKind::Compare(it.duplicate(alloc)?)),
            BodyKind::Select(it) => Ok(BodyKind::Select(it.duplicate(alloc)?)),
            BodyKind::Cast(it) => Ok(BodyKind::Cast(it.duplicate(alloc)?)),
            BodyKind::Index(it) => Ok(BodyKind::Index(*it)),
            BodyKind::IndexCast => Ok(BodyKind::IndexCast),
        }
    }
}

impl Duplicate for BodyOp {
    fn duplicate(&self, alloc: Global) -> Result<BodyOp, Mem> {
        Ok(BodyOp {
            operands: self.operands.duplicate(alloc)?,
            defines: self.defines,
            result: self.result.duplicate(alloc)?,
            place: self.place,
            kind: self.kind.duplicate(alloc)?,
        })
    }
}

impl Duplicate for Body {
    fn duplicate(&self, alloc: Global) -> Result<Body, Mem> {
        Ok(Body {
            args: self.args.duplicate(alloc)?,
            widths: self.widths.duplicate(alloc)?,
            yields: self.yields,
            width: self.width,
            place: self.place,
            ops: self.ops.duplicate(alloc)?,
        })
    }
}
