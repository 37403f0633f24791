ghost use Rattle.std.specs.Prelude.{◌≡◌, IfOk};

use crate::linalg_ops::{AffineMap, Broadcast, Generic, InsOuts, IteratorType, Reduce, Transpose};
use sh_base::{Duplicate, Mem};
use std::alloc::Global;

impl Duplicate for IteratorType {
    fn duplicate(&self, _alloc: Global) -> Result<IteratorType, Mem> {
        Ok(*self)
    }
}

impl Duplicate for InsOuts {
    fn duplicate(&self, alloc: Global) -> Result<InsOuts, Mem> {
        Ok(InsOuts {
            ins_count: self.ins_count,
            outs_count: self.outs_count,
            ins_types: self.ins_types.duplicate(alloc)?,
            outs_types: self.outs_types.duplicate(alloc)?,
        })
    }
}

impl Duplicate for Transpose {
    fn duplicate(&self, alloc: Global) -> Result<Transpose, Mem> {
        Ok(Transpose {
            permutation: self.permutation.duplicate(alloc)?,
            ins_outs: self.ins_outs.duplicate(alloc)?,
        })
    }
}

impl Duplicate for Broadcast {
    fn duplicate(&self, alloc: Global) -> Result<Broadcast, Mem> {
        Ok(Broadcast {
            dimensions: self.dimensions.duplicate(alloc)?,
            ins_outs: self.ins_outs.duplicate(alloc)?,
        })
    }
}

impl Duplicate for Reduce {
    fn duplicate(&self, alloc: Global) -> Result<Reduce, Mem> {
        Ok(Reduce {
            dimensions: self.dimensions.duplicate(alloc)?,
            ins_outs: self.ins_outs.duplicate(alloc)?,
            body: self.body.duplicate(alloc)?,
        })
    }
}

impl Duplicate for AffineMap {
    fn duplicate(&self, alloc: Global) -> Result<AffineMap, Mem> {
        Ok(AffineMap {
            loops: self.loops.duplicate(alloc)?,
            results: self.results.duplicate(alloc)?,
        })
    }
}

impl Duplicate for Generic {
    fn duplicate(&self, alloc: Global) -> Result<Generic, Mem> {
        Ok(Generic {
            iterator_types: self.iterator_types.duplicate(alloc)?,
            indexing_maps: self.indexing_maps.duplicate(alloc)?,
            ins_outs: self.ins_outs.duplicate(alloc)?,
            body: self.body.duplicate(alloc)?,
        })
    }
}
