ghost use Rattle.std.specs.Prelude.{◌≡◌, ◌↔◌, IsTrue};

use crate::linalg_ops::{AffineMap, Broadcast, Generic, InsOuts, IteratorType, Reduce, Transpose};
use sh_base::Same;

impl Same for IteratorType {
    fn same(&self, other: &IteratorType) -> bool {
        *self == *other
    }
}

impl Same for InsOuts {
    fn same(&self, other: &InsOuts) -> bool {
        self.ins_count == other.ins_count
            && self.outs_count == other.outs_count
            && self.ins_types.same(&other.ins_types)
            && self.outs_types.same(&other.outs_types)
    }
}

impl Same for Transpose {
    fn same(&self, other: &Transpose) -> bool {
        self.permutation.same(&other.permutation) && self.ins_outs.same(&other.ins_outs)
    }
}

impl Same for Broadcast {
    fn same(&self, other: &Broadcast) -> bool {
        self.dimensions.same(&other.dimensions) && self.ins_outs.same(&other.ins_outs)
    }
}

impl Same for Reduce {
    fn same(&self, other: &Reduce) -> bool {
        self.dimensions.same(&other.dimensions)
            && self.ins_outs.same(&other.ins_outs)
            && self.body.same(&other.body)
    }
}

impl Same for AffineMap {
    fn same(&self, other: &AffineMap) -> bool {
        self.loops.same(&other.loops) && self.results.same(&other.results)
    }
}

impl Same for Generic {
    fn same(&self, other: &Generic) -> bool {
        self.iterator_types.same(&other.iterator_types)
            && self.indexing_maps.same(&other.indexing_maps)
            && self.ins_outs.same(&other.ins_outs)
            && self.body.same(&other.body)
    }
}
