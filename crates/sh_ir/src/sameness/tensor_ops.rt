ghost use Rattle.std.specs.Prelude.{◌≡◌, ◌↔◌, IsTrue};

use crate::tensor_ops::{CollapseShape, ExpandShape, ExtractSlice, InsertSlice, Slice};
use sh_base::Same;

impl Same for Slice {
    fn same(&self, other: &Slice) -> bool {
        self.offsets.same(&other.offsets)
            && self.sizes.same(&other.sizes)
            && self.strides.same(&other.strides)
    }
}

impl Same for ExtractSlice {
    fn same(&self, other: &ExtractSlice) -> bool {
        self.source_type.same(&other.source_type) && self.slice.same(&other.slice)
    }
}

impl Same for InsertSlice {
    fn same(&self, other: &InsertSlice) -> bool {
        self.source_type.same(&other.source_type) && self.slice.same(&other.slice)
    }
}

impl Same for CollapseShape {
    fn same(&self, other: &CollapseShape) -> bool {
        self.source_type.same(&other.source_type) && self.reassociation.same(&other.reassociation)
    }
}

impl Same for ExpandShape {
    fn same(&self, other: &ExpandShape) -> bool {
        self.output_shape.same(&other.output_shape)
            && self.source_type.same(&other.source_type)
            && self.reassociation.same(&other.reassociation)
    }
}
