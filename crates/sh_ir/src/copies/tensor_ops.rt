ghost use Rattle.std.specs.Prelude.{◌≡◌, IfOk};

use crate::tensor_ops::{CollapseShape, ExpandShape, ExtractSlice, InsertSlice, Slice};
use sh_base::{Duplicate, Mem};
use std::alloc::Global;

impl Duplicate for Slice {
    fn duplicate(&self, alloc: Global) -> Result<Slice, Mem> {
        Ok(Slice {
            offsets: self.offsets.duplicate(alloc)?,
            sizes: self.sizes.duplicate(alloc)?,
            strides: self.strides.duplicate(alloc)?,
        })
    }
}

impl Duplicate for ExtractSlice {
    fn duplicate(&self, alloc: Global) -> Result<ExtractSlice, Mem> {
        Ok(ExtractSlice {
            source_type: self.source_type.duplicate(alloc)?,
            slice: self.slice.duplicate(alloc)?,
        })
    }
}

impl Duplicate for InsertSlice {
    fn duplicate(&self, alloc: Global) -> Result<InsertSlice, Mem> {
        Ok(InsertSlice {
            source_type: self.source_type.duplicate(alloc)?,
            slice: self.slice.duplicate(alloc)?,
        })
    }
}

impl Duplicate for CollapseShape {
    fn duplicate(&self, alloc: Global) -> Result<CollapseShape, Mem> {
        Ok(CollapseShape {
            source_type: self.source_type.duplicate(alloc)?,
            reassociation: self.reassociation.duplicate(alloc)?,
        })
    }
}

impl Duplicate for ExpandShape {
    fn duplicate(&self, alloc: Global) -> Result<ExpandShape, Mem> {
        Ok(ExpandShape {
            output_shape: self.output_shape.duplicate(alloc)?,
            source_type: self.source_type.duplicate(alloc)?,
            reassociation: self.reassociation.duplicate(alloc)?,
        })
    }
}
