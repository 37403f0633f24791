ghost use Rattle.std.specs.Prelude.{◌≡◌, IfOk};

use crate::types::{Dim, RawSharding, TensorType, ValueType};
use sh_base::{Duplicate, Mem};
use std::alloc::Global;

impl Duplicate for Dim {
    fn duplicate(&self, _alloc: Global) -> Result<Dim, Mem> {
        Ok(*self)
    }
}

impl Duplicate for ValueType {
    fn duplicate(&self, alloc: Global) -> Result<ValueType, Mem> {
        match self {
            ValueType::Nothing => Ok(ValueType::Nothing),
            ValueType::Scalar(it) => Ok(ValueType::Scalar(*it)),
            ValueType::Tensor(it) => Ok(ValueType::Tensor(it.duplicate(alloc)?)),
            ValueType::Sharding => Ok(ValueType::Sharding),
            ValueType::Index => Ok(ValueType::Index),
        }
    }
}

impl Duplicate for TensorType {
    fn duplicate(&self, alloc: Global) -> Result<TensorType, Mem> {
        Ok(TensorType {
            width: self.width,
            dims: self.dims.duplicate(alloc)?,
        })
    }
}

impl Duplicate for RawSharding {
    fn duplicate(&self, alloc: Global) -> Result<RawSharding, Mem> {
        Ok(RawSharding {
            grid: self.grid.duplicate(alloc)?,
            halos: self.halos.duplicate(alloc)?,
            offsets: self.offsets.duplicate(alloc)?,
            split: self.split.duplicate(alloc)?,
        })
    }
}
