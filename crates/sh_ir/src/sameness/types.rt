ghost use Rattle.std.specs.Prelude.{◌≡◌, ◌↔◌, IsTrue};

use crate::types::{Dim, RawSharding, TensorType, ValueType};
use sh_base::Same;

impl Same for Dim {
    fn same(&self, other: &Dim) -> bool {
        *self == *other
    }
}

impl Same for ValueType {
    fn same(&self, other: &ValueType) -> bool {
        match (self, other) {
            (ValueType::Nothing, ValueType::Nothing) => true,
            (ValueType::Scalar(left), ValueType::Scalar(right)) => *left == *right,
            (ValueType::Tensor(left), ValueType::Tensor(right)) => left.same(right),
            (ValueType::Sharding, ValueType::Sharding) => true,
            (ValueType::Index, ValueType::Index) => true,
            _ => false,
        }
    }
}

impl Same for TensorType {
    fn same(&self, other: &TensorType) -> bool {
        self.width == other.width && self.dims.same(&other.dims)
    }
}

impl Same for RawSharding {
    fn same(&self, other: &RawSharding) -> bool {
        self.grid.same(&other.grid)
            && self.halos.same(&other.halos)
            && self.offsets.same(&other.offsets)
            && self.split.same(&other.split)
    }
}
