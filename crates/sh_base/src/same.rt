ghost use Rattle.std.specs.Prelude.{◌≡◌, ◌↔◌, IsTrue};

use crate::{BinOp, CastOp, Cell, Items, Kind, Place, Predicate, Shape, Width};

/// A value that can be compared with another as contracts compare them.
pub trait Same {
    /// Whether the two values are equal.
    fn same(&self, other: &Self) -> bool
        ensures { IsTrue result ↔ (self.now ≡ other.now) };
}

impl Same for u8 {
    fn same(&self, other: &u8) -> bool {
        *self == *other
    }
}

impl Same for u32 {
    fn same(&self, other: &u32) -> bool {
        *self == *other
    }
}

impl Same for u64 {
    fn same(&self, other: &u64) -> bool {
        *self == *other
    }
}

impl Same for i128 {
    fn same(&self, other: &i128) -> bool {
        *self == *other
    }
}

impl Same for bool {
    fn same(&self, other: &bool) -> bool {
        *self == *other
    }
}

impl Same for Width {
    fn same(&self, other: &Width) -> bool {
        *self == *other
    }
}

impl Same for Cell {
    fn same(&self, other: &Cell) -> bool {
        *self == *other
    }
}

impl Same for Place {
    fn same(&self, other: &Place) -> bool {
        *self == *other
    }
}

impl Same for BinOp {
    fn same(&self, other: &BinOp) -> bool {
        *self == *other
    }
}

impl Same for Predicate {
    fn same(&self, other: &Predicate) -> bool {
        *self == *other
    }
}

impl Same for CastOp {
    fn same(&self, other: &CastOp) -> bool {
        *self == *other
    }
}

impl Same for Kind {
    fn same(&self, other: &Kind) -> bool {
        *self == *other
    }
}

impl<T: Same> Same for Option<T> {
    fn same(&self, other: &Option<T>) -> bool {
        match (self, other) {
            (None, None) => true,
            (Some(left), Some(right)) => left.same(right),
            _ => false,
        }
    }
}

impl<T: Same> Same for Items<T> {
    fn same(&self, other: &Items<T>) -> bool {
        let left = self.as_slice();
        let right = other.as_slice();
        if left.len() != right.len() {
            return false;
        }
        for (at, item) in left.iter().enumerate() {
            if !item.same(&right[at]) {
                return false;
            }
        }
        true
    }
}

impl Same for Shape {
    fn same(&self, other: &Shape) -> bool {
        self.extents() == other.extents()
    }
}
