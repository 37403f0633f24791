ghost use Rattle.std.specs.Prelude.{◌≡◌, IfOk};

use crate::{BinOp, CastOp, Cell, Items, Kind, Mem, Place, Predicate, Width};
use std::alloc::Global;

/// A value that can be copied whole, its lists into memory of their own.
pub trait Duplicate: Drop {
    /// An equal value, or want of memory.
    fn duplicate(&self, alloc: Global) -> Result<Self, Mem>
        ensures { IfOk result (λ copy. copy ≡ self.now) };
}

impl Duplicate for u8 {
    fn duplicate(&self, _alloc: Global) -> Result<u8, Mem> {
        Ok(*self)
    }
}

impl Duplicate for u32 {
    fn duplicate(&self, _alloc: Global) -> Result<u32, Mem> {
        Ok(*self)
    }
}

impl Duplicate for u64 {
    fn duplicate(&self, _alloc: Global) -> Result<u64, Mem> {
        Ok(*self)
    }
}

impl Duplicate for i128 {
    fn duplicate(&self, _alloc: Global) -> Result<i128, Mem> {
        Ok(*self)
    }
}

impl Duplicate for bool {
    fn duplicate(&self, _alloc: Global) -> Result<bool, Mem> {
        Ok(*self)
    }
}

impl Duplicate for Width {
    fn duplicate(&self, _alloc: Global) -> Result<Width, Mem> {
        Ok(*self)
    }
}

impl Duplicate for Cell {
    fn duplicate(&self, _alloc: Global) -> Result<Cell, Mem> {
        Ok(*self)
    }
}

impl Duplicate for Place {
    fn duplicate(&self, _alloc: Global) -> Result<Place, Mem> {
        Ok(*self)
    }
}

impl Duplicate for BinOp {
    fn duplicate(&self, _alloc: Global) -> Result<BinOp, Mem> {
        Ok(*self)
    }
}

impl Duplicate for Predicate {
    fn duplicate(&self, _alloc: Global) -> Result<Predicate, Mem> {
        Ok(*self)
    }
}

impl Duplicate for CastOp {
    fn duplicate(&self, _alloc: Global) -> Result<CastOp, Mem> {
        Ok(*self)
    }
}

impl Duplicate for Kind {
    fn duplicate(&self, _alloc: Global) -> Result<Kind, Mem> {
        Ok(*self)
    }
}

impl<T: Duplicate> Duplicate for Option<T> {
    fn duplicate(&self, alloc: Global) -> Result<Option<T>, Mem> {
        match self {
            None => Ok(None),
            Some(value) => Ok(Some(value.duplicate(alloc)?)),
        }
    }
}

impl<T: Duplicate> Duplicate for Items<T> {
    fn duplicate(&self, alloc: Global) -> Result<Items<T>, Mem> {
        let mut copies = Vec::with_capacity(alloc, self.len())?;
        for item in self.as_slice() {
            copies.push(item.duplicate(alloc)?)?;
        }
        Ok(Items::from_vec(copies))
    }
}
