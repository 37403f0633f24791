//! The interface of a structured operation.
ghost use Rattle.sh_iface_linalg.specs.DeviceForm.{structured_lawful};
ghost use Rattle.sh_iface_linalg.specs.Reading.{meaning_by, structured_of};

use crate::LinalgIface;
use sh_base::{Kind, Mem};
use sh_grid::Grid;
use sh_iface::{
    Follow, HasLoops, How, LocalPart, LoopOption, ShardIface, implied_sharding, is_valid,
};
use sh_sharding::Sharding;
use std::alloc::Global;

impl HasLoops for LinalgIface<'_> {
    ghost meaning = { λ x. meaning_by x.kind x.dims.now x.reduced x.first x.second x.width x.place };

    fn loop_count(&self) -> u64 {
        self.count_loops()
    }

    fn loop_extent(&self, l: u64) -> u64 {
        self.extent_along(l)
    }

    fn operands(&self) -> u64 {
        u64::from(self.tensor_inputs()) + 1
    }

    fn rank(&self, v: u64) -> u64 {
        self.rank_at(v)
    }

    fn extent(&self, v: u64, dim: u64) -> u64 {
        self.extent_along(self.loop_at(v, dim))
    }

    fn follows(&self, v: u64, dim: u64) -> Option<Follow> {
        Some(Follow {
            loop_index: self.loop_at(v, dim),
            how: How::Same,
        })
    }

    fn splittable(&self, l: u64) -> bool {
        l < self.dims.len() as u64 || self.kind.reduction().is_some()
    }

    fn reduction_kind(&self, l: u64) -> Option<Kind> {
        self.kind_along(l)
    }
}

impl ShardIface for LinalgIface<'_> {
    ghost lawful = { λ x. structured_lawful
        (structured_of x.kind x.dims.now x.reduced x.first x.second x.width x.place)
        x.structured };

    fn admits(&self, g: &Grid, o: &LoopOption) -> bool {
        is_valid(self, g, o)
    }

    fn implied(&self, alloc: Global, g: &Grid, o: &LoopOption, v: u64) -> Result<Sharding, Mem> {
        implied_sharding(alloc, self, g, o, v)
    }

    fn localize(&self, alloc: Global, g: &Grid, o: &LoopOption) -> Result<LocalPart, Mem> {
        self.local_part(alloc, g, o)
    }
}
