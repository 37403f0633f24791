ghost use Rattle.std.specs.Prelude.{◌≡◌, IfOk};

use crate::shard_ops::{
    AllGather, AllReduce, AllSlice, AllToAll, GridAxes, Join, Pad, ReduceScatter, Shard, Shift,
    Take, UpdateHalo,
};
use sh_base::{Duplicate, Mem};
use std::alloc::Global;

impl Duplicate for Shard {
    fn duplicate(&self, _alloc: Global) -> Result<Shard, Mem> {
        Ok(Shard {
            annotate_for_users: self.annotate_for_users,
        })
    }
}

impl Duplicate for GridAxes {
    fn duplicate(&self, alloc: Global) -> Result<GridAxes, Mem> {
        Ok(GridAxes {
            grid: self.grid.duplicate(alloc)?,
            grid_axes: self.grid_axes.duplicate(alloc)?,
        })
    }
}

impl Duplicate for AllGather {
    fn duplicate(&self, alloc: Global) -> Result<AllGather, Mem> {
        Ok(AllGather {
            gather_axis: self.gather_axis,
            operand_type: self.operand_type.duplicate(alloc)?,
            on: self.on.duplicate(alloc)?,
        })
    }
}

impl Duplicate for AllSlice {
    fn duplicate(&self, alloc: Global) -> Result<AllSlice, Mem> {
        Ok(AllSlice {
            slice_axis: self.slice_axis,
            operand_type: self.operand_type.duplicate(alloc)?,
            on: self.on.duplicate(alloc)?,
        })
    }
}

impl Duplicate for AllReduce {
    fn duplicate(&self, alloc: Global) -> Result<AllReduce, Mem> {
        Ok(AllReduce {
            reduction: self.reduction,
            operand_type: self.operand_type.duplicate(alloc)?,
            on: self.on.duplicate(alloc)?,
        })
    }
}

impl Duplicate for ReduceScatter {
    fn duplicate(&self, alloc: Global) -> Result<ReduceScatter, Mem> {
        Ok(ReduceScatter {
            reduction: self.reduction,
            scatter_axis: self.scatter_axis,
            operand_type: self.operand_type.duplicate(alloc)?,
            on: self.on.duplicate(alloc)?,
        })
    }
}

impl Duplicate for AllToAll {
    fn duplicate(&self, alloc: Global) -> Result<AllToAll, Mem> {
        Ok(AllToAll {
            split_axis: self.split_axis,
            concat_axis: self.concat_axis,
            operand_type: self.operand_type.duplicate(alloc)?,
            on: self.on.duplicate(alloc)?,
        })
    }
}

impl Duplicate for Shift {
    fn duplicate(&self, alloc: Global) -> Result<Shift, Mem> {
        Ok(Shift {
            shift_axis: self.shift_axis,
            offset: self.offset,
            rotate: self.rotate,
            operand_type: self.operand_type.duplicate(alloc)?,
            on: self.on.duplicate(alloc)?,
        })
    }
}

impl Duplicate for UpdateHalo {
    fn duplicate(&self, alloc: Global) -> Result<UpdateHalo, Mem> {
        Ok(UpdateHalo {
            grid: self.grid.duplicate(alloc)?,
            halo_sizes: self.halo_sizes.duplicate(alloc)?,
            split_axes: self.split_axes.duplicate(alloc)?,
        })
    }
}

impl Duplicate for Take {
    fn duplicate(&self, alloc: Global) -> Result<Take, Mem> {
        Ok(Take {
            axis: self.axis,
            starts: self.starts.duplicate(alloc)?,
            sizes: self.sizes.duplicate(alloc)?,
            operand_type: self.operand_type.duplicate(alloc)?,
            on: self.on.duplicate(alloc)?,
        })
    }
}

impl Duplicate for Pad {
    fn duplicate(&self, alloc: Global) -> Result<Pad, Mem> {
        Ok(Pad {
            low: self.low.duplicate(alloc)?,
            high: self.high.duplicate(alloc)?,
            operand_type: self.operand_type.duplicate(alloc)?,
        })
    }
}

impl Duplicate for Join {
    fn duplicate(&self, alloc: Global) -> Result<Join, Mem> {
        Ok(Join {
            axis: self.axis,
            operand_types: self.operand_types.duplicate(alloc)?,
        })
    }
}
