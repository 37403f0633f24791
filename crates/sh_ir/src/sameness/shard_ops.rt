ghost use Rattle.std.specs.Prelude.{◌≡◌, ◌↔◌, IsTrue};

use crate::shard_ops::{
    AllGather, AllReduce, AllSlice, AllToAll, GridAxes, Join, Pad, ReduceScatter, Shard, Shift,
    Take, UpdateHalo,
};
use sh_base::Same;

impl Same for Shard {
    fn same(&self, other: &Shard) -> bool {
        self.annotate_for_users == other.annotate_for_users
    }
}

impl Same for GridAxes {
    fn same(&self, other: &GridAxes) -> bool {
        self.grid.same(&other.grid) && self.grid_axes.same(&other.grid_axes)
    }
}

impl Same for AllGather {
    fn same(&self, other: &AllGather) -> bool {
        self.gather_axis == other.gather_axis
            && self.operand_type.same(&other.operand_type)
            && self.on.same(&other.on)
    }
}

impl Same for AllSlice {
    fn same(&self, other: &AllSlice) -> bool {
        self.slice_axis == other.slice_axis
            && self.operand_type.same(&other.operand_type)
            && self.on.same(&other.on)
    }
}

impl Same for AllReduce {
    fn same(&self, other: &AllReduce) -> bool {
        self.reduction == other.reduction
            && self.operand_type.same(&other.operand_type)
            && self.on.same(&other.on)
    }
}

impl Same for ReduceScatter {
    fn same(&self, other: &ReduceScatter) -> bool {
        self.reduction == other.reduction
            && self.scatter_axis == other.scatter_axis
            && self.operand_type.same(&other.operand_type)
            && self.on.same(&other.on)
    }
}

impl Same for AllToAll {
    fn same(&self, other: &AllToAll) -> bool {
        self.split_axis == other.split_axis
            && self.concat_axis == other.concat_axis
            && self.operand_type.same(&other.operand_type)
            && self.on.same(&other.on)
    }
}

impl Same for Shift {
    fn same(&self, other: &Shift) -> bool {
        self.shift_axis == other.shift_axis
            && self.offset == other.offset
            && self.rotate == other.rotate
            && self.operand_type.same(&other.operand_type)
            && self.on.same(&other.on)
    }
}

impl Same for UpdateHalo {
    fn same(&self, other: &UpdateHalo) -> bool {
        self.grid.same(&other.grid)
            && self.halo_sizes.same(&other.halo_sizes)
            && self.split_axes.same(&other.split_axes)
    }
}

impl Same for Take {
    fn same(&self, other: &Take) -> bool {
        self.axis == other.axis
            && self.starts.same(&other.starts)
            && self.sizes.same(&other.sizes)
            && self.operand_type.same(&other.operand_type)
            && self.on.same(&other.on)
    }
}

impl Same for Pad {
    fn same(&self, other: &Pad) -> bool {
        self.low.same(&other.low)
            && self.high.same(&other.high)
            && self.operand_type.same(&other.operand_type)
    }
}

impl Same for Join {
    fn same(&self, other: &Join) -> bool {
        self.axis == other.axis && self.operand_types.same(&other.operand_types)
    }
}
