ghost use Rattle.std.specs.Prelude.{◌≡◌, IfOk};

use crate::operations::{Op, OpKind, Return};
use sh_base::{Duplicate, Mem};
use std::alloc::Global;

impl Duplicate for OpKind {
    fn duplicate(&self, alloc: Global) -> Result<OpKind, Mem> {
        match self {
            OpKind::Constant(it) => Ok(OpKind::Constant(it.duplicate(alloc)?)),
            OpKind::Binary(it) => Ok(OpKind::Binary(*it)),
            OpKind::Compare(it) => Ok(OpKind::Compare(it.duplicate(alloc)?)),
            OpKind::Select(it) => Ok(OpKind::Select(it.duplicate(alloc)?)),
            OpKind::Cast(it) => Ok(OpKind::Cast(it.duplicate(alloc)?)),
            OpKind::Empty => Ok(OpKind::Empty),
            OpKind::ExtractSlice(it) => Ok(OpKind::ExtractSlice(it.duplicate(alloc)?)),
            OpKind::InsertSlice(it) => Ok(OpKind::InsertSlice(it.duplicate(alloc)?)),
            OpKind::CollapseShape(it) => Ok(OpKind::CollapseShape(it.duplicate(alloc)?)),
            OpKind::ExpandShape(it) => Ok(OpKind::ExpandShape(it.duplicate(alloc)?)),
            OpKind::Fill(it) => Ok(OpKind::Fill(it.duplicate(alloc)?)),
            OpKind::Matmul(it) => Ok(OpKind::Matmul(it.duplicate(alloc)?)),
            OpKind::BatchMatmul(it) => Ok(OpKind::BatchMatmul(it.duplicate(alloc)?)),
            OpKind::Matvec(it) => Ok(OpKind::Matvec(it.duplicate(alloc)?)),
            OpKind::Vecmat(it) => Ok(OpKind::Vecmat(it.duplicate(alloc)?)),
            OpKind::Dot(it) => Ok(OpKind::Dot(it.duplicate(alloc)?)),
            OpKind::Conv1d(it) => Ok(OpKind::Conv1d(it.duplicate(alloc)?)),
            OpKind::Conv2d(it) => Ok(OpKind::Conv2d(it.duplicate(alloc)?)),
            OpKind::Transpose(it) => Ok(OpKind::Transpose(it.duplicate(alloc)?)),
            OpKind::Broadcast(it) => Ok(OpKind::Broadcast(it.duplicate(alloc)?)),
            OpKind::Reduce(it) => Ok(OpKind::Reduce(it.duplicate(alloc)?)),
            OpKind::Generic(it) => Ok(OpKind::Generic(it.duplicate(alloc)?)),
            OpKind::Sharding(it) => Ok(OpKind::Sharding(it.duplicate(alloc)?)),
            OpKind::Shard(it) => Ok(OpKind::Shard(it.duplicate(alloc)?)),
            OpKind::AllGather(it) => Ok(OpKind::AllGather(it.duplicate(alloc)?)),
            OpKind::AllSlice(it) => Ok(OpKind::AllSlice(it.duplicate(alloc)?)),
            OpKind::AllReduce(it) => Ok(OpKind::AllReduce(it.duplicate(alloc)?)),
            OpKind::ReduceScatter(it) => Ok(OpKind::ReduceScatter(it.duplicate(alloc)?)),
            OpKind::AllToAll(it) => Ok(OpKind::AllToAll(it.duplicate(alloc)?)),
            OpKind::Shift(it) => Ok(OpKind::Shift(it.duplicate(alloc)?)),
            OpKind::UpdateHalo(it) => Ok(OpKind::UpdateHalo(it.duplicate(alloc)?)),
            OpKind::Take(it) => Ok(OpKind::Take(it.duplicate(alloc)?)),
            OpKind::Pad(it) => Ok(OpKind::Pad(it.duplicate(alloc)?)),
            OpKind::Join(it) => Ok(OpKind::Join(it.duplicate(alloc)?)),
            OpKind::Call(it) => Ok(OpKind::Call(it.duplicate(alloc)?)),
            OpKind::Return(it) => Ok(OpKind::Return(it.duplicate(alloc)?)),
        }
    }
}

impl Duplicate for Return {
    fn duplicate(&self, alloc: Global) -> Result<Return, Mem> {
        Ok(Return {
            operand_types: self.operand_types.duplicate(alloc)?,
        })
    }
}

impl Duplicate for Op {
    fn duplicate(&self, alloc: Global) -> Result<Op, Mem> {
        Ok(Op {
            operands: self.operands.duplicate(alloc)?,
            defines: self.defines,
            result: self.result.duplicate(alloc)?,
            place: self.place,
            kind: self.kind.duplicate(alloc)?,
        })
    }
}
