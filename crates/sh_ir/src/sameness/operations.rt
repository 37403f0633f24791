ghost use Rattle.std.specs.Prelude.{◌≡◌, ◌↔◌, IsTrue};

use crate::operations::{Op, OpKind, Return};
use sh_base::Same;

impl Same for OpKind {
    fn same(&self, other: &OpKind) -> bool {
        match (self, other) {
            (OpKind::Constant(left), OpKind::Constant(right)) => left.same(right),
            (OpKind::Binary(left), OpKind::Binary(right)) => *left == *right,
            (OpKind::Compare(left), OpKind::Compare(right)) => left.same(right),
            (OpKind::Select(left), OpKind::Select(right)) => left.same(right),
            (OpKind::Cast(left), OpKind::Cast(right)) => left.same(right),
            (OpKind::Empty, OpKind::Empty) => true,
            (OpKind::ExtractSlice(left), OpKind::ExtractSlice(right)) => left.same(right),
            (OpKind::InsertSlice(left), OpKind::InsertSlice(right)) => left.same(right),
            (OpKind::CollapseShape(left), OpKind::CollapseShape(right)) => left.same(right),
            (OpKind::ExpandShape(left), OpKind::ExpandShape(right)) => left.same(right),
            (OpKind::Fill(left), OpKind::Fill(right)) => left.same(right),
            (OpKind::Matmul(left), OpKind::Matmul(right)) => left.same(right),
            (OpKind::BatchMatmul(left), OpKind::BatchMatmul(right)) => left.same(right),
            (OpKind::Matvec(left), OpKind::Matvec(right)) => left.same(right),
            (OpKind::Vecmat(left), OpKind::Vecmat(right)) => left.same(right),
            (OpKind::Dot(left), OpKind::Dot(right)) => left.same(right),
            (OpKind::Conv1d(left), OpKind::Conv1d(right)) => left.same(right),
            (OpKind::Conv2d(left), OpKind::Conv2d(right)) => left.same(right),
            (OpKind::Transpose(left), OpKind::Transpose(right)) => left.same(right),
            (OpKind::Broadcast(left), OpKind::Broadcast(right)) => left.same(right),
            (OpKind::Reduce(left), OpKind::Reduce(right)) => left.same(right),
            (OpKind::Generic(left), OpKind::Generic(right)) => left.same(right),
            (OpKind::Sharding(left), OpKind::Sharding(right)) => left.same(right),
            (OpKind::Shard(left), OpKind::Shard(right)) => left.same(right),
            (OpKind::AllGather(left), OpKind::AllGather(right)) => left.same(right),
            (OpKind::AllSlice(left), OpKind::AllSlice(right)) => left.same(right),
            (OpKind::AllReduce(left), OpKind::AllReduce(right)) => left.same(right),
            (OpKind::ReduceScatter(left), OpKind::ReduceScatter(right)) => left.same(right),
            (OpKind::AllToAll(left), OpKind::AllToAll(right)) => left.same(right),
            (OpKind::Shift(left), OpKind::Shift(right)) => left.same(right),
            (OpKind::UpdateHalo(left), OpKind::UpdateHalo(right)) => left.same(right),
            (OpKind::Take(left), OpKind::Take(right)) => left.same(right),
            (OpKind::Pad(left), OpKind::Pad(right)) => left.same(right),
            (OpKind::Join(left), OpKind::Join(right)) => left.same(right),
            (OpKind::Call(left), OpKind::Call(right)) => left.same(right),
            (OpKind::Return(left), OpKind::Return(right)) => left.same(right),
            _ => false,
        }
    }
}

impl Same for Return {
    fn same(&self, other: &Return) -> bool {
        self.operand_types.same(&other.operand_types)
    }
}

impl Same for Op {
    fn same(&self, other: &Op) -> bool {
        self.operands.same(&other.operands)
            && self.defines.same(&other.defines)
            && self.result.same(&other.result)
            && self.place == other.place
            && self.kind.same(&other.kind)
    }
}
