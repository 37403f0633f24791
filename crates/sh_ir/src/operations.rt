ghost use Rattle.std.specs.Prelude.{◌≡◌, ◌++◌, ◌∷◌, [], OnOk, OnErr};
ghost use Rattle.sh_ir.specs.Parts.{op_of};

use crate::arith_ops::{Cast, Compare, Constant, Select};
use crate::calls::Call;
use crate::linalg_ops::{Broadcast, Generic, InsOuts, Reduce, Transpose};
use crate::shard_ops::{
    AllGather, AllReduce, AllSlice, AllToAll, Join, Pad, ReduceScatter, Shard, Shift, Take,
    UpdateHalo,
};
use crate::tensor_ops::{CollapseShape, ExpandShape, ExtractSlice, InsertSlice};
use crate::types::{RawSharding, Types, ValueType};
use sh_base::{BinOp, Ids, Items, Mem, Place};

/// The written types of a function's `return`.
#[derive(Drop)]
pub struct Return {
    pub operand_types: Types,
}

/// What an operation is, with what its text writes besides its operands and the type of its value.
///
/// In the syntax below `T`, `U` and `V` are types, `nums` is a list of numbers, `lists` a list of such
/// lists, and `on` is `on @grid`, mostly followed by `grid_axes = nums`.
///
/// The collectives and `all_slice`, `take`, `pad` and `join` stand in device form alone, the
/// `sharding` and `shard` operations and calls in source form alone.
#[derive(Drop)]
pub enum OpKind {
    /// `%r = arith.constant true`, `%r = arith.constant -1 : i32` or
    /// `%r = arith.constant dense<..> : T`
    ///
    /// The value that the text writes. One element fills a tensor; nested lists have its shape; a
    /// string holds its cells in hexadecimal, little-endian.
    ///
    /// `%c = arith.constant dense<[[1, 2], [3, 4]]> : tensor<2x2xi32>`
    Constant(Constant),

    /// `%r = arith.NAME %a, %b : T`, with the name of a [`BinOp`]
    ///
    /// Cell by cell: `addi`, `subi` and `muli` modulo two to the width; `divui`, `divsi`, `remui` and
    /// `remsi` quotient and remainder, toward zero; `andi`, `ori` and `xori` bitwise; `maxsi`,
    /// `minsi`, `maxui` and `minui` a choice; `shli`, `shrui` and `shrsi` shifts of the first by the
    /// second. A division by zero and a shift by the width or more have no value.
    ///
    /// `%c = arith.addi %a, %b : tensor<4xi32>`
    Binary(BinOp),

    /// `%r = arith.cmpi PREDICATE, %a, %b : T`
    ///
    /// Cell by cell whether the predicate holds, as an `i1`.
    ///
    /// `%c = arith.cmpi slt, %a, %b : tensor<4xi32>` is a `tensor<4xi1>`
    Compare(Compare),

    /// `%r = arith.select %c, %a, %b : T, U`, or `: U` where the condition is a scalar `i1`
    ///
    /// The cell of `%a` where that of the condition is 1, and of `%b` where it is 0.
    ///
    /// `%d = arith.select %c, %a, %b : tensor<4xi1>, tensor<4xi32>`
    Select(Select),

    /// `%r = arith.extsi %a : T to U`, and so `arith.extui` and `arith.trunci`
    ///
    /// The cells at another width: extended by the sign, extended by zeros, or the low bits.
    ///
    /// `%b = arith.extsi %a : tensor<4xi8> to tensor<4xi32>`
    Cast(Cast),

    /// `%r = tensor.empty() : T`
    ///
    /// A tensor of undefined cells.
    ///
    /// `%0 = tensor.empty() : tensor<4x8xi32>`
    Empty,

    /// `%r = tensor.extract_slice %a OFFSETS SIZES STRIDES : T to U`, each a `nums`
    ///
    /// The cells of `%a` from the offsets on, by the strides.
    ///
    /// `%b = tensor.extract_slice %a[0, 2] [4, 2] [1, 1] : tensor<4x8xi32> to tensor<4x2xi32>`
    ExtractSlice(ExtractSlice),

    /// `%r = tensor.insert_slice %a into %b OFFSETS SIZES STRIDES : T into U`, each a `nums`
    ///
    /// `%b` with the cells of `%a` from the offsets on, by the strides.
    ///
    /// `%c = tensor.insert_slice %a into %b[1] [2] [1] : tensor<2xi32> into tensor<4xi32>`
    InsertSlice(InsertSlice),

    /// `%r = tensor.collapse_shape %a lists : T into U`
    ///
    /// The cells in row-major order, each list of dimensions made one.
    ///
    /// `%b = tensor.collapse_shape %a [[0, 1]] : tensor<2x3xi32> into tensor<6xi32>`
    CollapseShape(CollapseShape),

    /// `%r = tensor.expand_shape %a lists output_shape nums : T into U`
    ///
    /// The cells in row-major order, one dimension made each list.
    ///
    /// `%b = tensor.expand_shape %a [[0, 1]] output_shape [2, 3] : tensor<6xi32> into tensor<2x3xi32>`
    ExpandShape(ExpandShape),

    /// `%r = linalg.fill ins(%a : T) outs(%b : U) -> V`
    ///
    /// A tensor whose cells are the scalar `%a`.
    ///
    /// `%1 = linalg.fill ins(%c : i32) outs(%0 : tensor<4xi32>) -> tensor<4xi32>`
    Fill(InsOuts),

    /// `%r = linalg.matmul ins(%a, %b : T, U) outs(%c : V) -> V`
    ///
    /// `%c` plus the product of two matrices: `c(m, n) += a(m, k) b(k, n)`.
    ///
    /// `%2 = linalg.matmul ins(%a, %b : tensor<2x3xi32>, tensor<3x4xi32>)
    /// outs(%1 : tensor<2x4xi32>) -> tensor<2x4xi32>`
    Matmul(InsOuts),

    /// `%r = linalg.batch_matmul ins(%a, %b : T, U) outs(%c : V) -> V`
    ///
    /// One product of matrices for each index of the batch: `c(b, m, n) += a(b, m, k) b(b, k, n)`.
    ///
    /// `%2 = linalg.batch_matmul ins(%a, %b : tensor<5x2x3xi32>, tensor<5x3x4xi32>)
    /// outs(%1 : tensor<5x2x4xi32>) -> tensor<5x2x4xi32>`
    BatchMatmul(InsOuts),

    /// `%r = linalg.matvec ins(%a, %b : T, U) outs(%c : V) -> V`
    ///
    /// A matrix times a vector: `c(m) += a(m, k) b(k)`.
    ///
    /// `%2 = linalg.matvec ins(%a, %b : tensor<2x3xi32>, tensor<3xi32>) outs(%1 : tensor<2xi32>)
    /// -> tensor<2xi32>`
    Matvec(InsOuts),

    /// `%r = linalg.vecmat ins(%a, %b : T, U) outs(%c : V) -> V`
    ///
    /// A vector times a matrix: `c(n) += a(k) b(k, n)`.
    ///
    /// `%2 = linalg.vecmat ins(%a, %b : tensor<3xi32>, tensor<3x4xi32>) outs(%1 : tensor<4xi32>)
    /// -> tensor<4xi32>`
    Vecmat(InsOuts),

    /// `%r = linalg.dot ins(%a, %b : T, U) outs(%c : V) -> V`
    ///
    /// The product of two vectors: `c() += a(k) b(k)`.
    ///
    /// `%2 = linalg.dot ins(%a, %b : tensor<3xi32>, tensor<3xi32>) outs(%1 : tensor<i32>)
    /// -> tensor<i32>`
    Dot(InsOuts),

    /// `%r = linalg.conv_1d ins(%a, %b : T, U) outs(%c : V) -> V`
    ///
    /// A convolution without padding: `c(w) += a(w + k) b(k)`.
    ///
    /// `%2 = linalg.conv_1d ins(%a, %b : tensor<8xi32>, tensor<3xi32>) outs(%1 : tensor<6xi32>)
    /// -> tensor<6xi32>`
    Conv1d(InsOuts),

    /// `%r = linalg.conv_2d ins(%a, %b : T, U) outs(%c : V) -> V`
    ///
    /// The same in two dimensions: `c(h, w) += a(h + i, w + j) b(i, j)`.
    ///
    /// `%2 = linalg.conv_2d ins(%a, %b : tensor<8x8xi32>, tensor<3x3xi32>)
    /// outs(%1 : tensor<6x6xi32>) -> tensor<6x6xi32>`
    Conv2d(InsOuts),

    /// `%r = linalg.transpose ins(%a : T) outs(%b : U) permutation = nums`
    ///
    /// The tensor with its dimensions in another order: dimension `i` of the value is dimension
    /// `permutation[i]` of `%a`.
    ///
    /// `%1 = linalg.transpose ins(%a : tensor<2x3xi32>) outs(%0 : tensor<3x2xi32>)
    /// permutation = [1, 0]`
    Transpose(Transpose),

    /// `%r = linalg.broadcast ins(%a : T) outs(%b : U) dimensions = nums`
    ///
    /// The tensor repeated along the listed dimensions of the value.
    ///
    /// `%1 = linalg.broadcast ins(%a : tensor<3xi32>) outs(%0 : tensor<2x3xi32>) dimensions = [0]`
    Broadcast(Broadcast),

    /// `%r = linalg.reduce ins(%a : T) outs(%b : U) dimensions = nums (%in : i32, %out : i32)
    /// { .. linalg.yield %v : i32 }`, or shorter `linalg.reduce { arith.addi } ins(..) outs(..) ..`
    ///
    /// `%b` folded by the region over the listed dimensions of `%a`, in row-major order.
    ///
    /// `%1 = linalg.reduce { arith.maxsi } ins(%a : tensor<2x3xi32>) outs(%0 : tensor<2xi32>)
    /// dimensions = [1]`
    Reduce(Reduce),

    /// `%r = linalg.generic {indexing_maps = [..], iterator_types = [..]} ins(..) outs(%b : T)
    /// { ^bb0(%in : i32, %out : i32) : .. linalg.yield %v : i32 } -> T`
    ///
    /// `%b` folded by the region over all loop points, in row-major order. The maps say which cell of
    /// each operand belongs to a point.
    ///
    /// `%1 = linalg.generic {indexing_maps = [affine_map<(d0) -> (d0)>, affine_map<(d0) -> (d0)>],
    /// iterator_types = ["parallel"]} ins(%a : tensor<4xi32>) outs(%0 : tensor<4xi32>)
    /// { ^bb0(%in : i32, %out : i32) : %m = arith.muli %in, %in : i32 linalg.yield %m : i32 }
    /// -> tensor<4xi32>`
    Generic(Generic),

    /// `%s = shard.sharding @grid split_axes = lists : !shard.sharding`, with `halo_sizes = nums` and
    /// `sharded_dims_offsets = nums` where they are given
    ///
    /// A sharding. It has no meaning but for the notes that use it.
    ///
    /// `%s = shard.sharding @g split_axes = [[0], [1]] : !shard.sharding`
    Sharding(RawSharding),

    /// `%r = shard.shard %a to %s : T`, with `annotate_for_users` before the `:` where it is given
    ///
    /// The tensor `%a` itself, noted to be sharded by `%s`.
    ///
    /// `%a1 = shard.shard %a to %s annotate_for_users : tensor<4xi32>`
    Shard(Shard),

    /// `%r = shard.all_gather %a on gather_axis = N : T -> U`
    ///
    /// The tensors of the group, one after the other along an axis.
    ///
    /// `%1 = shard.all_gather %0 on @g grid_axes = [0] gather_axis = 0 : tensor<2xi32> -> tensor<4xi32>`
    AllGather(AllGather),

    /// `%r = shard.all_slice %a on slice_axis = N : T -> U`
    ///
    /// Of as many equal pieces along an axis as the group has members the one at the device's place.
    /// The device does it alone.
    ///
    /// `%1 = shard.all_slice %0 on @g grid_axes = [0] slice_axis = 0 : tensor<4xi32> -> tensor<2xi32>`
    AllSlice(AllSlice),

    /// `%r = shard.all_reduce %a on reduction = KIND : T -> U`
    ///
    /// The tensors of the group combined cell by cell.
    ///
    /// `%1 = shard.all_reduce %0 on @g grid_axes = [0, 1] reduction = <max> : tensor<4xi32>
    /// -> tensor<4xi32>`
    AllReduce(AllReduce),

    /// `%r = shard.reduce_scatter %a on reduction = KIND scatter_axis = N : T -> U`
    ///
    /// The tensors of the group combined, and of that the piece at the device's place.
    ///
    /// `%1 = shard.reduce_scatter %0 on @g grid_axes = [0] reduction = <sum> scatter_axis = 0 :
    /// tensor<4xi32> -> tensor<2xi32>`
    ReduceScatter(ReduceScatter),

    /// `%r = shard.all_to_all %a on split_axis = N concat_axis = M : T -> U`
    ///
    /// Each member cuts its tensor along `split_axis` and sends one piece to each other; the received
    /// pieces are joined along `concat_axis`.
    ///
    /// `%1 = shard.all_to_all %0 on @g grid_axes = [0] split_axis = 1 concat_axis = 0 :
    /// tensor<2x4xi32> -> tensor<4x2xi32>`
    AllToAll(AllToAll),

    /// `%r = shard.shift %a on shift_axis = N offset = num : T -> U`, with `rotate` before the `:`
    /// where it is given
    ///
    /// The tensor of the member whose coordinate on `shift_axis` is less by the offset; undefined
    /// cells where there is none. With `rotate` the coordinates go round.
    ///
    /// `%1 = shard.shift %0 on @g grid_axes = [0] shift_axis = 0 offset = 1 rotate : tensor<2xi32>
    /// -> tensor<2xi32>`
    Shift(Shift),

    /// `%r = shard.update_halo %a on @grid split_axes = lists halo_sizes = nums : T`
    ///
    /// The tensor with its halos filled from the neighbours' cores.
    ///
    /// `%1 = shard.update_halo %0 on @g split_axes = [[0]] halo_sizes = [1, 1] : tensor<4xi32>`
    UpdateHalo(UpdateHalo),

    /// `%r = shardrun.take %a on axis = N starts = nums sizes = nums : T -> U`
    ///
    /// Along an axis, as many cells as the device's place in its group says, from where it says. The
    /// device does it alone.
    ///
    /// `%1 = shardrun.take %0 on @g grid_axes = [0] axis = 0 starts = [0, 3] sizes = [3, 2] :
    /// tensor<5xi32> -> tensor<?xi32>`
    Take(Take),

    /// `%r = shardrun.pad %a low = nums high = nums : T -> U`
    ///
    /// The tensor with undefined cells at both ends of each dimension.
    ///
    /// `%1 = shardrun.pad %0 low = [1] high = [1] : tensor<2xi32> -> tensor<4xi32>`
    Pad(Pad),

    /// `%r = shardrun.join %a, %b axis = N : T, U -> V`
    ///
    /// The operands one after the other along an axis.
    ///
    /// `%2 = shardrun.join %0, %1 axis = 0 : tensor<1xi32>, tensor<3xi32> -> tensor<4xi32>`
    Join(Join),

    /// `%r = call @f(%a, %b) : (T, U) -> V`, or `func.call`
    ///
    /// The one result of another function of the module on the operands.
    ///
    /// `%b = call @double(%a) : (tensor<4xi32>) -> tensor<4xi32>`
    Call(Call),

    /// `return %a, %b : T, U`, or `func.return`
    ///
    /// The results of the function. It defines no value.
    ///
    /// `return %0 : tensor<4xi32>`
    Return(Return),
}

/// An operation of a function.
#[derive(Drop)]
pub struct Op {
    pub kind: OpKind,
    /// The written operands; where there is a region, then the names of the function that it uses,
    /// each once, by first use.
    pub operands: Ids,
    /// The name that it defines. Every operation but the return defines one.
    pub defines: Option<u32>,
    /// The type of that value.
    pub result: ValueType,
    pub place: Place,
}

/// The operations of a function in order, the return last.
pub type Ops = Items<Op>;

/// Appends the operation of these parts. On want of memory the list stays as it was.
pub fn push_op(
    ops: &mut Ops,
    kind: OpKind,
    operands: Ids,
    defines: Option<u32>,
    result_type: ValueType,
    place: Place,
) -> Result<(), Mem>
    ensures ok { OnOk result (ops.new ≡ ops.old ++ op_of kind operands defines result_type place ∷ []) }
    ensures err { OnErr result (ops.new ≡ ops.old) }
{
    ops.push(Op {
        kind,
        operands,
        defines,
        result: result_type,
        place,
    })
}
