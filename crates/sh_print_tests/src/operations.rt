use crate::printing::{assert_rows, assert_same};
use std::test::Fail;

/// Literals: `i1` without a type, signed numbers, no cell, one cell for all, nested lists.
const LITERALS: &str = "\
%0 = arith.constant true
%0 = arith.constant false
%0 = arith.constant -1 : i32
%0 = arith.constant 127 : i8
%0 = arith.constant dense<> : tensor<0xi32>
%0 = arith.constant dense<5> : tensor<i32>
%0 = arith.constant dense<-5> : tensor<4xi64>
%0 = arith.constant dense<true> : tensor<2xi1>
%0 = arith.constant dense<[true, false]> : tensor<2xi1>
%0 = arith.constant dense<[1, -1]> : tensor<2xi32>
%0 = arith.constant dense<[[1, 2], [3, 4]]> : tensor<2x2xi8>
%0 = arith.constant dense<[[[1]], [[2]]]> : tensor<2x1x1xi16>";

const ELEMENTS: &str = "\
%0 = arith.addi %arg0, %arg1 : tensor<4xi32>
%0 = arith.cmpi slt, %arg0, %arg1 : tensor<4xi32>
%0 = arith.select %arg2, %arg0, %arg1 : tensor<4xi1>, tensor<4xi32>
%0 = arith.select %arg3, %arg0, %arg1 : tensor<4xi32>
%0 = arith.extsi %arg0 : tensor<4xi32> to tensor<4xi64>
%0 = arith.trunci %arg0 : tensor<4xi32> to tensor<4xi8>";

const TENSORS: &str = "\
%0 = tensor.empty() : tensor<2xi32>
%0 = tensor.empty() : tensor<i32>
%0 = tensor.empty() : tensor<?x4xi32>
%0 = tensor.extract_slice %arg0 [1] [2] [1] : tensor<4xi32> to tensor<2xi32>
%0 = tensor.insert_slice %arg0 into %arg1 [0] [4] [1] : tensor<4xi32> into tensor<4xi32>
%0 = tensor.collapse_shape %arg0 [[0, 1], [2]] : tensor<2x2x3xi32> into tensor<4x3xi32>
%0 = tensor.collapse_shape %arg0 [] : tensor<1xi32> into tensor<i32>
%0 = tensor.expand_shape %arg0 [[0, 1]] output_shape [2, 2] : tensor<4xi32> into tensor<2x2xi32>";

const STRUCTURED: &str = "\
%0 = linalg.fill ins(%arg3 : i1) outs(%arg2 : tensor<4xi1>) -> tensor<4xi1>
%0 = linalg.dot ins(%arg0, %arg1 : tensor<4xi32>, tensor<4xi32>) outs(%arg0 : tensor<i32>) -> tensor<i32>
%0 = linalg.transpose ins(%arg0 : tensor<4xi32>) outs(%arg1 : tensor<4xi32>) permutation = [0]
%0 = linalg.broadcast ins(%arg0 : tensor<4xi32>) outs(%arg1 : tensor<4x2xi32>) dimensions = [1]
%0 = call @g() :() -> tensor<4xi32>
%0 = call @g(%arg0) :(tensor<4xi32>) -> tensor<4xi32>
%0 = call @g(%arg0, %arg1) :(tensor<4xi32>, tensor<4xi32>) -> tensor<4xi32>";

const SHARDINGS: &str = "\
%0 = shard.sharding @g split_axes = [] : !shard.sharding
%0 = shard.sharding @g split_axes = [[0], []] : !shard.sharding
%0 = shard.sharding @g split_axes = [[0, 1]] halo_sizes = [1, -1] : !shard.sharding
%0 = shard.sharding @g split_axes = [[]] sharded_dims_offsets = [0, 2] : !shard.sharding
%0 = shard.shard %arg0 to %arg1 : tensor<4xi32>
%0 = shard.shard %arg0 to %arg1 annotate_for_users : tensor<4xi32>";

const COLLECTIVES: &str = "\
%0 = shard.all_gather %arg0 on @g grid_axes = [0] gather_axis = 0 : tensor<4xi32> -> tensor<8xi32>
%0 = shard.all_slice %arg0 on @g grid_axes = [0, 1] slice_axis = 0 : tensor<4xi32> -> tensor<1xi32>
%0 = shard.all_reduce %arg0 on @g grid_axes = [] reduction = <max> : tensor<4xi32> -> tensor<4xi32>
%0 = shard.reduce_scatter %arg0 on @g grid_axes = [0] reduction = <sum> scatter_axis = 0 : tensor<4xi32> -> tensor<2xi32>
%0 = shard.all_to_all %arg0 on @g grid_axes = [0] split_axis = 0 concat_axis = 1 : tensor<4x1xi32> -> tensor<2x2xi32>
%0 = shard.shift %arg0 on @g grid_axes = [0] shift_axis = 0 offset = -1 rotate : tensor<4xi32> -> tensor<4xi32>
%0 = shard.shift %arg0 on @g grid_axes = [0] shift_axis = 0 offset = 1 : tensor<4xi32> -> tensor<4xi32>
%0 = shard.update_halo %arg0 on @g split_axes = [[0]] halo_sizes = [1, 1] : tensor<4xi32>
%0 = shard.update_halo %arg0 on @g split_axes = [] halo_sizes = [] : tensor<4xi32>
%0 = shardrun.take %arg0 on @g grid_axes = [0] axis = 0 starts = [0, 2] sizes = [2, 2] : tensor<4xi32> -> tensor<2xi32>
%0 = shardrun.pad %arg0 low = [1] high = [0] : tensor<4xi32> -> tensor<5xi32>
%0 = shardrun.join %arg0, %arg1 axis = 0 : tensor<4xi32>, tensor<4xi32> -> tensor<8xi32>";

/// What is read in another form than it is printed in.
const OTHER_FORMS: &str = "\
%r = arith.constant dense<\"0x01000000FFFFFFFF\"> : tensor<2xi32> | %0 = arith.constant dense<[1, -1]> : tensor<2xi32>
%r = arith.constant dense<[3, 3]> : tensor<2xi32> | %0 = arith.constant dense<3> : tensor<2xi32>
%r = arith.constant 4294967295 : i32 | %0 = arith.constant -1 : i32
%c-1_i32 = arith.constant -1 : i32 | %0 = arith.constant -1 : i32
%r = arith.select %arg3, %arg0, %arg1 : i1, tensor<4xi32> | %0 = arith.select %arg3, %arg0, %arg1 : tensor<4xi32>
%r = shard.all_reduce %arg0 on @g : tensor<4xi32> -> tensor<4xi32> | %0 = shard.all_reduce %arg0 on @g grid_axes = [] reduction = <sum> : tensor<4xi32> -> tensor<4xi32>
%r = shard.all_reduce %arg0 on @g reduction = min : tensor<4xi32> -> tensor<4xi32> | %0 = shard.all_reduce %arg0 on @g grid_axes = [] reduction = <min> : tensor<4xi32> -> tensor<4xi32>";

#[test]
fn literals(rt: HostRuntime) -> Result<(), Fail> {
    assert_same(&rt, rt.alloc(), LITERALS)
}

#[test]
fn elements(rt: HostRuntime) -> Result<(), Fail> {
    assert_same(&rt, rt.alloc(), ELEMENTS)
}

#[test]
fn tensors(rt: HostRuntime) -> Result<(), Fail> {
    assert_same(&rt, rt.alloc(), TENSORS)
}

#[test]
fn structured(rt: HostRuntime) -> Result<(), Fail> {
    assert_same(&rt, rt.alloc(), STRUCTURED)
}

#[test]
fn shardings(rt: HostRuntime) -> Result<(), Fail> {
    assert_same(&rt, rt.alloc(), SHARDINGS)
}

#[test]
fn collectives(rt: HostRuntime) -> Result<(), Fail> {
    assert_same(&rt, rt.alloc(), COLLECTIVES)
}

#[test]
fn other_forms(rt: HostRuntime) -> Result<(), Fail> {
    assert_rows(&rt, rt.alloc(), OTHER_FORMS)
}
