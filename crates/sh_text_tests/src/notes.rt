use crate::rows::{END, assert_rows};
use std::test::Fail;

const HEAD: &str = "module { shard.grid @g(shape = 2x3) \
func.func @one(%a: tensor<4xi32>) -> tensor<4xi32> { return %a : tensor<4xi32> } \
func.func @two(%a: tensor<4xi32>) -> (tensor<4xi32>, tensor<4xi32>) { return %a, %a : tensor<4xi32>, tensor<4xi32> } \
func.func @none() { return } \
shardrun.device @d on @g(tensor<4xi32> split_axes = []) -> (tensor<4xi32> split_axes = []) \
func.func @d(%a: tensor<4xi32>) -> tensor<4xi32> { return %a : tensor<4xi32> } \
func.func @f(%a: tensor<4xi32>, %b: tensor<5xi32>) { \
%s = shard.sharding @g split_axes = [[0]] : !shard.sharding %c = arith.constant 1 : i32";

const SHARDING: &str = "\
%r = shard.sharding @g split_axes = [[0]] : !shard.sharding | sound
%r = shard.sharding @g split_axes = [[7, 7], [], [-1]] halo_sizes = [-1] sharded_dims_offsets = [3] : !shard.sharding | sound
%s = shard.sharding @g split_axes = [[0]] : !shard.sharding | V2 2:1
%r = shard.sharding @k split_axes = [[0]] : !shard.sharding | V6 2:1
%r = shard.sharding @g split_axes = [[0]] : tensor<4xi32> | P1 2:45";

const SHARD: &str = "\
%r = shard.shard %a to %s : tensor<4xi32> | sound
%r = shard.shard %a to %s annotate_for_users : tensor<4xi32> | sound
%r = shard.shard %b to %s : tensor<5xi32> %t = shard.shard %r to %s : tensor<5xi32> | sound
%r = shard.shard %x to %s : tensor<4xi32> | V1 2:1
%r = shard.shard %a to %x : tensor<4xi32> | V1 2:1
%a = shard.shard %a to %s : tensor<4xi32> | V2 2:1
%r = shard.shard %b to %s : tensor<4xi32> | V3 2:1
%r = shard.shard %a to %s : tensor<5xi32> | V3 2:1
%r = shard.shard %a to %a : tensor<4xi32> | V3 2:1
%r = shard.shard %s to %s : tensor<4xi32> | V3 2:1
%r = shard.shard %c to %s : i32 | V3 2:1
%r = arith.addi %a, %s : tensor<4xi32> | V3 2:1";

const CALL: &str = "\
%r = call @one(%a) : (tensor<4xi32>) -> tensor<4xi32> | sound
%r = func.call @one(%a) : (tensor<4xi32>) -> tensor<4xi32> | sound
%r = call @one(%x) : (tensor<4xi32>) -> tensor<4xi32> | V1 2:1
%a = call @one(%a) : (tensor<4xi32>) -> tensor<4xi32> | V2 2:1
%r = call @one(%b) : (tensor<4xi32>) -> tensor<4xi32> | V3 2:1
%r = call @one(%b) : (tensor<5xi32>) -> tensor<4xi32> | V3 2:1
%r = call @one(%a, %a) : (tensor<4xi32>, tensor<4xi32>) -> tensor<4xi32> | V3 2:1
%r = call @one(%a, %a) : (tensor<4xi32>) -> tensor<4xi32> | V3 2:1
%r = call @one() : () -> tensor<4xi32> | V3 2:1
%r = call @one(%a) : (tensor<4xi32>) -> tensor<5xi32> | V4 2:1
%r = call @one(%a) : (tensor<4xi32>) -> tensor<4xi8> | V4 2:1
%r = call @two(%a) : (tensor<4xi32>) -> tensor<4xi32> | V4 2:1
%r = call @none() : () -> tensor<4xi32> | V4 2:1
%r = call @k(%b) : (tensor<5xi32>) -> tensor<9xi32> | V6 2:1
%r = call @d(%a) : (tensor<4xi32>) -> tensor<4xi32> | V10 2:1";

const RETURN_HEAD: &str = "module { \
func.func @f(%a: tensor<4xi32>, %b: tensor<5xi32>) -> (tensor<4xi32>, tensor<5xi32>) {";

const RETURN: &str = "\
return %a, %b : tensor<4xi32>, tensor<5xi32> | sound
func.return %a, %b : tensor<4xi32>, tensor<5xi32> | sound
return %x, %b : tensor<4xi32>, tensor<5xi32> | V1 2:1
return %b, %b : tensor<4xi32>, tensor<5xi32> | V3 2:1
return %a, %b : tensor<4xi32> | V3 2:1
return | V7 2:1
return %a : tensor<4xi32> | V7 2:1
return %b, %a : tensor<5xi32>, tensor<4xi32> | V7 2:1
return %a, %b, %a : tensor<4xi32>, tensor<5xi32>, tensor<4xi32> | V7 2:1";

#[test]
fn shardings(rt: HostRuntime) -> Result<(), Fail> {
    assert_rows(&rt, rt.alloc(), HEAD, SHARDING, END)?;
    assert_rows(&rt, rt.alloc(), HEAD, SHARD, END)
}

#[test]
fn calls(rt: HostRuntime) -> Result<(), Fail> {
    assert_rows(&rt, rt.alloc(), HEAD, CALL, END)
}

#[test]
fn returns(rt: HostRuntime) -> Result<(), Fail> {
    assert_rows(&rt, rt.alloc(), RETURN_HEAD, RETURN, "} }")
}
