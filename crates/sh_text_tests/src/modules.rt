use crate::rows::{END, assert_rows};
use std::test::Fail;

/// Items of a module.
const ITEMS: &str = "\
shard.grid @g(shape = 2) shard.grid @h(shape = 2) | sound
shard.grid @g(shape = 2) shard.grid @g(shape = 2) | V2 2:26
shard.grid @g(shape = 0) | V5 2:1
shard.grid @g(shape = 2x0) | V5 2:1
func.func @f() { return } func.func @g() { return } | sound
func.func @f() { return } func.func @f() { return } | V2 2:27
func.func @g() { return } shard.grid @g(shape = 2) | sound
func.func @f(%a: tensor<1xi8>, %b: tensor<1xi8>) { return } | sound
func.func @f(%a: tensor<1xi8>, %a: tensor<1xi8>) { return } | V2 2:1
func.func @f(%a: i8) { return } | V7 2:1
func.func @f() -> i8 { %c = arith.constant 1 : i8 return %c : i8 } | V7 2:1
func.func @f(%a: tensor<?xi8>) { return } | V10 2:1
func.func @f(%a: tensor<1xi8>) -> tensor<?xi8> { return %a : tensor<1xi8> } | V10 2:1
shardrun.call @f(dense<1> : tensor<4xi8>) | sound
shardrun.call @f(dense<1> : tensor<?xi8>) | sound
shardrun.call @f(dense<1> : i8) | V5 2:1
shardrun.call @f(dense<256> : tensor<4xi8>) | V5 2:1
shardrun.call @f(dense<1> : tensor<4xi8>, dense<[1]> : tensor<2xi8>) | V5 2:1";

const CUT_HEAD: &str = "module { shard.grid @g(shape = 2x3)";

/// Functions in device form.
const CUTS: &str = "\
shardrun.device @f on @g() -> () func.func @f() { return } | sound
shardrun.device @f on @k() -> () func.func @f() { return } | V6 2:1
shardrun.device @f on @g() -> () func.func @f() { return } func.func @f() { return } | V2 2:60
shardrun.device @f on @g(tensor<4xi8> split_axes = [[0]]) -> () func.func @f(%a: tensor<2xi8>) { return } | sound
shardrun.device @f on @g(tensor<4xi8> split_axes = [[0]]) -> () func.func @f(%a: tensor<4xi8>) { return } | V10 2:1
shardrun.device @f on @g(tensor<4xi8> split_axes = [[0]]) -> () func.func @f(%a: tensor<?xi8>) { return } | V10 2:1
shardrun.device @f on @g(tensor<4xi8> split_axes = [[0]]) -> () func.func @f(%a: tensor<2xi16>) { return } | V10 2:1
shardrun.device @f on @g(tensor<4xi8> split_axes = [[0]]) -> () func.func @f(%a: tensor<2x1xi8>) { return } | V10 2:1
shardrun.device @f on @g(tensor<5xi8> split_axes = [[0]]) -> () func.func @f(%a: tensor<?xi8>) { return } | sound
shardrun.device @f on @g(tensor<5xi8> split_axes = [[0]]) -> () func.func @f(%a: tensor<3xi8>) { return } | V10 2:1
shardrun.device @f on @g(tensor<4xi8> split_axes = [[0]] sharded_dims_offsets = [0, 1, 4]) -> () func.func @f(%a: tensor<?xi8>) { return } | sound
shardrun.device @f on @g(tensor<8xi8> split_axes = [[0]] halo_sizes = [1, 1]) -> () func.func @f(%a: tensor<6xi8>) { return } | sound
shardrun.device @f on @g(tensor<8xi8> split_axes = [[0]] halo_sizes = [1, 1]) -> () func.func @f(%a: tensor<4xi8>) { return } | V10 2:1
shardrun.device @f on @g() -> () func.func @f(%a: tensor<2xi8>) { return } | V10 2:1
shardrun.device @f on @g(tensor<4xi8> split_axes = [[0]]) -> () func.func @f() { return } | V10 2:1
shardrun.device @f on @g(tensor<4xi8> split_axes = [[0]]) -> () func.func @f(%a: tensor<2xi8>, %a: tensor<2xi8>) { return } | V2 2:1
shardrun.device @f on @g(i8 split_axes = []) -> () func.func @f(%a: tensor<i8>) { return } | V3 2:1
shardrun.device @f on @g(tensor<i8> split_axes = []) -> () func.func @f(%a: i8) { return } | V7 2:1
shardrun.device @f on @g(tensor<?xi8> split_axes = []) -> () func.func @f(%a: tensor<?xi8>) { return } | V10 2:1
shardrun.device @f on @g(tensor<4xi8> split_axes = [[7]]) -> () func.func @f(%a: tensor<9xi8>) { return } | sound
shardrun.device @f on @g(tensor<4xi8> split_axes = [[7]], tensor<4xi8> split_axes = []) -> () \
func.func @f(%a: tensor<4xi8>, %b: tensor<9xi8>) { return } | sound
shardrun.device @f on @g(tensor<4xi8> split_axes = [], tensor<4xi8> split_axes = []) -> () \
func.func @f(%a: tensor<4xi8>, %b: tensor<9xi8>) { return } | V10 2:1";

const RESULT_HEAD: &str = "module { shard.grid @g(shape = 2x3) \
shardrun.device @h on @g(tensor<2xi8> split_axes = []) -> () func.func @h(%a: tensor<2xi8>) { return }";

/// Results in device form.
const RESULTS: &str = "\
shardrun.device @f on @g(tensor<2xi8> split_axes = []) -> (tensor<4xi8> split_axes = [[0]]) \
func.func @f(%a: tensor<2xi8>) -> tensor<2xi8> { return %a : tensor<2xi8> } | sound
shardrun.device @f on @g(tensor<2xi8> split_axes = []) -> (tensor<4xi8> split_axes = []) \
func.func @f(%a: tensor<2xi8>) -> tensor<2xi8> { return %a : tensor<2xi8> } | V10 2:1
shardrun.device @f on @g(tensor<2xi8> split_axes = []) -> () \
func.func @f(%a: tensor<2xi8>) -> tensor<2xi8> { return %a : tensor<2xi8> } | V10 2:1
shardrun.device @f on @g(tensor<2xi8> split_axes = []) -> (tensor<2xi8> split_axes = []) \
func.func @f(%a: tensor<2xi8>) { return } | V10 2:1
shardrun.device @f on @g(tensor<5xi8> split_axes = [[0]]) -> (tensor<5xi8> split_axes = [[0]]) \
func.func @f(%a: tensor<?xi8>) -> tensor<?xi8> { return %a : tensor<?xi8> } | sound
shardrun.device @f on @g(tensor<2xi8> split_axes = []) -> (tensor<5xi8> split_axes = [[0]]) \
func.func @f(%a: tensor<2xi8>) -> tensor<?xi8> { return %a : tensor<2xi8> } | V7 2:142";

const ORDER_HEAD: &str =
    "module { func.func @f(%a: tensor<4xi8>, %b: tensor<4xi8>, %c: tensor<3xi8>) {";

/// Of several faults the first place is answered and there the least code: of tokens before the
/// grammar, of the grammar before limits, of limits before rules.
const ORDER: &str = "\
%r = arith.addi %a, %c : tensor<4xi8> %s = arith.addi %x, %b : tensor<4xi8> | V3 2:1
%r = arith.addi %x, %b : tensor<4xi8> %s = arith.addi %a, %c : tensor<4xi8> | V1 2:1
%r = arith.addi %a, %b : tensor<4xi8> %s = arith.addi %a, %c : tensor<4xi8> | V3 2:39
%r = arith.addi %a, %s : tensor<4xi8> %s = arith.addi %a, %b : tensor<4xi8> | V1 2:1
%a = arith.addi %x, %c : tensor<4xi8> | V1 2:1
%a = arith.addi %b, %c : tensor<4xi8> | V2 2:1
%r = arith.extsi %c : tensor<4xi8> to tensor<4xi8> | V3 2:1
%r = arith.addi %x, %b : tensor<4xi8> %s = tensor.empty() : tensor<1048577xi8> | L4 2:39
%r = tensor.empty() : tensor<1x1x1x1x1x1x1048577xi8> | L2 2:1
%r = arith.addi %x, %b : tensor<4xi8> ; %s = tensor.empty() : tensor<4xi8> | B1 2:39
%r = arith.addi %x, %b : tensor<4xi8> %s = tensor.full() : tensor<4xi8> | P2 2:44
%r = arith.addi %x, %b : tensor<4xf32> %s = tensor.empty() : tensor<18446744073709551616xi8> | B3 2:69";

#[test]
fn first_faults(rt: HostRuntime) -> Result<(), Fail> {
    assert_rows(&rt, rt.alloc(), ORDER_HEAD, ORDER, END)
}

#[test]
fn items(rt: HostRuntime) -> Result<(), Fail> {
    assert_rows(&rt, rt.alloc(), "module {", ITEMS, "}")
}

#[test]
fn cuts(rt: HostRuntime) -> Result<(), Fail> {
    assert_rows(&rt, rt.alloc(), CUT_HEAD, CUTS, "}")?;
    assert_rows(&rt, rt.alloc(), RESULT_HEAD, RESULTS, "}")
}
