use crate::rows::{END, assert_admissions};
use std::test::Fail;

/// Two grids, and one sharding of each kind, of which nothing is asked before one is noted.
const HEAD: &str = "module { shard.grid @g(shape = 2x3) shard.grid @h(shape = 2) \
func.func @f(%a: tensor<4xi32>, %b: tensor<5xi32>) { \
%one = shard.sharding @g split_axes = [[0]] : !shard.sharding \
%absent = shard.sharding @g split_axes = [[2]] : !shard.sharding \
%twice = shard.sharding @g split_axes = [[0, 0]] : !shard.sharding \
%many = shard.sharding @g split_axes = [[0], [1]] : !shard.sharding \
%parts = shard.sharding @g split_axes = [[0]] sharded_dims_offsets = [0, 3, 5] : !shard.sharding \
%count = shard.sharding @g split_axes = [[0]] halo_sizes = [1] : !shard.sharding \
%halo = shard.sharding @g split_axes = [[0]] halo_sizes = [3, 1] : !shard.sharding \
%other = shard.sharding @h split_axes = [[0]] : !shard.sharding \
%far = shard.sharding @h split_axes = [[1]] : !shard.sharding";

const NOTES: &str = "\
%r = arith.addi %a, %a : tensor<4xi32> | sound
%r = shard.shard %a to %one : tensor<4xi32> | sound
%r = shard.shard %b to %one annotate_for_users : tensor<5xi32> | sound
%r = shard.shard %b to %parts : tensor<5xi32> | sound
%r = shard.shard %a to %other : tensor<4xi32> | sound
%r = shard.shard %a to %absent : tensor<4xi32> | A1 2:1
%r = shard.shard %a to %twice : tensor<4xi32> | A2 2:1
%r = shard.shard %a to %many : tensor<4xi32> | A3 2:1
%r = shard.shard %a to %parts : tensor<4xi32> | A5 2:1
%r = shard.shard %a to %count : tensor<4xi32> | A7 2:1
%r = shard.shard %a to %halo : tensor<4xi32> | A8 2:1
%r = shard.shard %a to %one : tensor<4xi32> %t = shard.shard %b to %other : tensor<5xi32> | A9 2:45
%r = shard.shard %a to %other : tensor<4xi32> %t = shard.shard %b to %one : tensor<5xi32> | A9 2:47
%r = shard.shard %a to %one : tensor<4xi32> %t = shard.shard %b to %far : tensor<5xi32> | A1 2:45
%r = shard.shard %a to %halo : tensor<4xi32> %t = shard.shard %b to %absent : tensor<5xi32> | A8 2:1";

/// A function in device form, which has no note, behind one in source form.
const CUTS_HEAD: &str = "module { shard.grid @g(shape = 2x3) shard.grid @h(shape = 2) \
func.func @s(%a: tensor<4xi32>) { \
%one = shard.sharding @h split_axes = [[0]] : !shard.sharding \
%r = shard.shard %a to %one : tensor<4xi32> return }";

const CUTS: &str = "\
shardrun.device @f on @g(tensor<4xi32> split_axes = [[0]]) -> () func.func @f(%a: tensor<2xi32>) { | sound
shardrun.device @f on @g(tensor<4xi32> split_axes = [[2]]) -> () func.func @f(%a: tensor<2xi32>) { | A1 2:1
shardrun.device @f on @g(tensor<4xi32> split_axes = [[0, 0]], tensor<4xi32> split_axes = [[2]]) -> () \
func.func @f(%a: tensor<2xi32>, %b: tensor<2xi32>) { | A1 2:1";

/// What is said where a grid is needed.
const NEEDED: &str = "\
module { | sound
module { shard.grid @g(shape = 2) func.func @f() { return } | sound
module { func.func @f() { return } func.func @g() { return } | A10 2:10";

#[test]
fn notes_are_admitted_or_refused(rt: HostRuntime) -> Result<(), Fail> {
    assert_admissions(&rt, rt.alloc(), false, HEAD, NOTES, END)
}

#[test]
fn cuts_are_admitted_or_refused(rt: HostRuntime) -> Result<(), Fail> {
    assert_admissions(&rt, rt.alloc(), true, CUTS_HEAD, CUTS, END)
}

#[test]
fn a_grid_is_missed_where_it_is_needed(rt: HostRuntime) -> Result<(), Fail> {
    assert_admissions(&rt, rt.alloc(), true, "", NEEDED, "}")
}

#[test]
fn no_grid_is_missed_else(rt: HostRuntime) -> Result<(), Fail> {
    let row = "module { func.func @f() { return } | sound";
    assert_admissions(&rt, rt.alloc(), false, "", row, "}")
}
