//! Texts, and what `shard-opt` answers to each without a word.

use crate::runs::{SUM, assert_run};
use std::alloc::Global;
use std::process::Abort;
use std::test::Fail;

const UNBUILT: (u8, &str, &str) = (14, "", "shard-opt: error 14 unbuilt\n");

/// The module that is printed of the sum.
const PRINTED_SUM: &str = "module {
  shard.grid @g(shape = 2)
  func.func @f(%arg0 : tensor<4xi32>, %arg1 : tensor<4xi32>) -> tensor<4xi32> {
    %0 = shard.sharding @g split_axes = [[0]] : !shard.sharding
    %1 = shard.shard %arg0 to %0 : tensor<4xi32>
    %2 = shard.shard %arg1 to %0 : tensor<4xi32>
    %3 = arith.addi %1, %2 : tensor<4xi32>
    %4 = shard.shard %3 to %0 : tensor<4xi32>
    return %4 : tensor<4xi32>
  }
}
";

/// Each row is a text on one line, the code and place of its refusal, and the status.
const REFUSED: &str = "\
module { | P1 at 1:9 | 3
% | B1 at 1:1 | 3
\"open | B2 at 1:1 | 3
18446744073709551616 | B3 at 1:1 | 3
module { func.func @f() { %a = arith.nosuch %b : i32 return } } | P2 at 1:32 | 3
func.func @f(%a : tensor<1x1x1x1x1x1x1xi32>) { return } | L2 at 1:1 | 12
shard.grid @g(shape = 1025) | L3 at 1:1 | 12
func.func @f(%a : tensor<1048577xi32>) { return } | L4 at 1:1 | 12
func.func @f(%a : tensor<2xi32>) -> tensor<2xi32> { return %b : tensor<2xi32> } | V1 at 1:53 | 4
func.func @f(%a : tensor<2xi32>) { %b = arith.addi %a, %a : tensor<3xi32> return } | V3 at 1:36 | 4
shard.grid @g(shape = 2) func.func @f(%a : tensor<2xi32>) { \
%s = shard.sharding @h split_axes = [[0]] : !shard.sharding \
%b = shard.shard %a to %s : tensor<2xi32> return } | V6 at 1:61 | 4
shard.grid @g(shape = 2) func.func @f(%a : tensor<2xi32>) { \
%s = shard.sharding @g split_axes = [[1]] : !shard.sharding \
%b = shard.shard %a to %s : tensor<2xi32> return } | A1 at 1:121 | 5
shard.grid @g(shape = 2) func.func @f(%a : tensor<2x2xi32>) { \
%s = shard.sharding @g split_axes = [[0], [0]] : !shard.sharding \
%b = shard.shard %a to %s : tensor<2x2xi32> return } | A2 at 1:128 | 5
func.func @f(%a : tensor<1048577xi32>) -> i32 { return %b : i32 } | L4 at 1:1 | 12
shard.grid @g(shape = 2) func.func @f(%a : tensor<2xi32>) { \
%s = shard.sharding @g split_axes = [[1]] : !shard.sharding \
%b = shard.shard %a to %s : tensor<2xi32> %c = arith.addi %a, %a : tensor<3xi32> return } | V3 at 1:163 | 4
";

fn assert_refused(rt: &impl Abort, alloc: Global, row: &str) -> Result<(), Fail> {
    let (text, answer) = row.split_once(" | ").ok_or("no bar")?;
    let (fault, status) = answer.split_once(" | ").ok_or("no second bar")?;
    let line = format!(in alloc; "shard-opt: error {status} {fault}\n")?;
    let code = status.parse::<u8>().ok().ok_or("no status")?;
    assert_run(rt, alloc, "", text, (code, "", line.as_str()))
}

#[test]
fn texts_are_refused(rt: HostRuntime) -> Result<(), Fail> {
    let alloc = rt.alloc();
    for row in REFUSED.lines() {
        assert_refused(&rt, alloc, row)?;
    }
    Ok(())
}

#[test]
fn the_sum_is_printed(rt: HostRuntime) -> Result<(), Fail> {
    let alloc = rt.alloc();
    assert_run(&rt, alloc, "", SUM, (0, PRINTED_SUM, ""))?;
    assert_run(&rt, alloc, "", PRINTED_SUM, (0, PRINTED_SUM, ""))
}

#[test]
fn a_tensor_has_at_most_1048576_cells(rt: HostRuntime) -> Result<(), Fail> {
    let text = "module {
  func.func @f(%arg0 : tensor<1048576xi32>) {
    return
  }
}
";
    assert_run(&rt, rt.alloc(), "", text, (0, text, ""))
}

#[test]
fn the_empty_text_is_the_empty_module(rt: HostRuntime) -> Result<(), Fail> {
    assert_run(&rt, rt.alloc(), "", "", (0, "module {\n}\n", ""))
}

#[test]
fn a_grid_has_at_most_1024_devices(rt: HostRuntime) -> Result<(), Fail> {
    let alloc = rt.alloc();
    let most = "module {\n  shard.grid @g(shape = 32x32)\n}\n";
    assert_run(&rt, alloc, "", most, (0, most, ""))?;
    let more = "module {\n  shard.grid @g(shape = 1025)\n}\n";
    assert_run(
        &rt,
        alloc,
        "",
        more,
        (12, "", "shard-opt: error 12 L3 at 2:3\n"),
    )
}

#[test]
fn a_fault_is_named_with_its_place(rt: HostRuntime) -> Result<(), Fail> {
    let alloc = rt.alloc();
    let front = SUM.split_once("i32>, %b").ok_or("no front")?.0;
    assert_run(
        &rt,
        alloc,
        "",
        front,
        (3, "", "shard-opt: error 3 P1 at 3:29\n"),
    )?;
    let undefined = SUM.replace(alloc, "%a1, %b1", "%a1, %zz")?;
    let line = "shard-opt: error 4 V1 at 7:5\n";
    assert_run(&rt, alloc, "", undefined.as_str(), (4, "", line))?;
    let wider = SUM.replace(
        alloc,
        "%a1, %b1 : tensor<4xi32>",
        "%a1, %b1 : tensor<8xi32>",
    )?;
    let line = "shard-opt: error 4 V3 at 7:5\n";
    assert_run(&rt, alloc, "", wider.as_str(), (4, "", line))
}

/// Two literals, and what is printed of them.
#[test]
fn literals_are_printed_by_what_they_hold(rt: HostRuntime) -> Result<(), Fail> {
    let text = "func.func @f() {
  %a = arith.constant dense<\"0x01000000FFFFFFFF\"> : tensor<2xi32>
  %b = arith.constant dense<> : tensor<0xi32>
  %c-1_i32 = arith.constant -1 : i32
  return
}";
    let printed = "module {
  func.func @f() {
    %0 = arith.constant dense<[1, -1]> : tensor<2xi32>
    %1 = arith.constant dense<> : tensor<0xi32>
    %2 = arith.constant -1 : i32
    return
  }
}
";
    assert_run(&rt, rt.alloc(), "", text, (0, printed, ""))
}

#[test]
fn a_call_operation_is_unbuilt(rt: HostRuntime) -> Result<(), Fail> {
    let alloc = rt.alloc();
    let text = "module {
  func.func @g(%a : tensor<4xi32>) -> tensor<4xi32> {
    return %a : tensor<4xi32>
  }
  func.func @f(%a : tensor<4xi32>) -> tensor<4xi32> {
    %b = func.call @g(%a) : (tensor<4xi32>) -> tensor<4xi32>
    return %b : tensor<4xi32>
  }
}
";
    assert_run(&rt, alloc, "", text, UNBUILT)
}
