use crate::printing::assert_printed;
use std::test::Fail;

const EMPTY: &str = "module {
}
";

const GRID: &str = "module {
  shard.grid @g(shape = 32x32)
}
";

/// The program of one device, and its call.
const DEVICE: &str = "module {
  shard.grid @g(shape = 2)
  shardrun.device @f on @g(tensor<4xi32> split_axes = [[0]], tensor<4xi32> split_axes = [[0]]) -> (tensor<4xi32> split_axes = [[0]])
  func.func @f(%arg0 : tensor<2xi32>, %arg1 : tensor<2xi32>) -> tensor<2xi32> {
    %0 = arith.addi %arg0, %arg1 : tensor<2xi32>
    return %0 : tensor<2xi32>
  }
  shardrun.call @f(dense<[2147483647, 1, 2, 3]> : tensor<4xi32>, dense<1> : tensor<4xi32>)
}
";

/// The same without the call.
const NO_CALL: &str = "module {
  shard.grid @g(shape = 2)
  shardrun.device @f on @g(tensor<4xi32> split_axes = [[0]], tensor<4xi32> split_axes = [[0]]) -> (tensor<4xi32> split_axes = [[0]])
  func.func @f(%arg0 : tensor<2xi32>, %arg1 : tensor<2xi32>) -> tensor<2xi32> {
    %0 = arith.addi %arg0, %arg1 : tensor<2xi32>
    return %0 : tensor<2xi32>
  }
}
";

/// Functions with no result and with two, in a module with a name.
const RESULTS: &str = "module @m {
  func.func @f() {
    return
  }
  func.func private @h(%arg0 : i32, %arg1 : i1) -> (i32, i1) {
    return %arg0, %arg1 : i32, i1
  }
  shardrun.call @f()
}
";

/// Items in another order, with names and words that aren't printed.
const MIXED: &str = "shardrun.call @f() // a call
func.func public @f() -> () { func.return }
shard.grid @g(shape = 2x3)
";

const SORTED: &str = "module {
  shard.grid @g(shape = 2x3)
  func.func @f() {
    return
  }
  shardrun.call @f()
}
";

#[test]
fn smallest(rt: HostRuntime) -> Result<(), Fail> {
    assert_printed(&rt, rt.alloc(), "", EMPTY)?;
    assert_printed(&rt, rt.alloc(), EMPTY, EMPTY)?;
    assert_printed(&rt, rt.alloc(), GRID, GRID)
}

#[test]
fn devices(rt: HostRuntime) -> Result<(), Fail> {
    assert_printed(&rt, rt.alloc(), DEVICE, DEVICE)?;
    assert_printed(&rt, rt.alloc(), NO_CALL, NO_CALL)
}

#[test]
fn functions(rt: HostRuntime) -> Result<(), Fail> {
    assert_printed(&rt, rt.alloc(), RESULTS, RESULTS)?;
    assert_printed(&rt, rt.alloc(), MIXED, SORTED)
}
