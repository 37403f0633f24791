use crate::printing::assert_printed;
use std::test::Fail;

const REDUCE: &str = "module {
  func.func @f(%arg0 : tensor<4xi32>, %arg1 : tensor<i32>) -> tensor<i32> {
    %0 = linalg.reduce ins(%arg0 : tensor<4xi32>) outs(%arg1 : tensor<i32>) dimensions = [0](%b0 : i32, %b1 : i32) {
      %r0 = arith.addi %b1, %b0 : i32
      linalg.yield %r0 : i32
    }
    return %0 : tensor<i32>
  }
}
";

/// The same in its short form.
const SHORT_REDUCE: &str =
    "func.func public @f(%in: tensor<4xi32>, %out: tensor<i32>) -> (tensor<i32>) {
%sum = linalg.reduce { arith.addi {overflowFlags = #arith.overflow<none>} } ins(%in : tensor<4xi32>) \
outs(%out : tensor<i32>) dimensions = [0]
func.return %sum : tensor<i32>
}";

const GENERIC: &str = "module {
  func.func private @f(%arg0 : tensor<4xi32>, %arg1 : tensor<4xi32>) {
    %0 = arith.constant 0 : i32
    %1 = linalg.generic { indexing_maps = [affine_map<(d0) -> (d0)>, affine_map<(d0) -> (d0)>], iterator_types = [\"parallel\"] } ins(%arg0 : tensor<4xi32>) outs(%arg1 : tensor<4xi32>) {
      ^bb0(%b0 : i32, %b1 : i32) :
      %r0 = arith.cmpi sgt, %b0, %0 : i32
      %r1 = arith.select %r0, %b0, %b1 : i32
      linalg.yield %r1 : i32
    } -> tensor<4xi32>
    return
  }
}
";

/// No input, and a map without loops.
const GENERIC_WITHOUT_INPUTS: &str = "module {
  func.func @f(%arg0 : tensor<i32>) {
    %0 = linalg.generic { indexing_maps = [affine_map<() -> ()>], iterator_types = [] } outs(%arg0 : tensor<i32>) {
      ^bb0(%b0 : i32) :
      linalg.yield %b0 : i32
    } -> tensor<i32>
    return
  }
}
";

#[test]
fn reduce(rt: HostRuntime) -> Result<(), Fail> {
    assert_printed(&rt, rt.alloc(), REDUCE, REDUCE)?;
    assert_printed(&rt, rt.alloc(), SHORT_REDUCE, REDUCE)
}

#[test]
fn generic(rt: HostRuntime) -> Result<(), Fail> {
    assert_printed(&rt, rt.alloc(), GENERIC, GENERIC)?;
    assert_printed(
        &rt,
        rt.alloc(),
        GENERIC_WITHOUT_INPUTS,
        GENERIC_WITHOUT_INPUTS,
    )
}
