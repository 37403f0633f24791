use crate::rows::{END, assert_rows};
use std::test::Fail;

const HEAD: &str =
    "module { func.func @f(%m: tensor<2x3xi32>, %k: tensor<3x4xi32>, %o: tensor<2x4xi32>, \
%n: tensor<3x4xi8>, %p: tensor<3x4xi1>, %q: tensor<2x4xi8>, %u: tensor<3xi32>, %v: tensor<2xi32>, \
%w: tensor<4xi32>, %z: tensor<i32>) { %s = arith.constant 1 : i32 %t = arith.constant 1 : i8";

/// The same for products of batches and for windows.
const HEAD_OF_BATCHES: &str = "module { func.func @f(%b: tensor<5x2x3xi32>, %c: tensor<5x3x4xi32>, \
%o: tensor<5x2x4xi32>, %d: tensor<6x3x4xi32>, %v: tensor<8xi32>, %k: tensor<3xi32>, %w: tensor<6xi32>, \
%e: tensor<0xi32>, %m: tensor<5x6xi32>, %l: tensor<2x3xi32>, %x: tensor<4x4xi32>, %n: tensor<6xi8>) {";

const FILL: &str = "\
%r = linalg.fill ins(%s : i32) outs(%o : tensor<2x4xi32>) -> tensor<2x4xi32> | sound
%r = linalg.fill ins(%y : i32) outs(%o : tensor<2x4xi32>) -> tensor<2x4xi32> | V1 2:1
%s = linalg.fill ins(%s : i32) outs(%o : tensor<2x4xi32>) -> tensor<2x4xi32> | V2 2:1
%r = linalg.fill ins(%t : i8) outs(%o : tensor<2x4xi32>) -> tensor<2x4xi32> | V3 2:1
%r = linalg.fill ins(%t : i32) outs(%o : tensor<2x4xi32>) -> tensor<2x4xi32> | V3 2:1
%r = linalg.fill ins(%z : tensor<i32>) outs(%o : tensor<2x4xi32>) -> tensor<2x4xi32> | V3 2:1
%r = linalg.fill ins(%s : i32) outs(%s : i32) -> i32 | V3 2:1
%r = linalg.fill ins( : ) outs(%o : tensor<2x4xi32>) -> tensor<2x4xi32> | V3 2:1
%r = linalg.fill ins(%s : i32) outs( : ) -> tensor<2x4xi32> | V3 2:1
%r = linalg.fill ins(%s : i32) outs(%o : tensor<2x4xi32>) -> tensor<4x2xi32> | V4 2:1
%r = linalg.fill ins(%s : i32) outs(%o : tensor<2x4xi32>) -> tensor<2x4xi8> | V4 2:1";

const MATMUL: &str = "\
%r = linalg.matmul ins(%m, %k : tensor<2x3xi32>, tensor<3x4xi32>) outs(%o : tensor<2x4xi32>) -> tensor<2x4xi32> | sound
%r = linalg.matmul ins(%m, %n : tensor<2x3xi32>, tensor<3x4xi8>) outs(%o : tensor<2x4xi32>) -> tensor<2x4xi32> | sound
%r = linalg.matmul ins(%m, %y : tensor<2x3xi32>, tensor<3x4xi32>) outs(%o : tensor<2x4xi32>) -> tensor<2x4xi32> | V1 2:1
%r = linalg.matmul ins(%m, %k : tensor<2x3xi32>, tensor<3x4xi32>) outs(%r : tensor<2x4xi32>) -> tensor<2x4xi32> | V1 2:1
%m = linalg.matmul ins(%m, %k : tensor<2x3xi32>, tensor<3x4xi32>) outs(%o : tensor<2x4xi32>) -> tensor<2x4xi32> | V2 2:1
%r = linalg.matmul ins(%m, %m : tensor<2x3xi32>, tensor<3x4xi32>) outs(%o : tensor<2x4xi32>) -> tensor<2x4xi32> | V3 2:1
%r = linalg.matmul ins(%m, %o : tensor<2x3xi32>, tensor<2x4xi32>) outs(%o : tensor<2x4xi32>) -> tensor<2x4xi32> | V3 2:1
%r = linalg.matmul ins(%m, %k : tensor<2x3xi32>, tensor<3x4xi32>) outs(%k : tensor<3x4xi32>) -> tensor<3x4xi32> | V3 2:1
%r = linalg.matmul ins(%m, %u : tensor<2x3xi32>, tensor<3xi32>) outs(%o : tensor<2x4xi32>) -> tensor<2x4xi32> | V3 2:1
%r = linalg.matmul ins(%m, %k : tensor<2x3xi32>, tensor<3x4xi32>) outs(%q : tensor<2x4xi8>) -> tensor<2x4xi8> | V3 2:1
%r = linalg.matmul ins(%m, %p : tensor<2x3xi32>, tensor<3x4xi1>) outs(%o : tensor<2x4xi32>) -> tensor<2x4xi32> | V3 2:1
%r = linalg.matmul ins(%m : tensor<2x3xi32>) outs(%o : tensor<2x4xi32>) -> tensor<2x4xi32> | V3 2:1
%r = linalg.matmul ins(%m, %k : tensor<2x3xi32>) outs(%o : tensor<2x4xi32>) -> tensor<2x4xi32> | V3 2:1
%r = linalg.matmul ins(%m, %k : tensor<2x3xi32>, tensor<3x4xi32>) outs(%o, %o : tensor<2x4xi32>, tensor<2x4xi32>) -> tensor<2x4xi32> | V3 2:1
%r = linalg.matmul ins(%m, %k : tensor<2x3xi32>, tensor<3x4xi32>) outs(%o : tensor<2x4xi32>) -> tensor<4x2xi32> | V4 2:1
%r = linalg.matmul ins(%m, %k : tensor<2x3xi32>, tensor<3x4xi32>) outs(%o : tensor<2x4xi32>) -> tensor<2x4xi64> | V4 2:1
%r = linalg.matmul ins(%m, %k : tensor<2x3xi32>, tensor<3x4xi32>) outs(%o : tensor<2x4xi32>) -> tensor<2x?xi32> | V10 2:1";

const MATVEC: &str = "\
%r = linalg.matvec ins(%m, %u : tensor<2x3xi32>, tensor<3xi32>) outs(%v : tensor<2xi32>) -> tensor<2xi32> | sound
%r = linalg.matvec ins(%y, %u : tensor<2x3xi32>, tensor<3xi32>) outs(%v : tensor<2xi32>) -> tensor<2xi32> | V1 2:1
%u = linalg.matvec ins(%m, %u : tensor<2x3xi32>, tensor<3xi32>) outs(%v : tensor<2xi32>) -> tensor<2xi32> | V2 2:1
%r = linalg.matvec ins(%m, %v : tensor<2x3xi32>, tensor<2xi32>) outs(%v : tensor<2xi32>) -> tensor<2xi32> | V3 2:1
%r = linalg.matvec ins(%m, %u : tensor<2x3xi32>, tensor<3xi32>) outs(%u : tensor<3xi32>) -> tensor<3xi32> | V3 2:1
%r = linalg.matvec ins(%m, %k : tensor<2x3xi32>, tensor<3x4xi32>) outs(%v : tensor<2xi32>) -> tensor<2xi32> | V3 2:1
%r = linalg.matvec ins(%m, %u : tensor<2x3xi32>, tensor<3xi32>) outs(%v : tensor<2xi32>) -> tensor<3xi32> | V4 2:1";

const VECMAT: &str = "\
%r = linalg.vecmat ins(%u, %k : tensor<3xi32>, tensor<3x4xi32>) outs(%w : tensor<4xi32>) -> tensor<4xi32> | sound
%r = linalg.vecmat ins(%u, %y : tensor<3xi32>, tensor<3x4xi32>) outs(%w : tensor<4xi32>) -> tensor<4xi32> | V1 2:1
%w = linalg.vecmat ins(%u, %k : tensor<3xi32>, tensor<3x4xi32>) outs(%w : tensor<4xi32>) -> tensor<4xi32> | V2 2:1
%r = linalg.vecmat ins(%v, %k : tensor<2xi32>, tensor<3x4xi32>) outs(%w : tensor<4xi32>) -> tensor<4xi32> | V3 2:1
%r = linalg.vecmat ins(%u, %k : tensor<3xi32>, tensor<3x4xi32>) outs(%u : tensor<3xi32>) -> tensor<3xi32> | V3 2:1
%r = linalg.vecmat ins(%k, %u : tensor<3x4xi32>, tensor<3xi32>) outs(%w : tensor<4xi32>) -> tensor<4xi32> | V3 2:1
%r = linalg.vecmat ins(%u, %k : tensor<3xi32>, tensor<3x4xi32>) outs(%w : tensor<4xi32>) -> tensor<4xi8> | V4 2:1";

const DOT: &str = "\
%r = linalg.dot ins(%u, %u : tensor<3xi32>, tensor<3xi32>) outs(%z : tensor<i32>) -> tensor<i32> | sound
%r = linalg.dot ins(%u, %u : tensor<3xi32>, tensor<3xi32>) outs(%y : tensor<i32>) -> tensor<i32> | V1 2:1
%z = linalg.dot ins(%u, %u : tensor<3xi32>, tensor<3xi32>) outs(%z : tensor<i32>) -> tensor<i32> | V2 2:1
%r = linalg.dot ins(%u, %v : tensor<3xi32>, tensor<2xi32>) outs(%z : tensor<i32>) -> tensor<i32> | V3 2:1
%r = linalg.dot ins(%u, %u : tensor<3xi32>, tensor<3xi32>) outs(%u : tensor<3xi32>) -> tensor<3xi32> | V3 2:1
%r = linalg.dot ins(%u, %u : tensor<3xi32>, tensor<3xi32>) outs(%s : i32) -> i32 | V3 2:1
%r = linalg.dot ins(%u, %u : tensor<3xi32>, tensor<3xi32>) outs(%z : tensor<i32>) -> tensor<1xi32> | V4 2:1";

const BATCHES: &str = "\
%r = linalg.batch_matmul ins(%b, %c : tensor<5x2x3xi32>, tensor<5x3x4xi32>) outs(%o : tensor<5x2x4xi32>) -> tensor<5x2x4xi32> | sound
%r = linalg.batch_matmul ins(%b, %y : tensor<5x2x3xi32>, tensor<5x3x4xi32>) outs(%o : tensor<5x2x4xi32>) -> tensor<5x2x4xi32> | V1 2:1
%b = linalg.batch_matmul ins(%b, %c : tensor<5x2x3xi32>, tensor<5x3x4xi32>) outs(%o : tensor<5x2x4xi32>) -> tensor<5x2x4xi32> | V2 2:1
%r = linalg.batch_matmul ins(%b, %d : tensor<5x2x3xi32>, tensor<6x3x4xi32>) outs(%o : tensor<5x2x4xi32>) -> tensor<5x2x4xi32> | V3 2:1
%r = linalg.batch_matmul ins(%b, %b : tensor<5x2x3xi32>, tensor<5x2x3xi32>) outs(%o : tensor<5x2x4xi32>) -> tensor<5x2x4xi32> | V3 2:1
%r = linalg.batch_matmul ins(%b, %c : tensor<5x2x3xi32>, tensor<5x3x4xi32>) outs(%b : tensor<5x2x3xi32>) -> tensor<5x2x3xi32> | V3 2:1
%r = linalg.batch_matmul ins(%b, %c : tensor<5x2x3xi32>, tensor<5x3x4xi32>) outs(%o : tensor<5x2x4xi32>) -> tensor<5x4x2xi32> | V4 2:1";

const WINDOWS: &str = "\
%r = linalg.conv_1d ins(%v, %k : tensor<8xi32>, tensor<3xi32>) outs(%w : tensor<6xi32>) -> tensor<6xi32> | sound
%r = linalg.conv_1d ins(%v, %y : tensor<8xi32>, tensor<3xi32>) outs(%w : tensor<6xi32>) -> tensor<6xi32> | V1 2:1
%v = linalg.conv_1d ins(%v, %k : tensor<8xi32>, tensor<3xi32>) outs(%w : tensor<6xi32>) -> tensor<6xi32> | V2 2:1
%r = linalg.conv_1d ins(%w, %k : tensor<6xi32>, tensor<3xi32>) outs(%w : tensor<6xi32>) -> tensor<6xi32> | V3 2:1
%r = linalg.conv_1d ins(%v, %w : tensor<8xi32>, tensor<6xi32>) outs(%w : tensor<6xi32>) -> tensor<6xi32> | V3 2:1
%r = linalg.conv_1d ins(%v, %l : tensor<8xi32>, tensor<2x3xi32>) outs(%w : tensor<6xi32>) -> tensor<6xi32> | V3 2:1
%r = linalg.conv_1d ins(%v, %k : tensor<8xi32>, tensor<3xi32>) outs(%n : tensor<6xi8>) -> tensor<6xi8> | V3 2:1
%r = linalg.conv_1d ins(%v, %k : tensor<8xi32>, tensor<3xi32>) outs(%w : tensor<6xi32>) -> tensor<5xi32> | V4 2:1
%r = linalg.conv_2d ins(%m, %l : tensor<5x6xi32>, tensor<2x3xi32>) outs(%x : tensor<4x4xi32>) -> tensor<4x4xi32> | sound
%r = linalg.conv_2d ins(%y, %l : tensor<5x6xi32>, tensor<2x3xi32>) outs(%x : tensor<4x4xi32>) -> tensor<4x4xi32> | V1 2:1
%x = linalg.conv_2d ins(%m, %l : tensor<5x6xi32>, tensor<2x3xi32>) outs(%x : tensor<4x4xi32>) -> tensor<4x4xi32> | V2 2:1
%r = linalg.conv_2d ins(%x, %l : tensor<4x4xi32>, tensor<2x3xi32>) outs(%x : tensor<4x4xi32>) -> tensor<4x4xi32> | V3 2:1
%r = linalg.conv_2d ins(%m, %x : tensor<5x6xi32>, tensor<4x4xi32>) outs(%x : tensor<4x4xi32>) -> tensor<4x4xi32> | V3 2:1
%r = linalg.conv_2d ins(%m, %k : tensor<5x6xi32>, tensor<3xi32>) outs(%x : tensor<4x4xi32>) -> tensor<4x4xi32> | V3 2:1
%r = linalg.conv_2d ins(%m, %l : tensor<5x6xi32>, tensor<2x3xi32>) outs(%x : tensor<4x4xi32>) -> tensor<4x4xi8> | V4 2:1";

const TRANSPOSE: &str = "\
%r = linalg.transpose ins(%m : tensor<2x3xi32>) outs(%o : tensor<3x2xi32>) permutation = [1, 0] | V3 2:1
%e = tensor.empty() : tensor<3x2xi32> %r = linalg.transpose ins(%m : tensor<2x3xi32>) outs(%e : tensor<3x2xi32>) permutation = [1, 0] | sound
%r = linalg.transpose ins(%m : tensor<2x3xi32>) outs(%m : tensor<2x3xi32>) permutation = [0, 1] | sound
%r = linalg.transpose ins(%m : tensor<2x3xi32>) outs(%m : tensor<2x3xi32>) permutation = [1, 0] | V3 2:1
%r = linalg.transpose ins(%m : tensor<2x3xi32>) outs(%u : tensor<3xi32>) permutation = [0] | V3 2:1
%r = linalg.transpose ins(%n : tensor<3x4xi8>) outs(%k : tensor<3x4xi32>) permutation = [0, 1] | V3 2:1
%r = linalg.transpose ins(%m, %m : tensor<2x3xi32>, tensor<2x3xi32>) outs(%m : tensor<2x3xi32>) permutation = [0, 1] | V3 2:1
%r = linalg.transpose ins(%m : tensor<2x3xi32>) outs(%m : tensor<2x3xi32>) permutation = [1, 1] | V5 2:1
%r = linalg.transpose ins(%m : tensor<2x3xi32>) outs(%m : tensor<2x3xi32>) permutation = [0] | V5 2:1
%r = linalg.transpose ins(%m : tensor<2x3xi32>) outs(%m : tensor<2x3xi32>) permutation = [0, 2] | V5 2:1
%r = linalg.transpose ins(%m : tensor<2x3xi32>) outs(%m : tensor<2x3xi32>) permutation = [0, -1] | V5 2:1
%r = linalg.transpose ins(%y : tensor<2x3xi32>) outs(%m : tensor<2x3xi32>) permutation = [0, 1] | V1 2:1
%m = linalg.transpose ins(%m : tensor<2x3xi32>) outs(%m : tensor<2x3xi32>) permutation = [0, 1] | V2 2:1";

const BROADCAST: &str = "\
%r = linalg.broadcast ins(%u : tensor<3xi32>) outs(%m : tensor<2x3xi32>) dimensions = [0] | sound
%r = linalg.broadcast ins(%v : tensor<2xi32>) outs(%m : tensor<2x3xi32>) dimensions = [1] | sound
%r = linalg.broadcast ins(%z : tensor<i32>) outs(%m : tensor<2x3xi32>) dimensions = [1, 0] | sound
%r = linalg.broadcast ins(%y : tensor<3xi32>) outs(%m : tensor<2x3xi32>) dimensions = [0] | V1 2:1
%u = linalg.broadcast ins(%u : tensor<3xi32>) outs(%m : tensor<2x3xi32>) dimensions = [0] | V2 2:1
%r = linalg.broadcast ins(%u : tensor<3xi32>) outs(%m : tensor<2x3xi32>) dimensions = [1] | V3 2:1
%r = linalg.broadcast ins(%u : tensor<3xi32>) outs(%m : tensor<2x3xi32>) dimensions = [] | V3 2:1
%r = linalg.broadcast ins(%w : tensor<4xi32>) outs(%q : tensor<2x4xi8>) dimensions = [0] | V3 2:1
%r = linalg.broadcast ins(%s : i32) outs(%m : tensor<2x3xi32>) dimensions = [0, 1] | V3 2:1
%r = linalg.broadcast ins(%u : tensor<3xi32>) outs(%m : tensor<2x3xi32>) dimensions = [2] | V5 2:1
%r = linalg.broadcast ins(%u : tensor<3xi32>) outs(%m : tensor<2x3xi32>) dimensions = [-1] | V5 2:1
%r = linalg.broadcast ins(%z : tensor<i32>) outs(%m : tensor<2x3xi32>) dimensions = [1, 1] | V5 2:1";

const REDUCE: &str = "\
%r = linalg.reduce { arith.addi } ins(%m : tensor<2x3xi32>) outs(%v : tensor<2xi32>) dimensions = [1] | sound
%r = linalg.reduce { arith.addi } ins(%m : tensor<2x3xi32>) outs(%z : tensor<i32>) dimensions = [1, 0] | sound
%r = linalg.reduce { arith.addi } ins(%y : tensor<2x3xi32>) outs(%v : tensor<2xi32>) dimensions = [1] | V1 2:1
%v = linalg.reduce { arith.addi } ins(%m : tensor<2x3xi32>) outs(%v : tensor<2xi32>) dimensions = [1] | V2 2:1
%r = linalg.reduce { arith.addi } ins(%m : tensor<2x3xi32>) outs(%v : tensor<2xi32>) dimensions = [0] | V3 2:1
%r = linalg.reduce { arith.addi } ins(%m : tensor<2x3xi32>) outs(%z : tensor<i32>) dimensions = [0] | V3 2:1
%r = linalg.reduce { arith.addi } ins(%m, %m : tensor<2x3xi32>, tensor<2x3xi32>) outs(%v : tensor<2xi32>) dimensions = [1] | V3 2:1
%r = linalg.reduce { arith.addi } ins(%m : tensor<2x3xi32>) outs(%v : tensor<2xi32>) dimensions = [2] | V5 2:1
%r = linalg.reduce { arith.addi } ins(%m : tensor<2x3xi32>) outs(%v : tensor<2xi32>) dimensions = [-1] | V5 2:1
%r = linalg.reduce { arith.addi } ins(%m : tensor<2x3xi32>) outs(%z : tensor<i32>) dimensions = [1, 1] | V5 2:1
%r = linalg.reduce { arith.addi } ins(%n : tensor<3x4xi8>) outs(%u : tensor<3xi32>) dimensions = [1] | V9 2:1";

/// A reduction of a matrix of `i8`, up to its region.
const REDUCE_HEAD: &str =
    "module { func.func @f(%m: tensor<3x4xi8>, %v: tensor<3xi32>, %u: tensor<3xi8>) { \
%s = arith.constant 1 : i32
%r = linalg.reduce ins(%m : tensor<3x4xi8>) outs(%v : tensor<3xi32>) dimensions = [1]";

const REGION: &str = "\
(%e: i8, %o: i32) { %w = arith.extsi %e : i8 to i32 %x = arith.addi %o, %w : i32 linalg.yield %x : i32 } | sound
(%e: i8, %o: i32) { linalg.yield %o : i32 } | sound
(%e: i8, %o: i32) { linalg.yield %s : i32 } | sound
(%e: i8, %o: i32) { linalg.yield %y : i32 } | V1 3:21
(%e: i8, %o: i32) { %x = arith.addi %o, %y : i32 linalg.yield %x : i32 } | V1 3:21
(%e: i8, %o: i32) { %o = arith.addi %s, %s : i32 linalg.yield %o : i32 } | V2 3:21
(%e: i8, %e: i32) { linalg.yield %s : i32 } | V2 2:1
(%e: i8, %o: i32) { %s = arith.addi %o, %s : i32 linalg.yield %s : i32 } | sound
(%e: i8, %o: i32) { %x = arith.constant 300 : i8 linalg.yield %o : i32 } | V5 3:21
(%e: i8, %o: i32) { linalg.yield %e : i8 } | V9 2:1
(%e: i8, %o: i32) { linalg.yield %e : i32 } | V9 2:1
(%e: i8, %o: i32) { linalg.yield %v : i32 } | V9 2:1
(%e: i32, %o: i32) { linalg.yield %o : i32 } | V9 2:1
(%e: i8) { linalg.yield %s : i32 } | V9 2:1
(%e: i8, %o: i32, %x: i32) { linalg.yield %o : i32 } | V9 2:1
(%e: i8, %o: i32) { %x = arith.addi %o, %e : i32 linalg.yield %x : i32 } | V9 2:1
(%e: i8, %o: i32) { %x = arith.addi %v, %v : tensor<3xi32> linalg.yield %o : i32 } | V9 2:1
(%e: i8, %o: i32) { %x = arith.extsi %o : i32 to i8 linalg.yield %o : i32 } | V9 2:1
(%e: i8, %o: i32) { %x = arith.select %e, %o, %o : i8, i32 linalg.yield %x : i32 } | V9 2:1
(%e: i8, %o: i32) { %c = arith.cmpi eq, %e, %e : i8 %x = arith.select %c, %o, %s : i32 linalg.yield %x : i32 } | sound";

#[test]
fn fills(rt: HostRuntime) -> Result<(), Fail> {
    assert_rows(&rt, rt.alloc(), HEAD, FILL, END)
}

#[test]
fn products(rt: HostRuntime) -> Result<(), Fail> {
    assert_rows(&rt, rt.alloc(), HEAD, MATMUL, END)?;
    assert_rows(&rt, rt.alloc(), HEAD, MATVEC, END)?;
    assert_rows(&rt, rt.alloc(), HEAD, VECMAT, END)?;
    assert_rows(&rt, rt.alloc(), HEAD, DOT, END)?;
    assert_rows(&rt, rt.alloc(), HEAD_OF_BATCHES, BATCHES, END)
}

#[test]
fn windows(rt: HostRuntime) -> Result<(), Fail> {
    assert_rows(&rt, rt.alloc(), HEAD_OF_BATCHES, WINDOWS, END)
}

#[test]
fn rearranged_tensors(rt: HostRuntime) -> Result<(), Fail> {
    assert_rows(&rt, rt.alloc(), HEAD, TRANSPOSE, END)?;
    assert_rows(&rt, rt.alloc(), HEAD, BROADCAST, END)
}

#[test]
fn reductions(rt: HostRuntime) -> Result<(), Fail> {
    assert_rows(&rt, rt.alloc(), HEAD, REDUCE, END)?;
    assert_rows(&rt, rt.alloc(), REDUCE_HEAD, REGION, END)
}
