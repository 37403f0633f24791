use crate::texts::assert_rows;
use std::test::Fail;

/// Operations 0 to 9: a number, vectors, matrices and windows.
const HEAD: &str = "\
%s = arith.constant 2 : i32 \
%v = arith.constant dense<[1, 2, 3, 4]> : tensor<4xi32> \
%w = arith.constant dense<[5, 6, 7, 8]> : tensor<4xi32> \
%u = arith.constant dense<[1, 2, 3]> : tensor<3xi32> \
%i = arith.constant dense<[100, 200]> : tensor<2xi32> \
%m = arith.constant dense<[[1, 2, 3], [4, 5, 6]]> : tensor<2x3xi32> \
%k = arith.constant dense<[[1, 2], [3, 4], [5, 6]]> : tensor<3x2xi32> \
%o = arith.constant dense<[[10, 20], [30, 40]]> : tensor<2x2xi32> \
%z = arith.constant dense<1> : tensor<i32> \
%e = tensor.empty() : tensor<4xi32>";

const STRUCTURED: &str = "\
tensor<2xi32> | %r = linalg.fill ins(%s : i32) outs(%i : tensor<2xi32>) -> tensor<2xi32> | 2 2 .
tensor<2x2xi32> | %r = linalg.matmul ins(%m, %k : tensor<2x3xi32>, tensor<3x2xi32>) outs(%o : tensor<2x2xi32>) -> tensor<2x2xi32> | 32 48 79 104 .
tensor<2xi32> | %r = linalg.matvec ins(%m, %u : tensor<2x3xi32>, tensor<3xi32>) outs(%i : tensor<2xi32>) -> tensor<2xi32> | 114 232 .
tensor<2xi32> | %r = linalg.vecmat ins(%u, %k : tensor<3xi32>, tensor<3x2xi32>) outs(%i : tensor<2xi32>) -> tensor<2xi32> | 122 228 .
tensor<i32> | %r = linalg.dot ins(%v, %w : tensor<4xi32>, tensor<4xi32>) outs(%z : tensor<i32>) -> tensor<i32> | 71 .
tensor<i32> | %a = tensor.empty() : tensor<0xi32> %r = linalg.dot ins(%a, %a : tensor<0xi32>, tensor<0xi32>) outs(%z : tensor<i32>) -> tensor<i32> | 1 .
tensor<3xi32> | %r = linalg.conv_1d ins(%v, %i : tensor<4xi32>, tensor<2xi32>) outs(%u : tensor<3xi32>) -> tensor<3xi32> | 501 802 1103 .
tensor<1x2xi32> | %b = arith.constant dense<[[1, 10], [100, 1000]]> : tensor<2x2xi32> %c = arith.constant dense<0> : tensor<1x2xi32> %r = linalg.conv_2d ins(%m, %b : tensor<2x3xi32>, tensor<2x2xi32>) outs(%c : tensor<1x2xi32>) -> tensor<1x2xi32> | 5421 6532 .
tensor<3x2xi32> | %r = linalg.transpose ins(%m : tensor<2x3xi32>) outs(%k : tensor<3x2xi32>) permutation = [1, 0] | 1 4 2 5 3 6 .
tensor<2x3xi32> | %r = linalg.broadcast ins(%u : tensor<3xi32>) outs(%m : tensor<2x3xi32>) dimensions = [0] | 1 2 3 1 2 3 .
tensor<2x3xi32> | %r = linalg.broadcast ins(%i : tensor<2xi32>) outs(%m : tensor<2x3xi32>) dimensions = [1] | 100 100 100 200 200 200 .
tensor<2xi32> | %r = linalg.reduce { arith.addi } ins(%m : tensor<2x3xi32>) outs(%i : tensor<2xi32>) dimensions = [1] | 106 215 .
tensor<i32> | %r = linalg.reduce { arith.addi } ins(%m : tensor<2x3xi32>) outs(%z : tensor<i32>) dimensions = [1, 0] | 22 .
tensor<2x2xi32> | %a = tensor.empty() : tensor<2x2xi32> %r = linalg.matmul ins(%m, %k : tensor<2x3xi32>, tensor<3x2xi32>) outs(%a : tensor<2x2xi32>) -> tensor<2x2xi32> | ? ? ? ? .";

const ELEMENTS: &str = "\
tensor<4xi32> | %r = arith.addi %v, %w : tensor<4xi32> | 6 8 10 12 .
tensor<4xi32> | %r = arith.subi %v, %w : tensor<4xi32> | 4294967292 4294967292 4294967292 4294967292 .
tensor<4xi32> | %r = arith.muli %v, %w : tensor<4xi32> | 5 12 21 32 .
tensor<4xi32> | %r = arith.divui %w, %v : tensor<4xi32> | 5 3 2 2 .
tensor<4xi32> | %r = arith.remui %w, %v : tensor<4xi32> | 0 0 1 0 .
tensor<4xi32> | %r = arith.andi %v, %w : tensor<4xi32> | 1 2 3 0 .
tensor<4xi32> | %r = arith.xori %v, %w : tensor<4xi32> | 4 4 4 12 .
tensor<4xi32> | %r = arith.addi %e, %v : tensor<4xi32> | ? ? ? ? .
tensor<4xi32> | %a = arith.constant dense<0> : tensor<4xi32> %r = arith.divui %v, %a : tensor<4xi32> | stuck 11
tensor<4xi1> | %r = arith.cmpi ult, %v, %w : tensor<4xi32> | 1 1 1 1 .
tensor<4xi32> | %p = arith.constant dense<[true, false, true, false]> : tensor<4xi1> %r = arith.select %p, %v, %w : tensor<4xi1>, tensor<4xi32> | 1 6 3 8 .
tensor<2xi8> | %a = arith.constant dense<[299, 200]> : tensor<2xi32> %r = arith.trunci %a : tensor<2xi32> to tensor<2xi8> | 43 200 .
tensor<2xi32> | %a = arith.constant dense<[43, 200]> : tensor<2xi8> %r = arith.extsi %a : tensor<2xi8> to tensor<2xi32> | 43 4294967240 .
tensor<2xi32> | %a = arith.constant dense<[43, 200]> : tensor<2xi8> %r = arith.extui %a : tensor<2xi8> to tensor<2xi32> | 43 200 .";

const LAYOUTS: &str = "\
tensor<4xi32> | %r = tensor.empty() : tensor<4xi32> | ? ? ? ? .
tensor<2xi32> | %r = tensor.extract_slice %w [1] [2] [2] : tensor<4xi32> to tensor<2xi32> | 6 8 .
tensor<4xi32> | %r = tensor.insert_slice %i into %v [1] [2] [2] : tensor<2xi32> into tensor<4xi32> | 1 100 3 200 .
tensor<6xi32> | %r = tensor.collapse_shape %m [[0, 1]] : tensor<2x3xi32> into tensor<6xi32> | 1 2 3 4 5 6 .
tensor<2x2xi32> | %r = tensor.expand_shape %v [[0, 1]] output_shape [2, 2] : tensor<4xi32> into tensor<2x2xi32> | 1 2 3 4 .
tensor<1x1xi32> | %r = tensor.expand_shape %z [] output_shape [1, 1] : tensor<i32> into tensor<1x1xi32> | 1 .
tensor<2xi32> | %r = arith.constant dense<7> : tensor<2xi32> | 7 7 .
tensor<2xi8> | %r = arith.constant dense<[-1, 0]> : tensor<2xi8> | 255 0 .";

const WORK: &str = "\
tensor<512x512xi32> | %a = tensor.empty() : tensor<512x512xi32> %r = linalg.matmul ins(%a, %a : tensor<512x512xi32>, tensor<512x512xi32>) outs(%a : tensor<512x512xi32>) -> tensor<512x512xi32> | too much 11";

const GENERICS: &str = "\
tensor<4xi32> | %r = linalg.generic { indexing_maps = [affine_map<(d0) -> (d0)>, affine_map<(d0) -> (d0)>, affine_map<(d0) -> (d0)>], iterator_types = [\"parallel\"] } ins(%v, %w : tensor<4xi32>, tensor<4xi32>) outs(%e : tensor<4xi32>) { ^bb0(%a : i32, %b : i32, %c : i32) : %p = arith.muli %a, %b : i32 %q = arith.addi %p, %s : i32 linalg.yield %q : i32 } -> tensor<4xi32> | 7 14 23 34 .
tensor<2xi32> | %r = linalg.generic { indexing_maps = [affine_map<(d0, d1, d2) -> (d0, d1)>, affine_map<(d0, d1, d2) -> (d1, d2)>, affine_map<(d0, d1, d2) -> (d0)>], iterator_types = [\"parallel\", \"reduction\", \"reduction\"] } ins(%m, %k : tensor<2x3xi32>, tensor<3x2xi32>) outs(%i : tensor<2xi32>) { ^bb0(%a : i32, %b : i32, %c : i32) : %p = arith.muli %a, %b : i32 %q = arith.addi %c, %p : i32 linalg.yield %q : i32 } -> tensor<2xi32> | 150 313 .
tensor<2x3xi32> | %a = tensor.empty() : tensor<2x3xi32> %r = linalg.generic { indexing_maps = [affine_map<(d0, d1) -> (d0, d1)>], iterator_types = [\"parallel\", \"parallel\"] } outs(%a : tensor<2x3xi32>) { ^bb0(%x : i32) : %p = linalg.index 0 : index %q = arith.index_cast %p : index to i32 %b = linalg.index 1 : index %c = arith.index_cast %b : index to i32 %d = arith.muli %q, %s : i32 %f = arith.addi %d, %c : i32 linalg.yield %f : i32 } -> tensor<2x3xi32> | 0 1 2 2 3 4 .
tensor<i32> | %r = linalg.generic { indexing_maps = [affine_map<(d0) -> (d0)>, affine_map<(d0) -> ()>], iterator_types = [\"reduction\"] } ins(%v : tensor<4xi32>) outs(%z : tensor<i32>) { ^bb0(%a : i32, %b : i32) : %p = arith.subi %a, %b : i32 linalg.yield %p : i32 } -> tensor<i32> | 3 .
tensor<i32> | %n = arith.constant dense<[0, 1]> : tensor<2xi32> %r = linalg.generic { indexing_maps = [affine_map<(d0) -> (d0)>, affine_map<(d0) -> ()>], iterator_types = [\"reduction\"] } ins(%n : tensor<2xi32>) outs(%z : tensor<i32>) { ^bb0(%a : i32, %b : i32) : %p = arith.divui %b, %a : i32 linalg.yield %a : i32 } -> tensor<i32> | stuck 11";

const REDUCES: &str = "\
tensor<i32> | %r = linalg.reduce { arith.muli } ins(%v : tensor<4xi32>) outs(%z : tensor<i32>) dimensions = [0] | 24 .
tensor<i32> | %r = linalg.reduce { arith.xori } ins(%v : tensor<4xi32>) outs(%z : tensor<i32>) dimensions = [0] | 5 .
tensor<i32> | %r = linalg.reduce { arith.maxui } ins(%v : tensor<4xi32>) outs(%z : tensor<i32>) dimensions = [0] | 4 .
tensor<i32> | %r = linalg.reduce { arith.minui } ins(%v : tensor<4xi32>) outs(%z : tensor<i32>) dimensions = [0] | 1 .
tensor<i32> | %r = linalg.reduce { arith.addi } ins(%e : tensor<4xi32>) outs(%z : tensor<i32>) dimensions = [0] | ? .
tensor<2xi32> | %a = tensor.empty() : tensor<2x0xi32> %r = linalg.reduce { arith.addi } ins(%a : tensor<2x0xi32>) outs(%i : tensor<2xi32>) dimensions = [1] | 100 200 .
tensor<1x2x2xi32> | %a = arith.constant dense<[[[1, 2], [3, 4]]]> : tensor<1x2x2xi32> %b = arith.constant dense<[[[5, 6], [7, 8]]]> : tensor<1x2x2xi32> %c = arith.constant dense<0> : tensor<1x2x2xi32> %r = linalg.batch_matmul ins(%a, %b : tensor<1x2x2xi32>, tensor<1x2x2xi32>) outs(%c : tensor<1x2x2xi32>) -> tensor<1x2x2xi32> | 19 22 43 50 .";

#[test]
fn structured_operations(rt: HostRuntime) -> Result<(), Fail> {
    assert_rows(&rt, rt.alloc(), HEAD, STRUCTURED)
}

#[test]
fn element_operations(rt: HostRuntime) -> Result<(), Fail> {
    assert_rows(&rt, rt.alloc(), HEAD, ELEMENTS)
}

#[test]
fn layouts_and_creators(rt: HostRuntime) -> Result<(), Fail> {
    assert_rows(&rt, rt.alloc(), HEAD, LAYOUTS)
}

#[test]
fn the_work_is_asked_first(rt: HostRuntime) -> Result<(), Fail> {
    assert_rows(&rt, rt.alloc(), HEAD, WORK)
}

#[test]
fn generics(rt: HostRuntime) -> Result<(), Fail> {
    assert_rows(&rt, rt.alloc(), HEAD, GENERICS)
}

#[test]
fn reduces(rt: HostRuntime) -> Result<(), Fail> {
    assert_rows(&rt, rt.alloc(), HEAD, REDUCES)
}
