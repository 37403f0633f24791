use crate::rows::{END, assert_rows};
use std::test::Fail;

const GENERIC: &str = "\
%r = linalg.generic {indexing_maps = [#i, #i], iterator_types = [\"parallel\"]} ins(%a : tensor<4xi8>) outs(%a : tensor<4xi8>) {^z(%x: i8, %o: i8): linalg.yield %x : i8} -> tensor<4xi8> | sound
%r = linalg.generic {indexing_maps = [#i], iterator_types = [\"parallel\"]} outs(%a : tensor<4xi8>) {^z(%o: i8): linalg.yield %o : i8} -> tensor<4xi8> | sound
%r = linalg.generic {indexing_maps = [#i, #i], iterator_types = [\"parallel\"]} ins(%y : tensor<4xi8>) outs(%a : tensor<4xi8>) {^z(%x: i8, %o: i8): linalg.yield %x : i8} -> tensor<4xi8> | V1 2:1
%r = linalg.generic {indexing_maps = [#i], iterator_types = [\"parallel\"]} outs(%y : tensor<4xi8>) {^z(%o: i8): linalg.yield %o : i8} -> tensor<4xi8> | V1 2:1
%a = linalg.generic {indexing_maps = [#i], iterator_types = [\"parallel\"]} outs(%a : tensor<4xi8>) {^z(%o: i8): linalg.yield %o : i8} -> tensor<4xi8> | V2 2:1
%r = linalg.generic {indexing_maps = [#i], iterator_types = [\"parallel\"]} outs(%a : tensor<5xi8>) {^z(%o: i8): linalg.yield %o : i8} -> tensor<5xi8> | V3 2:1
%r = linalg.generic {indexing_maps = [#i, #i], iterator_types = [\"parallel\"]} ins(%a : ) outs(%a : tensor<4xi8>) {^z(%x: i8, %o: i8): linalg.yield %x : i8} -> tensor<4xi8> | V3 2:1
%r = linalg.generic {indexing_maps = [#e, #i], iterator_types = [\"parallel\"]} ins(%s : i8) outs(%a : tensor<4xi8>) {^z(%x: i8, %o: i8): linalg.yield %x : i8} -> tensor<4xi8> | V3 2:1
%r = linalg.generic {indexing_maps = [#i], iterator_types = [\"parallel\"]} outs(%a : tensor<4xi8>) {^z(%o: i8): linalg.yield %o : i8} -> tensor<5xi8> | V4 2:1
%r = linalg.generic {indexing_maps = [#i], iterator_types = [\"parallel\"]} outs(%a : tensor<4xi8>) {^z(%o: i8): linalg.yield %o : i8} -> tensor<4xi16> | V4 2:1
%r = linalg.generic {indexing_maps = [#i], iterator_types = [\"parallel\"]} outs(%a : tensor<4xi8>) {^z(%o: i8): linalg.yield %o : i8} -> tensor<?xi8> | V10 2:1
%r = linalg.generic {indexing_maps = [], iterator_types = [\"parallel\"]} outs( : ) {^z(): linalg.yield %s : i8} -> tensor<4xi8> | V8 2:1
%r = linalg.generic {indexing_maps = [#i, #i], iterator_types = [\"parallel\"]} outs(%a, %a : tensor<4xi8>, tensor<4xi8>) {^z(%o: i8, %p: i8): linalg.yield %o : i8} -> tensor<4xi8> | V8 2:1";

const HEAD: &str = "#i = affine_map<(d) -> (d)> #e = affine_map<(d) -> ()> \
module { func.func @f(%a: tensor<4xi8>, %m: tensor<4x6xi8>) { %s = arith.constant 1 : i8";

/// A generic of a matrix and a vector, up to its maps.
const MAPS_HEAD: &str = "#i = affine_map<(d, e) -> (d, e)> #t = affine_map<(d, e) -> (e, d)> \
#d = affine_map<(d, e) -> (d)> #e = affine_map<(d, e) -> (e)> #n = affine_map<(d, e) -> ()> \
module { func.func @f(%m: tensor<4x6xi8>, %v: tensor<4xi8>) {
%r = linalg.generic {indexing_maps = [";

const MAPS_TAIL: &str = "]} ins(%m : tensor<4x6xi8>) outs(%v : tensor<4xi8>) \
{^z(%x: i8, %o: i8): linalg.yield %x : i8} -> tensor<4xi8> return } }";

/// Maps and iterators.
const MAPS: &str = "\
#i, #d], iterator_types = [\"parallel\", \"reduction\" | sound
#t, #e], iterator_types = [\"reduction\", \"parallel\" | sound
affine_map<(x, y) -> (x, y)>, #d], iterator_types = [\"parallel\", \"reduction\" | sound
#i, #e], iterator_types = [\"reduction\", \"parallel\" | V8 2:1
#i, #d], iterator_types = [\"reduction\", \"parallel\" | V8 2:1
#i, #d], iterator_types = [\"parallel\", \"parallel\" | V8 2:1
#i, #d], iterator_types = [\"reduction\", \"reduction\" | V8 2:1
#i, #d], iterator_types = [\"parallel\", \"window\" | V8 2:1
#i, #d], iterator_types = [\"parallel\" | V8 2:1
#i, #d], iterator_types = [\"parallel\", \"reduction\", \"reduction\" | V8 2:1
#i], iterator_types = [\"parallel\", \"reduction\" | V8 2:1
#i, #d, #d], iterator_types = [\"parallel\", \"reduction\" | V8 2:1
#d, #d], iterator_types = [\"parallel\", \"reduction\" | V8 2:1
#i, #n], iterator_types = [\"reduction\", \"reduction\" | V8 2:1
affine_map<(d, e) -> (d, d)>, #d], iterator_types = [\"parallel\", \"reduction\" | V8 2:1
affine_map<(d, d) -> (d, d)>, #d], iterator_types = [\"parallel\", \"reduction\" | V8 2:1
affine_map<(d, e) -> (d, z)>, #d], iterator_types = [\"parallel\", \"reduction\" | V8 2:1
affine_map<(d) -> (d, d)>, #d], iterator_types = [\"parallel\", \"reduction\" | V8 2:1
affine_map<(d, e, z) -> (d, e)>, #d], iterator_types = [\"parallel\", \"reduction\" | V8 2:1
affine_map<(d, e, z) -> (d, e)>, affine_map<(d, e, z) -> (d)>], \
iterator_types = [\"parallel\", \"reduction\", \"reduction\" | V8 2:1";

/// A generic of a vector, up to its region.
const REGION_HEAD: &str = "#i = affine_map<(d) -> (d)> module { \
func.func @f(%a: tensor<4xi8>, %o: tensor<4xi32>) { %s = arith.constant 1 : i32 %t = arith.constant dense<1> : tensor<i32>
%r = linalg.generic {indexing_maps = [#i, #i], iterator_types = [\"parallel\"]} \
ins(%a : tensor<4xi8>) outs(%o : tensor<4xi32>) {^z(";

const REGION_TAIL: &str = "} -> tensor<4xi32> return } }";

const REGION: &str = "\
%x: i8, %y: i32): linalg.yield %y : i32 | sound
%x: i8, %y: i32): linalg.yield %s : i32 | sound
%x: i8, %y: i32): %z = arith.addi %y, %s : i32 linalg.yield %z : i32 | sound
%x: i8, %y: i32): %z = linalg.index 0 : index %w = arith.index_cast %z : index to i32 linalg.yield %w : i32 | sound
%x: i8, %y: i32): %z = linalg.index 0 : index linalg.yield %y : i32 | sound
%x: i8, %x: i32): linalg.yield %s : i32 | V2 2:1
%x: i8, %y: i32): linalg.yield %z : i32 | V1 3:19
%x: i8, %y: i32): %z = arith.addi %z, %y : i32 linalg.yield %z : i32 | V1 3:19
%x: i8, %y: i32): %w = arith.index_cast %z : index to i32 linalg.yield %w : i32 | V1 3:19
%x: i8, %y: i32): %x = arith.constant 1 : i32 linalg.yield %y : i32 | V2 3:19
%x: i8, %y: i32): %z = arith.constant 1 : i32 %z = arith.constant 1 : i32 linalg.yield %y : i32 | V2 3:47
%x: i8, %y: i32): %z = arith.constant 256 : i8 linalg.yield %y : i32 | V5 3:19
%x: i8, %y: i32): %z = linalg.index 1 : index linalg.yield %y : i32 | V5 3:19
%x: i8, %y: i32): %z = arith.constant dense<1> : tensor<1x1x1x1x1x1x1xi8> linalg.yield %y : i32 | L2 3:19
%x: i8, %y: i32): %z = arith.constant dense<1> : tensor<1048577xi8> linalg.yield %y : i32 | L4 3:19
%x: i8, %y: i32): linalg.yield %x : i8 | V9 2:1
%x: i8, %y: i32): linalg.yield %x : i32 | V9 2:1
%x: i8, %y: i32): linalg.yield %t : i32 | V9 2:1
%x: i8, %y: i32): linalg.yield %o : i32 | V9 2:1
%x: i8, %y: i8): linalg.yield %s : i32 | V9 2:1
%x: i32, %y: i32): linalg.yield %y : i32 | V9 2:1
%x: i8): linalg.yield %s : i32 | V9 2:1
%x: i8, %y: i32, %z: i32): linalg.yield %y : i32 | V9 2:1
%x: i8, %y: i32): %z = arith.addi %x, %y : i32 linalg.yield %z : i32 | V9 2:1
%x: i8, %y: i32): %z = arith.constant dense<1> : tensor<1xi8> linalg.yield %y : i32 | V9 2:1
%x: i8, %y: i32): %z = arith.trunci %x : i8 to i32 linalg.yield %y : i32 | V9 2:1
%x: i8, %y: i32): %z = linalg.index 0 : index linalg.yield %z : i32 | V9 2:1
%x: i8, %y: i32): %z = linalg.index 0 : index %w = arith.addi %z, %z : i32 linalg.yield %w : i32 | V9 2:1
%x: i8, %y: i32): %w = arith.index_cast %y : index to i32 linalg.yield %w : i32 | V9 2:1
%x: i8, %y: i32): %z = linalg.index 0 : index %w = arith.index_cast %z : index to i8 linalg.yield %w : i32 | V9 2:1";

#[test]
fn generics(rt: HostRuntime) -> Result<(), Fail> {
    assert_rows(&rt, rt.alloc(), HEAD, GENERIC, END)
}

#[test]
fn maps_and_iterators(rt: HostRuntime) -> Result<(), Fail> {
    assert_rows(&rt, rt.alloc(), MAPS_HEAD, MAPS, MAPS_TAIL)
}

#[test]
fn regions(rt: HostRuntime) -> Result<(), Fail> {
    assert_rows(&rt, rt.alloc(), REGION_HEAD, REGION, REGION_TAIL)
}
