use crate::rows::{END, assert_each, assert_rows};
use std::test::Fail;

const HEAD: &str = "module { func.func @f(%a: tensor<4xi32>, %b: tensor<4xi32>, %c: tensor<3xi32>, \
%n: tensor<4xi8>, %p: tensor<4xi1>, %q: tensor<3xi1>) { \
%s = arith.constant 1 : i32 %t = arith.constant true";

const CONSTANTS: &str = "\
%r = arith.constant 255 : i8 | sound
%r = arith.constant 256 : i8 | V5 2:1
%r = arith.constant -128 : i8 | sound
%r = arith.constant -129 : i8 | V5 2:1
%r = arith.constant -1 : i1 | sound
%r = arith.constant -2 : i1 | V5 2:1
%r = arith.constant 2 : i1 | V5 2:1
%r = arith.constant false | sound
%r = arith.constant 65536 : i16 | V5 2:1
%r = arith.constant 4294967296 : i32 | V5 2:1
%r = arith.constant 18446744073709551615 : i64 | sound
%r = arith.constant -9223372036854775808 : i64 | sound
%r = arith.constant -9223372036854775809 : i64 | V5 2:1
%r = arith.constant dense<7> : tensor<4xi32> | sound
%r = arith.constant dense<7> : i32 | V5 2:1
%r = arith.constant dense<256> : tensor<4xi8> | V5 2:1
%r = arith.constant dense<256> : tensor<0xi8> | V5 2:1
%r = arith.constant dense<true> : tensor<4xi1> | sound
%r = arith.constant dense<true> : tensor<4xi8> | V5 2:1
%r = arith.constant dense<[1, 2, 3]> : tensor<3xi8> | sound
%r = arith.constant dense<[1, 2]> : tensor<3xi8> | V5 2:1
%r = arith.constant dense<[1, 2, 256]> : tensor<3xi8> | V5 2:1
%r = arith.constant dense<[[1, 2], [3, 4]]> : tensor<2x2xi8> | sound
%r = arith.constant dense<[1, 2, 3, 4]> : tensor<2x2xi8> | V5 2:1
%r = arith.constant dense<[[1, 2], [3]]> : tensor<2x2xi8> | V5 2:1
%r = arith.constant dense<> : tensor<0xi8> | sound
%r = arith.constant dense<> : tensor<1xi8> | V5 2:1
%r = arith.constant dense<\"0x0102\"> : tensor<2xi8> | sound
%r = arith.constant dense<\"0x01\"> : tensor<2xi8> | sound
%r = arith.constant dense<\"0x010203\"> : tensor<2xi8> | V5 2:1
%r = arith.constant dense<\"0102\"> : tensor<2xi8> | V5 2:1
%r = arith.constant dense<\"0x0g\"> : tensor<1xi8> | V5 2:1
%r = arith.constant dense<\"0x01\"> : tensor<1xi1> | V5 2:1
%a = arith.constant 1 : i8 | V2 2:1
%r = arith.constant dense<1> : tensor<?xi8> | V10 2:1
%r = arith.constant dense<1> : tensor<1x1x1x1x1x1xi8> | sound
%r = arith.constant dense<1> : tensor<1x1x1x1x1x1x1xi8> | L2 2:1
%r = arith.constant dense<1> : tensor<1048577xi8> | L4 2:1";

const BINARIES: &str = "\
arith.addi arith.subi arith.muli arith.divui arith.remui arith.divsi arith.remsi arith.andi \
arith.ori arith.xori arith.maxsi arith.minsi arith.maxui arith.minui arith.shli arith.shrui \
arith.shrsi";

const BINARY: &str = "\
%r = NAME %a, %b : tensor<4xi32> | sound
%r = NAME %p, %p : tensor<4xi1> | sound
%r = NAME %x, %b : tensor<4xi32> | V1 2:1
%r = NAME %a, %r : tensor<4xi32> | V1 2:1
%b = NAME %a, %b : tensor<4xi32> | V2 2:1
%r = NAME %c, %b : tensor<4xi32> | V3 2:1
%r = NAME %a, %c : tensor<4xi32> | V3 2:1
%r = NAME %a, %b : tensor<4xi8> | V3 2:1
%r = NAME %a, %b : tensor<4x1xi32> | V3 2:1
%r = NAME %s, %s : i32 | V3 2:1
%r = NAME %a, %b : tensor<?xi32> | V3 2:1";

const PREDICATES: &str = "eq ne slt sle sgt sge ult ule ugt uge";

const COMPARISON: &str = "\
%r = arith.cmpi NAME, %a, %b : tensor<4xi32> | sound
%r = arith.cmpi NAME, %x, %b : tensor<4xi32> | V1 2:1
%a = arith.cmpi NAME, %a, %b : tensor<4xi32> | V2 2:1
%r = arith.cmpi NAME, %c, %b : tensor<4xi32> | V3 2:1
%r = arith.cmpi NAME, %a, %c : tensor<4xi32> | V3 2:1
%r = arith.cmpi NAME, %a, %b : tensor<4xi1> | V3 2:1
%r = arith.cmpi NAME, %s, %s : i32 | V3 2:1";

/// What a comparison gives is an `i1`.
const COMPARED: &str = "\
%r = arith.cmpi eq, %a, %b : tensor<4xi32> %z = arith.andi %r, %p : tensor<4xi1> | sound
%r = arith.cmpi eq, %a, %b : tensor<4xi32> %z = arith.andi %r, %a : tensor<4xi32> | V3 2:44";

const SELECTS: &str = "\
%r = arith.select %p, %a, %b : tensor<4xi1>, tensor<4xi32> | sound
%r = arith.select %x, %a, %b : tensor<4xi1>, tensor<4xi32> | V1 2:1
%r = arith.select %p, %a, %x : tensor<4xi1>, tensor<4xi32> | V1 2:1
%p = arith.select %p, %a, %b : tensor<4xi1>, tensor<4xi32> | V2 2:1
%r = arith.select %p, %c, %b : tensor<4xi1>, tensor<4xi32> | V3 2:1
%r = arith.select %p, %a, %c : tensor<4xi1>, tensor<4xi32> | V3 2:1
%r = arith.select %q, %a, %b : tensor<3xi1>, tensor<4xi32> | V3 2:1
%r = arith.select %n, %a, %b : tensor<4xi8>, tensor<4xi32> | V3 2:1
%r = arith.select %t, %a, %b : tensor<4xi32> | V3 2:1
%r = arith.select %p, %a, %b : tensor<4xi32> | V3 2:1";

const WIDENED: &str = "\
%r = NAME %n : tensor<4xi8> to tensor<4xi32> | sound
%r = NAME %x : tensor<4xi8> to tensor<4xi32> | V1 2:1
%n = NAME %n : tensor<4xi8> to tensor<4xi32> | V2 2:1
%r = NAME %n : tensor<3xi8> to tensor<3xi32> | V3 2:1
%r = NAME %s : i32 to i64 | V3 2:1
%r = NAME %n : tensor<4xi8> to i32 | V3 2:1
%r = NAME %n : tensor<4xi8> to tensor<4xi8> | V4 2:1
%r = NAME %n : tensor<4xi8> to tensor<4xi1> | V4 2:1
%r = NAME %n : tensor<4xi8> to tensor<3xi32> | V4 2:1
%r = NAME %n : tensor<4xi8> to tensor<4x1xi32> | V4 2:1
%r = NAME %n : tensor<4xi8> to tensor<?xi32> | V10 2:1";

const NARROWED: &str = "\
%r = arith.trunci %a : tensor<4xi32> to tensor<4xi8> | sound
%r = arith.trunci %x : tensor<4xi32> to tensor<4xi8> | V1 2:1
%a = arith.trunci %a : tensor<4xi32> to tensor<4xi8> | V2 2:1
%r = arith.trunci %a : tensor<4xi16> to tensor<4xi8> | V3 2:1
%r = arith.trunci %s : i32 to i8 | V3 2:1
%r = arith.trunci %a : tensor<4xi32> to tensor<4xi32> | V4 2:1
%r = arith.trunci %a : tensor<4xi32> to tensor<4xi64> | V4 2:1
%r = arith.trunci %a : tensor<4xi32> to tensor<3xi8> | V4 2:1";

#[test]
fn constants(rt: HostRuntime) -> Result<(), Fail> {
    assert_rows(&rt, rt.alloc(), HEAD, CONSTANTS, END)
}

#[test]
fn operations_of_two_operands(rt: HostRuntime) -> Result<(), Fail> {
    assert_each(&rt, rt.alloc(), BINARIES, HEAD, BINARY)
}

#[test]
fn comparisons(rt: HostRuntime) -> Result<(), Fail> {
    assert_each(&rt, rt.alloc(), PREDICATES, HEAD, COMPARISON)?;
    assert_rows(&rt, rt.alloc(), HEAD, COMPARED, END)
}

#[test]
fn selects(rt: HostRuntime) -> Result<(), Fail> {
    assert_rows(&rt, rt.alloc(), HEAD, SELECTS, END)
}

#[test]
fn casts(rt: HostRuntime) -> Result<(), Fail> {
    assert_each(&rt, rt.alloc(), "arith.extsi arith.extui", HEAD, WIDENED)?;
    assert_rows(&rt, rt.alloc(), HEAD, NARROWED, END)
}
