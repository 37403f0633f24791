use crate::rows::{END, assert_rows};
use std::test::Fail;

const HEAD: &str =
    "module { func.func @f(%v: tensor<8xi32>, %m: tensor<4x6xi32>, %w: tensor<2x3xi32>, \
%n: tensor<2x3xi8>, %one: tensor<1x1xi32>, %z: tensor<i32>) { %s = arith.constant 1 : i32";

const EMPTY: &str = "\
%r = tensor.empty() : tensor<4xi32> | sound
%r = tensor.empty() : tensor<i32> | sound
%r = tensor.empty() : tensor<0xi32> | sound
%v = tensor.empty() : tensor<4xi32> | V2 2:1
%r = tensor.empty() : i32 | V3 2:1
%r = tensor.empty() : tensor<?xi32> | V10 2:1
%r = tensor.empty() : tensor<1x1x1x1x1x1x1xi32> | L2 2:1
%r = tensor.empty() : tensor<1024x1025xi32> | L4 2:1
%r = tensor.empty() : tensor<0x1048577xi32> | L4 2:1";

const EXTRACT: &str = "\
%r = tensor.extract_slice %v [1] [4] [2] : tensor<8xi32> to tensor<4xi32> | sound
%r = tensor.extract_slice %m [1, 2] [2, 3] [1, 1] : tensor<4x6xi32> to tensor<2x3xi32> | sound
%r = tensor.extract_slice %z [] [] [] : tensor<i32> to tensor<i32> | sound
%r = tensor.extract_slice %x [1] [4] [2] : tensor<8xi32> to tensor<4xi32> | V1 2:1
%v = tensor.extract_slice %v [1] [4] [2] : tensor<8xi32> to tensor<4xi32> | V2 2:1
%r = tensor.extract_slice %v [1] [4] [2] : tensor<9xi32> to tensor<4xi32> | V3 2:1
%r = tensor.extract_slice %s [] [] [] : i32 to tensor<i32> | V3 2:1
%r = tensor.extract_slice %v [1] [4] [2] : tensor<8xi32> to tensor<3xi32> | V4 2:1
%r = tensor.extract_slice %v [1] [4] [2] : tensor<8xi32> to tensor<4xi8> | V4 2:1
%r = tensor.extract_slice %v [1] [4] [2] : tensor<8xi32> to tensor<4x1xi32> | V4 2:1
%r = tensor.extract_slice %m [1, 2] [2, 3] [1, 1] : tensor<4x6xi32> to tensor<3x2xi32> | V4 2:1
%r = tensor.extract_slice %v [2] [4] [2] : tensor<8xi32> to tensor<4xi32> | V5 2:1
%r = tensor.extract_slice %v [-1] [4] [1] : tensor<8xi32> to tensor<4xi32> | V5 2:1
%r = tensor.extract_slice %v [1] [0] [1] : tensor<8xi32> to tensor<0xi32> | V5 2:1
%r = tensor.extract_slice %v [1] [4] [0] : tensor<8xi32> to tensor<4xi32> | V5 2:1
%r = tensor.extract_slice %v [1, 0] [4] [1] : tensor<8xi32> to tensor<4xi32> | V5 2:1
%r = tensor.extract_slice %v [1] [] [1] : tensor<8xi32> to tensor<4xi32> | V5 2:1
%r = tensor.extract_slice %v [1] [4] [1, 1] : tensor<8xi32> to tensor<4xi32> | V5 2:1
%r = tensor.extract_slice %v [1] [4] [2] : tensor<8xi32> to tensor<?xi32> | V10 2:1";

const INSERT: &str = "\
%r = tensor.insert_slice %w into %m [1, 2] [2, 3] [1, 1] : tensor<2x3xi32> into tensor<4x6xi32> | sound
%r = tensor.insert_slice %w into %m [0, 1] [2, 3] [3, 2] : tensor<2x3xi32> into tensor<4x6xi32> | sound
%r = tensor.insert_slice %x into %m [1, 2] [2, 3] [1, 1] : tensor<2x3xi32> into tensor<4x6xi32> | V1 2:1
%r = tensor.insert_slice %w into %x [1, 2] [2, 3] [1, 1] : tensor<2x3xi32> into tensor<4x6xi32> | V1 2:1
%m = tensor.insert_slice %w into %m [1, 2] [2, 3] [1, 1] : tensor<2x3xi32> into tensor<4x6xi32> | V2 2:1
%r = tensor.insert_slice %n into %m [1, 2] [2, 3] [1, 1] : tensor<2x3xi32> into tensor<4x6xi32> | V3 2:1
%r = tensor.insert_slice %n into %m [1, 2] [2, 3] [1, 1] : tensor<2x3xi8> into tensor<4x6xi32> | V3 2:1
%r = tensor.insert_slice %w into %m [1, 2] [2, 3] [1, 1] : tensor<2x3xi32> into tensor<4x7xi32> | V3 2:1
%r = tensor.insert_slice %w into %m [1, 2] [3, 2] [1, 1] : tensor<2x3xi32> into tensor<4x6xi32> | V3 2:1
%r = tensor.insert_slice %v into %m [0, 0] [1, 1] [1, 1] : tensor<8xi32> into tensor<4x6xi32> | V3 2:1
%r = tensor.insert_slice %w into %m [3, 2] [2, 3] [1, 1] : tensor<2x3xi32> into tensor<4x6xi32> | V5 2:1
%r = tensor.insert_slice %w into %m [1, 2] [2, 3] [1, 2] : tensor<2x3xi32> into tensor<4x6xi32> | V5 2:1
%r = tensor.insert_slice %w into %m [1, -1] [2, 3] [1, 1] : tensor<2x3xi32> into tensor<4x6xi32> | V5 2:1
%r = tensor.insert_slice %w into %m [1] [2, 3] [1, 1] : tensor<2x3xi32> into tensor<4x6xi32> | V5 2:1
%r = tensor.insert_slice %w into %m [1, 2] [2, 3] [0, 1] : tensor<2x3xi32> into tensor<4x6xi32> | V5 2:1
%r = tensor.insert_slice %w into %m [1, 2] [2, 3] [1] : tensor<2x3xi32> into tensor<4x6xi32> | V5 2:1";

const COLLAPSE: &str = "\
%r = tensor.collapse_shape %m [[0, 1]] : tensor<4x6xi32> into tensor<24xi32> | sound
%r = tensor.collapse_shape %m [[0], [1]] : tensor<4x6xi32> into tensor<4x6xi32> | sound
%r = tensor.collapse_shape %one [] : tensor<1x1xi32> into tensor<i32> | sound
%r = tensor.collapse_shape %x [[0, 1]] : tensor<4x6xi32> into tensor<24xi32> | V1 2:1
%m = tensor.collapse_shape %m [[0, 1]] : tensor<4x6xi32> into tensor<24xi32> | V2 2:1
%r = tensor.collapse_shape %m [[0, 1]] : tensor<6x4xi32> into tensor<24xi32> | V3 2:1
%r = tensor.collapse_shape %m [[0, 1]] : tensor<4x6xi32> into tensor<23xi32> | V4 2:1
%r = tensor.collapse_shape %m [[0, 1]] : tensor<4x6xi32> into tensor<24xi8> | V4 2:1
%r = tensor.collapse_shape %m [] : tensor<4x6xi32> into tensor<i32> | V4 2:1
%r = tensor.collapse_shape %m [[1, 0]] : tensor<4x6xi32> into tensor<24xi32> | V5 2:1
%r = tensor.collapse_shape %m [[0]] : tensor<4x6xi32> into tensor<24xi32> | V5 2:1
%r = tensor.collapse_shape %m [[0, 2]] : tensor<4x6xi32> into tensor<24xi32> | V5 2:1
%r = tensor.collapse_shape %m [[0, 1], []] : tensor<4x6xi32> into tensor<24x1xi32> | V5 2:1
%r = tensor.collapse_shape %m [[0, 1]] : tensor<4x6xi32> into tensor<4x6xi32> | V5 2:1
%r = tensor.collapse_shape %one [[0, 1]] : tensor<1x1xi32> into tensor<i32> | V5 2:1";

const EXPAND: &str = "\
%r = tensor.expand_shape %v [[0, 1]] output_shape [2, 4] : tensor<8xi32> into tensor<2x4xi32> | sound
%r = tensor.expand_shape %z [] output_shape [1, 1] : tensor<i32> into tensor<1x1xi32> | sound
%r = tensor.expand_shape %x [[0, 1]] output_shape [2, 4] : tensor<8xi32> into tensor<2x4xi32> | V1 2:1
%v = tensor.expand_shape %v [[0, 1]] output_shape [2, 4] : tensor<8xi32> into tensor<2x4xi32> | V2 2:1
%r = tensor.expand_shape %v [[0, 1]] output_shape [2, 4] : tensor<8xi8> into tensor<2x4xi8> | V3 2:1
%r = tensor.expand_shape %v [[0, 1]] output_shape [2, 4] : tensor<8xi32> into tensor<4x2xi32> | V4 2:1
%r = tensor.expand_shape %v [[0, 1]] output_shape [2, 3] : tensor<8xi32> into tensor<2x3xi32> | V4 2:1
%r = tensor.expand_shape %v [[0, 1]] output_shape [2, 4] : tensor<8xi32> into tensor<2x4xi8> | V4 2:1
%r = tensor.expand_shape %z [] output_shape [1, 2] : tensor<i32> into tensor<1x2xi32> | V4 2:1
%r = tensor.expand_shape %v [[0, 1]] output_shape [2] : tensor<8xi32> into tensor<2x4xi32> | V5 2:1
%r = tensor.expand_shape %v [[0, 1]] output_shape [2, -4] : tensor<8xi32> into tensor<2x4xi32> | V5 2:1
%r = tensor.expand_shape %v [[0], [1]] output_shape [2, 4] : tensor<8xi32> into tensor<2x4xi32> | V5 2:1
%r = tensor.expand_shape %v [[0]] output_shape [2, 4] : tensor<8xi32> into tensor<2x4xi32> | V5 2:1
%r = tensor.expand_shape %v [[0, 0]] output_shape [2, 4] : tensor<8xi32> into tensor<2x4xi32> | V5 2:1";

#[test]
fn empty_tensors(rt: HostRuntime) -> Result<(), Fail> {
    assert_rows(&rt, rt.alloc(), HEAD, EMPTY, END)
}

#[test]
fn slices(rt: HostRuntime) -> Result<(), Fail> {
    assert_rows(&rt, rt.alloc(), HEAD, EXTRACT, END)?;
    assert_rows(&rt, rt.alloc(), HEAD, INSERT, END)
}

#[test]
fn reshapes(rt: HostRuntime) -> Result<(), Fail> {
    assert_rows(&rt, rt.alloc(), HEAD, COLLAPSE, END)?;
    assert_rows(&rt, rt.alloc(), HEAD, EXPAND, END)
}
