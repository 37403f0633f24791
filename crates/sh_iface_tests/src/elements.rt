use crate::cutting::parts_make_whole;
use crate::operands::arguments;
use crate::options::{read_grid, read_option};
use crate::sources::{first_func, first_op};
use crate::values::{operands_in, value_of};
use sh_iface::ShardIface;
use sh_iface_elem::elem_of;
use sh_tensor::Tensor;
use sh_text_tests::judge;
use sh_verify::Verified;
use std::alloc::Global;
use std::process::Abort;
use std::test::Fail;

/// Each line the parameters of a function, and its operation.
const OPERATIONS: &str = "\
%a: tensor<4x3xi32>, %b: tensor<4x3xi32> | arith.addi %a, %b : tensor<4x3xi32>
%a: tensor<4x3xi8>, %b: tensor<4x3xi8> | arith.remui %a, %b : tensor<4x3xi8>
%a: tensor<4x3xi64> | arith.muli %a, %a : tensor<4x3xi64>
%a: tensor<4x3xi16>, %b: tensor<4x3xi16> | arith.cmpi slt, %a, %b : tensor<4x3xi16>
%c: tensor<4x3xi1>, %a: tensor<4x3xi8>, %b: tensor<4x3xi8> | arith.select %c, %a, %b : tensor<4x3xi1>, tensor<4x3xi8>
%a: tensor<4x3xi8> | arith.extsi %a : tensor<4x3xi8> to tensor<4x3xi32>
%a: tensor<4x3xi1> | arith.extsi %a : tensor<4x3xi1> to tensor<4x3xi8>
%a: tensor<4x3xi32> | arith.trunci %a : tensor<4x3xi32> to tensor<4x3xi8>";

/// Each line a grid, and an option of two loops of 4 and 3 points: even and uneven splits, parts
/// without a point, axes in both orders, and a loop along two axes.
const OPTIONS: &str = "\
2 | - / -
2 | 0 : 0 2 4 / -
2 | 0 : 0 3 4 / -
2 | 0 : 0 0 4 / -
2 | - / 0 : 0 2 3
2 | - / 0 : 0 1 3
2 2 | 0 : 0 2 4 / 1 : 0 2 3
2 2 | 1 : 0 1 4 / 0 : 0 3 3
2 2 | 0 1 : 0 1 2 3 4 / -
2 2 | 1 0 : 0 2 2 3 4 / -
2 2 | - / 1 0 : 0 1 1 2 3";

/// A module of one function of these parameters and this operation.
fn module_of(alloc: Global, row: &str) -> Result<Verified, Fail> {
    let (params, op) = row.split_once(" | ").ok_or("no operation")?;
    let text = format!(in alloc; "module {{ func.func @f({params}) {{ %r = {op} return }} }}")?;
    if text.len() > 1000 {
        return Err("a long text")?;
    }
    match judge(alloc, text.as_bytes()) {
        Ok(m) => Ok(m),
        Err(_) => Err("a text that stands for no module")?,
    }
}

/// Whether the parts of an operation make its whole result under an option in a line.
fn holds<O: ShardIface>(
    alloc: Global,
    x: &O,
    wholes: &[&Tensor],
    want: &Tensor,
    line: &str,
) -> Result<bool, Fail> {
    let (grid, option) = line.split_once(" | ").ok_or("no option")?;
    let g = read_grid(alloc, grid)?;
    let o = read_option(alloc, option)?;
    parts_make_whole(alloc, x, &g, &o, wholes, want)
}

fn assert_module(
    rt: &impl Abort,
    alloc: Global,
    m: &Verified,
    row: &str,
    lines: &str,
) -> Result<(), Fail> {
    let f = first_func(m).ok_or("no function in source form")?;
    let op = first_op(f).ok_or("no operation")?;
    let x = elem_of(op).ok_or("no element operation")?;
    let arguments = arguments(alloc, f.args.as_slice())?;
    let result = value_of(alloc, op, arguments.as_slice())?;
    let wholes = operands_in(alloc, op, arguments.as_slice())?;
    for line in lines.lines() {
        assert!(rt;
            holds(alloc, &x, wholes.as_slice(), &result, line)?,
            "{row}: {line}"
        );
    }
    Ok(())
}

fn assert_options(rt: &impl Abort, alloc: Global, row: &str, lines: &str) -> Result<(), Fail> {
    let m = module_of(alloc, row)?;
    assert_module(rt, alloc, &m, row, lines)
}

#[test]
fn parts_of_element_operations_make_the_whole(rt: HostRuntime) -> Result<(), Fail> {
    let alloc = rt.alloc();
    for row in OPERATIONS.lines() {
        assert_options(&rt, alloc, row, OPTIONS)?;
    }
    Ok(())
}
