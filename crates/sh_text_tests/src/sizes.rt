use crate::rows::{answer, assert_rows};
use std::alloc::Global;
use std::process::Abort;
use std::test::Fail;

const HEAD: &str = "module { shard.grid @q(shape = 1)";

/// Items at a limit and past it.
const ITEMS: &str = "\
shard.grid @g(shape = 1x1x1x1) | sound
shard.grid @g(shape = 1x1x1x1x1) | L2 2:1
shard.grid @g(shape = 1x1x1x1x1025) | L2 2:1
shard.grid @g(shape = 1024) | sound
shard.grid @g(shape = 1025) | L3 2:1
shard.grid @g(shape = 32x32) | sound
shard.grid @g(shape = 32x33) | L3 2:1
shard.grid @g(shape = 0x1025) | V5 2:1
shard.grid @g(shape = 1025x1x1x1x1) | L2 2:1
shard.grid @g(shape = 2) shard.grid @h(shape = 1025) | L3 2:26
shard.grid @g(shape = 1025) shard.grid @h(shape = 1x1x1x1x1) | L3 2:1
shard.grid @g(shape = 18446744073709551615x0) | V5 2:1
shard.grid @g(shape = 18446744073709551615x18446744073709551615) | L3 2:1
func.func @f(%a: tensor<1x1x1x1x1x1xi8>) { return } | sound
func.func @f(%a: tensor<1x1x1x1x1x1x1xi8>) { return } | L2 2:1
func.func @f() -> tensor<1x1x1x1x1x1x1xi8> { return } | L2 2:1
func.func @f(%a: tensor<1048576xi8>) { return } | sound
func.func @f(%a: tensor<1048577xi8>) { return } | L4 2:1
func.func @f() -> tensor<1048577xi8> { return } | L4 2:1
func.func @f(%a: tensor<1024x1024xi8>) { return } | sound
func.func @f(%a: tensor<1024x1025xi8>) { return } | L4 2:1
func.func @f(%a: tensor<0x1048576xi8>) { return } | sound
func.func @f(%a: tensor<0x1048577xi8>) { return } | L4 2:1
func.func @f(%a: tensor<?x1048577xi8>) { return } | L4 2:1
func.func @f(%a: tensor<?x1048576xi8>) { return } | V10 2:1
func.func @f(%a: tensor<18446744073709551615x18446744073709551615xi8>) { return } | L4 2:1
shardrun.call @f(dense<1> : tensor<1x1x1x1x1x1xi8>) | sound
shardrun.call @f(dense<1> : tensor<1x1x1x1x1x1x1xi8>) | L2 2:1
shardrun.call @f(dense<1> : tensor<1048577xi8>) | L4 2:1
shardrun.device @f on @q(tensor<1x1x1x1x1x1x1xi8> split_axes = []) -> () func.func @f() { return } | L2 2:1
shardrun.device @f on @q() -> (tensor<1048577xi8> split_axes = []) func.func @f() { return } | L4 2:1";

const LOOPS_HEAD: &str = "module { func.func @f(%a: tensor<1x1x1x1x1x1xi8>) {
%r = linalg.generic {indexing_maps = [affine_map<(a, b, c, d, e, f) -> (a, b, c, d, e, f)>], \
iterator_types = [\"parallel\", \"parallel\", \"parallel\", \"parallel\", \"parallel\"";

const LOOPS_TAIL: &str = "]} outs(%a : tensor<1x1x1x1x1x1xi8>) \
{^z(%o: i8): linalg.yield %o : i8} -> tensor<1x1x1x1x1x1xi8> return } }";

/// Iterators behind the first five.
const LOOPS: &str = "\
, \"parallel\" | sound
, \"parallel\", \"parallel\" | L2 2:1";

const SOURCE: &str = "module { func.func @f(%z: tensor<i8>) {";

const DEVICE: &str = "module { shard.grid @g(shape = 1)
shardrun.device @f on @g(tensor<i8> split_axes = []) -> () func.func @f(%z: tensor<i8>) {";

/// So many times a text, with commas between them.
fn listed(alloc: Global, part: &str, count: usize) -> Result<String, Fail> {
    let mut text = String::from_str(alloc, part)?;
    for _ in 1..count {
        text.push_str(", ")?;
        text.push_str(part)?;
    }
    Ok(text)
}

/// The block arguments of so many inputs and the output.
fn block(alloc: Global, inputs: usize) -> Result<String, Fail> {
    let mut text = String::from_str(alloc, "%o: i8")?;
    for i in 0..inputs {
        write!(text, ", %x{i}: i8")?;
    }
    Ok(text)
}

/// A function with a generic of so many inputs, of rank 0.
fn with_inputs(alloc: Global, head: &str, inputs: usize) -> Result<String, Fail> {
    let maps = listed(alloc, "affine_map<() -> ()>", inputs)?;
    let names = listed(alloc, "%z", inputs)?;
    let types = listed(alloc, "tensor<i8>", inputs)?;
    let block = block(alloc, inputs)?;
    let attributes = format!(in alloc;
        "indexing_maps = [affine_map<() -> ()>, {maps}], iterator_types = []"
    )?;
    let region = format!(in alloc; "{{^b({block}): linalg.yield %o : i8}}")?;
    let text = format!(in alloc;
        "{head}\n%r = linalg.generic {{{attributes}}} ins({names} : {types}) outs(%z : tensor<i8>) {region} -> tensor<i8> return }} }}\n"
    )?;
    Ok(text)
}

/// So many operations on lines of their own behind a head, and a return.
fn with_lines(alloc: Global, head: &str, op: &str, count: usize) -> Result<String, Fail> {
    let mut text = String::from_str(alloc, head)?;
    for i in 0..count {
        write!(text, "\n%v{i} = {op}")?;
    }
    text.push_str("\nreturn } }\n")?;
    Ok(text)
}

fn assert_answer(
    rt: &impl Abort,
    alloc: Global,
    text: &str,
    want: &str,
    count: usize,
) -> Result<(), Fail> {
    let found = answer(rt, alloc, text)?;
    assert_eq!(rt; found.as_str(), want, "{count}");
    Ok(())
}

#[test]
fn items(rt: HostRuntime) -> Result<(), Fail> {
    assert_rows(&rt, rt.alloc(), HEAD, ITEMS, "}")
}

#[test]
fn six_loops(rt: HostRuntime) -> Result<(), Fail> {
    assert_rows(&rt, rt.alloc(), LOOPS_HEAD, LOOPS, LOOPS_TAIL)
}

#[test]
fn three_inputs_or_nine(rt: HostRuntime) -> Result<(), Fail> {
    let alloc = rt.alloc();
    for (head, count, want) in [
        (SOURCE, 3, "sound"),
        (SOURCE, 4, "L6 2:1"),
        (DEVICE, 9, "sound"),
        (DEVICE, 10, "L6 3:1"),
    ] {
        let text = with_inputs(alloc, head, count)?;
        assert_answer(&rt, alloc, text.as_str(), want, count)?;
    }
    Ok(())
}

const EMPTY: &str = "tensor.empty() : tensor<i8>";

const NOTE: &str = "shard.sharding @g split_axes = [] : !shard.sharding";

const SUM: &str =
    "linalg.reduce { arith.addi } ins(%z : tensor<i8>) outs(%z : tensor<i8>) dimensions = []";

/// The return and the operations of regions count, shardings don't.
#[test]
fn ten_thousand_operations(rt: HostRuntime) -> Result<(), Fail> {
    let alloc = rt.alloc();
    for (op, count, want) in [
        (EMPTY, 9_999, "sound"),
        (EMPTY, 10_000, "L5 1:10"),
        (SUM, 4_999, "sound"),
        (SUM, 5_000, "L5 1:10"),
        (NOTE, 10_001, "V6 2:1"),
    ] {
        let text = with_lines(alloc, SOURCE, op, count)?;
        assert_answer(&rt, alloc, text.as_str(), want, count)?;
    }
    Ok(())
}

/// Neither the return nor the operations of regions count.
#[test]
fn a_hundred_thousand_instructions(rt: HostRuntime) -> Result<(), Fail> {
    let alloc = rt.alloc();
    for (op, count, want) in [
        (EMPTY, 100_000, "sound"),
        (EMPTY, 100_001, "L7 2:1"),
        (SUM, 50_001, "sound"),
    ] {
        let text = with_lines(alloc, DEVICE, op, count)?;
        assert_answer(&rt, alloc, text.as_str(), want, count)?;
    }
    Ok(())
}
