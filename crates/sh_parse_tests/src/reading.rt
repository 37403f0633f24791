use sh_base::{Place, Refusal};
use sh_ir::{AffineMap, Module, OpKind};
use sh_lex::lex;
use sh_parse::{ParseRefusal, parse};
use std::alloc::Global;
use std::process::Abort;
use std::test::Fail;

const LONGEST: usize = 16_777_216;

/// A module that adds, with its shardings and its call.
const SUM: &str = "module {
  shard.grid @g(shape = 2)
  func.func @f(%a: tensor<4xi32>, %b: tensor<4xi32>) -> tensor<4xi32> {
    %s = shard.sharding @g split_axes = [[0]] : !shard.sharding
    %a1 = shard.shard %a to %s : tensor<4xi32>
    %b1 = shard.shard %b to %s : tensor<4xi32>
    %c = arith.addi %a1, %b1 : tensor<4xi32>
    %c1 = shard.shard %c to %s : tensor<4xi32>
    return %c1 : tensor<4xi32>
  }
  shardrun.call @f(dense<[2147483647, 1, 2, 3]> : tensor<4xi32>, dense<1> : tensor<4xi32>)
}
";

/// The same, cut off in a type.
const CUT: &str = "module {
  shard.grid @g(shape = 2)
  func.func @f(%a: tensor<4x";

/// What is answered, and a text.
const CASES: &str = "module | module @m {}
module | #m = affine_map<(a) -> (a)> #n = affine_map<(a, b) -> (b, a)>
P1 1:29 | #m = affine_map<(a) -> (a)> #m = affine_map<(b) -> (b)>
module | #m = affine_map<() -> ()> func.func @f(%o: tensor<i32>) { %0 = linalg.generic {indexing_maps = [#m], iterator_types = []} outs(%o : tensor<i32>) { ^bb0(%a: i32): linalg.yield %a : i32 } -> tensor<i32> return }
P1 1:97 | #m = affine_map<() -> ()> func.func @f(%o: tensor<i32>) { %0 = linalg.generic {indexing_maps = [#n], iterator_types = []} outs(%o : tensor<i32>) { ^bb0(%a: i32): linalg.yield %a : i32 } -> tensor<i32> return }
module | shardrun.device @f on @g() -> () func.func @f() { return } func.func @h() { return }
P1 1:44 | shardrun.device @f on @g() -> () func.func @h() { return }
P1 1:44 | shardrun.device @f on @g() -> () func.func @h() { retur
P2 1:18 | func.func @f() { retur }
P3 1:41 | func.func @f() { %a = arith.addi %b, %c overflow<nsw> : i8 return }";

/// The words that a loop or an alias may be named by: one that the grammar has no form for, and each
/// that it has one for.
const WORDS: &str = "\
x i32 tensor i8 i1 i16 i64 ins outs linalg.matmul arith.constant dense to true false mesh.shard
shard.shard mesh.sharding shard.sharding split_axes linalg.fill tensor.empty arith.addi
arith.subi arith.muli arith.andi arith.ori arith.xori arith.maxsi arith.minsi arith.maxui
arith.minui arith.divui arith.remui arith.divsi arith.remsi arith.shli arith.shrui arith.shrsi
arith.cmpi eq ne slt sle sgt sge ult ule ugt uge arith.select arith.extsi arith.extui
arith.trunci tensor.extract_slice tensor.insert_slice into tensor.collapse_shape
tensor.expand_shape output_shape linalg.batch_matmul linalg.matvec linalg.vecmat linalg.dot
linalg.conv_1d linalg.conv_2d linalg.transpose permutation linalg.broadcast dimensions
linalg.reduce linalg.generic indexing_maps iterator_types linalg.yield affine_map overflowFlags
none annotate_for_users on grid_axes mesh_axes mesh.all_gather shard.all_gather gather_axis
mesh.all_slice shard.all_slice slice_axis mesh.all_reduce shard.all_reduce reduction
mesh.reduce_scatter shard.reduce_scatter scatter_axis sum product max min bitwise_and bitwise_or
bitwise_xor mesh.all_to_all shard.all_to_all split_axis concat_axis mesh.shift shard.shift
shift_axis offset rotate shard.update_halo shardrun.take axis starts sizes shardrun.pad low high
shardrun.join module mesh.mesh shard.grid shape shardrun.call shardrun.device halo_sizes
sharded_dims_offsets func.func private public return func.return call func.call linalg.index
arith.index_cast index";

/// What the tokens of a text are answered.
fn answer(
    rt: &impl Abort,
    alloc: Global,
    text: &str,
) -> Result<Result<Module, ParseRefusal>, Fail> {
    assert!(rt; text.len() <= LONGEST);
    let tokens = lex(alloc, text.as_bytes())?;
    Ok(parse(alloc, text.as_bytes(), &tokens))
}

/// `module`, or the code and the place of the refusal.
fn shown(rt: &impl Abort, alloc: Global, text: &str) -> Result<String, Fail> {
    match answer(rt, alloc, text)? {
        Ok(_) => Ok(String::from_str(alloc, "module")?),
        Err(ParseRefusal::Mem) => Ok(String::from_str(alloc, "memory")?),
        Err(ParseRefusal::At(Refusal { place, rule })) => {
            let Place { line, column } = place;
            let rule = rule.code();
            Ok(format!(in alloc; "{rule} {line}:{column}")?)
        }
    }
}

#[test]
fn refuses_the_first_token_with_which_no_module_goes_on(rt: HostRuntime) -> Result<(), Fail> {
    let alloc = rt.alloc();
    for line in CASES.lines() {
        let (want, text) = line.split_once(" | ").ok_or("no bar")?;
        let answer = shown(&rt, alloc, text)?;
        assert_eq!(rt; answer.as_str(), want, "{text}");
    }
    let answer = shown(&rt, alloc, CUT)?;
    assert_eq!(rt; answer.as_str(), "P1 3:29");
    Ok(())
}

#[test]
fn numbers_values_by_first_occurrence(rt: HostRuntime) -> Result<(), Fail> {
    let alloc = rt.alloc();
    let module = answer(&rt, alloc, SUM)?.map_err(|_| "refused")?;
    let func = module.funcs.get(0).ok_or("no function")?;
    assert_eq!(rt; func.ops.len(), 6);
    let sum = func.ops.get(3).ok_or("no sum")?;
    assert!(rt; sum.operands.as_slice() == [3_u32, 4].as_slice());
    assert_eq!(rt; sum.defines, Some(5));
    assert_eq!(rt; sum.place, Place { line: 7, column: 5 });
    Ok(())
}

#[test]
fn reads_nine_thousand_products(rt: HostRuntime) -> Result<(), Fail> {
    let alloc = rt.alloc();
    let mut text = String::from_str(
        alloc,
        "func.func @f(%a: tensor<64x64xi32>, %b: tensor<64x64xi32>) {\n",
    )?;
    for i in 0..9000 {
        write!(
            text,
            "%v{i} = linalg.matmul ins(%a, %b : tensor<64x64xi32>, tensor<64x64xi32>) outs(%a : tensor<64x64xi32>) -> tensor<64x64xi32>\n"
        )?;
    }
    text.push_str("return }")?;
    let module = answer(&rt, alloc, text.as_str())?.map_err(|_| "refused")?;
    let func = module.funcs.get(0).ok_or("no function")?;
    assert_eq!(rt; func.ops.len(), 9001);
    Ok(())
}

/// A text with a map of all words, whose last one is its result.
fn text_of_words(alloc: Global) -> Result<String, Fail> {
    let mut text = String::from_str(alloc, "#m = affine_map<(")?;
    for (at, word) in WORDS.split_whitespace().enumerate() {
        if at > 0 {
            text.push_str(", ")?;
        }
        text.push_str(word)?;
    }
    text.push_str(
        ") -> (index)> func.func @f(%o: tensor<i32>) {
  %0 = linalg.generic {indexing_maps = [#m], iterator_types = []} outs(%o : tensor<i32>) {
  ^bb0(%a: i32):
    linalg.yield %a : i32
  } -> tensor<i32>
  return
}",
    )?;
    Ok(text)
}

/// The first map of the first operation.
fn first_map(module: &Module) -> Option<&AffineMap> {
    match &module.funcs.get(0)?.ops.get(0)?.kind {
        OpKind::Generic(generic) => generic.indexing_maps.get(0),
        _ => None,
    }
}

#[test]
fn takes_each_word_as_a_loop(rt: HostRuntime) -> Result<(), Fail> {
    let alloc = rt.alloc();
    let text = text_of_words(alloc)?;
    let module = answer(&rt, alloc, text.as_str())?.map_err(|_| "refused")?;
    let map = first_map(&module).ok_or("no map")?;
    assert_eq!(rt; map.loops.len(), 137);
    for (at, number) in map.loops.as_slice().iter().enumerate() {
        assert_eq!(rt; *number as usize, at);
    }
    assert!(rt; map.results.as_slice() == [136_u32].as_slice());
    Ok(())
}
