use crate::{Event, Form, Reading, read};
use sh_base::Place;
use sh_lex::lex;
use std::alloc::Global;
use std::process::Abort;
use std::test::Fail;

const LONGEST: usize = 16_777_216;

/// A module that adds, with its shardings and its call.
const SUM: &str = "module {
  shard.grid @g(shape = 2)
  func.func @f(%a: tensor<4xi32>, %b: tensor<4xi32>) -> tensor<4xi32> {
    %s = shard.sharding @g split_axes = [[0]] : !shard.sharding
    %a1 = shard.shard %a to %s : tensor<4xi32>
    %b1 = shard.shard %b to %s : tensor<4xi32>
    %c = arith.addi %a1, %b1 : tensor<4xi32>
    %c1 = shard.shard %c to %s : tensor<4xi32>
    return %c1 : tensor<4xi32>
  }
  shardrun.call @f(dense<[2147483647, 1, 2, 3]> : tensor<4xi32>, dense<1> : tensor<4xi32>)
}
";

/// The same in the former spelling.
const FORMER: &str = "module {
  mesh.mesh @g(shape = 2)
  func.func @f(%a: tensor<4xi32>, %b: tensor<4xi32>) -> tensor<4xi32> {
    %s = mesh.sharding @g split_axes = [[0]] : !mesh.sharding
    %a1 = mesh.shard %a to %s : tensor<4xi32>
    %b1 = mesh.shard %b to %s : tensor<4xi32>
    %c = arith.addi %a1, %b1 : tensor<4xi32>
    %c1 = mesh.shard %c to %s : tensor<4xi32>
    return %c1 : tensor<4xi32>
  }
  shardrun.call @f(dense<[2147483647, 1, 2, 3]> : tensor<4xi32>, dense<1> : tensor<4xi32>)
}
";

/// A word where that module adds.
const FORMER_REFUSED: &str = "module {
  mesh.mesh @g(shape = 2)
  func.func @f(%a: tensor<4xi32>, %b: tensor<4xi32>) -> tensor<4xi32> {
    %s = mesh.sharding @g split_axes = [[0]] : !mesh.sharding
    %a1 = mesh.shard %a to %s : tensor<4xi32>
    %b1 = mesh.shard %b to %s : tensor<4xi32>
    %c = mesh.broadcast %a1, %b1 : tensor<4xi32>";

/// A module of two layers, with a generic operation.
const NET: &str = "#map = affine_map<(d0, d1) -> (d0, d1)>
module {
  shard.grid @g(shape = 2x2)
  func.func @net(%arg0: tensor<16x32xi32>, %arg1: tensor<32x32xi8>, %arg2: tensor<32x8xi8>) -> tensor<16x8xi32> {
    %s0 = shard.sharding @g split_axes = [[0]] : !shard.sharding
    %s1 = shard.sharding @g split_axes = [[], [1]] : !shard.sharding
    %s2 = shard.sharding @g split_axes = [[1]] : !shard.sharding
    %x = shard.shard %arg0 to %s0 : tensor<16x32xi32>
    %u = shard.shard %arg1 to %s1 : tensor<32x32xi8>
    %v = shard.shard %arg2 to %s2 : tensor<32x8xi8>
    %c0_i32 = arith.constant 0 : i32
    %0 = tensor.empty() : tensor<16x32xi32>
    %1 = linalg.fill ins(%c0_i32 : i32) outs(%0 : tensor<16x32xi32>) -> tensor<16x32xi32>
    %2 = linalg.matmul ins(%x, %u : tensor<16x32xi32>, tensor<32x32xi8>) outs(%1 : tensor<16x32xi32>) -> tensor<16x32xi32>
    %3 = linalg.generic {indexing_maps = [#map, #map], iterator_types = [\"parallel\", \"parallel\"]} ins(%2 : tensor<16x32xi32>) outs(%0 : tensor<16x32xi32>) {
    ^bb0(%in: i32, %out: i32):
      %7 = arith.maxsi %in, %c0_i32 : i32
      linalg.yield %7 : i32
    } -> tensor<16x32xi32>
    %4 = tensor.empty() : tensor<16x8xi32>
    %5 = linalg.fill ins(%c0_i32 : i32) outs(%4 : tensor<16x8xi32>) -> tensor<16x8xi32>
    %6 = linalg.matmul ins(%3, %v : tensor<16x32xi32>, tensor<32x8xi8>) outs(%5 : tensor<16x8xi32>) -> tensor<16x8xi32>
    return %6 : tensor<16x8xi32>
  }
  shardrun.call @net(dense<1> : tensor<16x32xi32>, dense<1> : tensor<32x32xi8>, dense<-1> : tensor<32x8xi8>)
}
";

/// Files, one a line.
const FILES: &str = "
// nothing
module @m {}
shard.grid @g(shape = 4) func.func private @f() { func.return : }
#to = affine_map<(module, to, f32) -> ()> #arith.overflow = affine_map<() -> (d0)>
shardrun.device @f on @g(tensor<4x?xi32> split_axes = [[0, 1], []] halo_sizes = [1, 1] sharded_dims_offsets = [0, 2], i1 split_axes = []) -> () func.func public @f(%x : tensor<?xi64>) -> (i16, tensor<i8>) { return %x, %y : i16, i8 }
shardrun.device @f on @g() -> () func.func @f() { %c = call @g(%a, %b) : (i8, tensor<?xi8>) -> tensor<?xi8> return }
#m = affine_map<(mesh.mesh, shard.grid, mesh_axes) -> (shard.grid, mesh.update_halo)>
shardrun.call @f() shardrun.call @f(dense<\"0x00\"> : i8, dense<> : i1, dense<[[true, false], [-1]]> : tensor<2x2xi1>)";

/// Operations of functions, one form or more a line.
const OPERATIONS: &str =
    "%c = arith.constant true %d = arith.constant -1 : i8 %e = arith.constant dense<[1, 2]> : tensor<2xi8>
%c = arith.shrui %a, %b : tensor<2xi8> %d = arith.cmpi sge, %a, %b : i8
%c = arith.select %p, %a, %b : i8 %d = arith.select %p, %a, %b : tensor<2xi1>, tensor<2xi8>
%c = arith.extsi %a : i8 to i16 %d = arith.extui %a : i8 to i16 %e = arith.trunci %a : i16 to i8
%c = tensor.empty() : tensor<i1>
%c = tensor.extract_slice %a[0, 0] [1, 1] [1, 1] : tensor<2x2xi8> to tensor<1x1xi8>
%c = tensor.insert_slice %a into %b[0] [1] [1] : tensor<1xi8> into tensor<2xi8>
%c = tensor.collapse_shape %a [[0, 1]] : tensor<2x2xi8> into tensor<4xi8>
%c = tensor.expand_shape %a [[0, 1]] output_shape [2, 2] : tensor<4xi8> into tensor<2x2xi8>
%c = linalg.batch_matmul ins(%a, %b : i8, i8) outs(%c : i8) -> i8 %d = linalg.conv_2d ins( : ) outs( : ) -> i8
%c = linalg.matvec ins(%a : i8) outs(%c : i8) -> i8 %d = linalg.vecmat ins(%a : i8) outs(%c : i8) -> i8 %e = linalg.dot ins(%a : i8) outs(%c : i8) -> i8 %f = linalg.conv_1d ins(%a : i8) outs(%c : i8) -> i8
%c = linalg.transpose ins(%a : i8) outs(%b : i8) permutation = [1, 0]
%c = linalg.broadcast ins(%a : i8) outs(%b : i8) dimensions = [1]
%c = linalg.reduce { arith.addi } ins(%a : i8) outs(%b : i8) dimensions = [1]
%c = linalg.reduce { arith.addi {overflowFlags = #arith.overflow<none>} } ins(%a : i8) outs(%b : i8) dimensions = [1]
%c = linalg.reduce ins(%a : i8) outs(%b : i8) dimensions = [0] (%i: i8, %o: i8) { %r = arith.addi %o, %i : i8 linalg.yield %r : i8 }
%c = linalg.generic {indexing_maps = [affine_map<(a) -> (a)>], iterator_types = []} outs(%b : i8) { ^bb0(%o: i8): %r = arith.constant 0 : i8 linalg.yield %r : i8 } -> i8
%c = linalg.generic {indexing_maps = [], iterator_types = []} outs(%b : i8) { ^bb0(%o: i8): %i = linalg.index 0 : index %r = arith.index_cast %i : index to i8 %t = arith.addi %r, %o : i8 linalg.yield %t : i8 } -> i8
%c = call @g() : () -> i8 %d = func.call @g(%a, %b) : (i8, i8) -> tensor<2xi8>
%c = mesh.all_gather %a on @g mesh_axes = [0] gather_axis = 0 : i8 -> i8 %d = mesh.all_slice %a on @g grid_axes = [0] slice_axis = 1 : i8 -> i8
%c = mesh.all_reduce %a on @g mesh_axes = [0] : i8 -> i8 %d = mesh.reduce_scatter %a on @g scatter_axis = 0 : i8 -> i8
%c = mesh.all_to_all %a on @g split_axis = 0 concat_axis = 1 : i8 -> i8 %d = mesh.shift %a on @g shift_axis = 0 offset = 1 : i8 -> i8
%s = shard.sharding @g split_axes = [[], [0]] halo_sizes = [1, 1] : !shard.sharding
%s = shard.sharding @g split_axes = [[0]] sharded_dims_offsets = [0, 2] : !shard.sharding %a = shard.shard %b to %s annotate_for_users : i8
%c = shard.all_gather %a on @g grid_axes = [0] gather_axis = 0 : i8 -> i8 %d = shard.all_slice %a on @g slice_axis = 1 : i8 -> i8
%c = shard.all_reduce %a on @g : i8 -> i8 %d = shard.all_reduce %a on @g grid_axes = [] reduction = <max> : i8 -> i8
%c = shard.reduce_scatter %a on @g reduction = bitwise_xor scatter_axis = 0 : i8 -> i8
%c = shard.all_to_all %a on @g split_axis = 0 concat_axis = 1 : i8 -> i8
%c = shard.shift %a on @g shift_axis = 0 offset = -1 rotate : i8 -> i8 %d = shard.shift %a on @g shift_axis = 0 offset = 1 : i8 -> i8
%c = shard.update_halo %a on @g split_axes = [[0]] halo_sizes = [1, 1] : i8
%c = shardrun.take %a on @g axis = 0 starts = [0, 2] sizes = [2, 2] : i8 -> i8
%c = shardrun.pad %a low = [1] high = [0] : i8 -> i8 %d = shardrun.join %a, %b axis = 0 : i8, i8 -> i8";

/// Refusals and what is refused, one a line.
const REFUSALS: &str = "P1 1:9  | module {
P1 1:11 func.func | module {} func.func
P1 1:1 mesh.foo | mesh.foo
P1 1:1 mesh.broadcast | mesh.broadcast
P1 1:1 mesh.grid | mesh.grid @g(shape = 2)
P1 1:23 ?x | shard.grid @g(shape = ?x2)
P1 1:27  | func.func @f(%a: tensor<4x
P3 1:18 index | func.func @f(%a: index)
P3 1:27 f32 | func.func @f(%a: tensor<4xf32>)
P3 1:18 i4 | func.func @f(%a: i4)
P3 1:18 si8 | func.func @f(%a: si8)
P3 1:18 ui64 | func.func @f(%a: ui64)
P1 1:18 i | func.func @f(%a: i)
P3 1:18 scf.if | func.func @f(%a: scf.if)
P3 1:18 cf.br | func.func @f(%a: cf.br)
P3 1:18 linalg.pooling_nchw_max | func.func @f(%a: linalg.pooling_nchw_max)
P3 1:18 * | func.func @f(%a: *)
P1 1:18 \"i8\" | func.func @f(%a: \"i8\")
P2 1:18 mesh.foo | func.func @f() { mesh.foo
P1 1:18 } | func.func @f() { }
P3 1:18 scf.for | func.func @f() { scf.for
P3 1:18 \"arith.addi\" | func.func @f() { \"arith.addi\"
P3 1:18 + | func.func @f() { + 
P2 1:18 func.call | func.func @f() { func.call @g()
P2 1:23 mesh.update_halo | func.func @f() { %a = mesh.update_halo
P2 1:23 mesh.sharded | func.func @f() { %a = mesh.sharded
P2 1:23 callee | func.func @f() { %a = callee
P1 1:59 !mesh.shard | func.func @f() { %s = shard.sharding @g split_axes = [] : !mesh.shard
P1 1:31 on | func.func @f() { %a = call @g on
P1 1:35 i8 | func.func @f() { %a = call @g() : i8
P1 1:41 ( | func.func @f() { %a = call @g() : () -> (i8)
P2 1:23 linalg.index | func.func @f() { %a = linalg.index 0 : index
P2 1:23 arith.index_cast | func.func @f() { %a = arith.index_cast %b : index to i8
P2 1:78 linalg.index | func.func @f() { %a = linalg.reduce ins(:) outs(:) dimensions = [] () { %b = linalg.index 0
P2 1:39 linalg.index | func.func @f() { %a = linalg.reduce { linalg.index
P2 1:23 to | func.func @f() { %a = to
P1 1:23 %b | func.func @f() { %a = %b
P1 1:21 arith.addi | func.func @f() { %a arith.addi
P3 1:41 overflow | func.func @f() { %a = arith.addi %b, %c overflow<nsw> : i8
P1 1:43 into | func.func @f() { %a = arith.extsi %b : i8 into i16
P1 1:34 lt | func.func @f() { %a = arith.cmpi lt, %b, %c : i8
P1 1:61 mean | func.func @f() { %a = shard.all_reduce %b on @g reduction = mean
P2 1:52 foo | func.func @f() { %a = arith.select %p, %b, %c : i8 foo
P2 1:39 arith.subi | func.func @f() { %a = linalg.reduce { arith.subi }
P1 1:37 foo | func.func @f() { %a = linalg.reduce foo
P2 1:78 tensor.empty | func.func @f() { %a = linalg.reduce ins(:) outs(:) dimensions = [] () { %b = tensor.empty
P2 1:73 return | func.func @f() { %a = linalg.reduce ins(:) outs(:) dimensions = [] () { return
P1 1:28 } | func.func @f() { return %a }
P3 1:150 index | func.func @f() { %a = linalg.generic {indexing_maps = [], iterator_types = []} outs(:) { ^bb(): %i = linalg.index 0 : index %r = arith.addi %i, %i : index
P3 1:119 index | func.func @f() { %a = linalg.generic {indexing_maps = [], iterator_types = []} outs(:) { ^bb(): %r = arith.extsi %o : index to i8
P1 1:119 i8 | func.func @f() { %a = linalg.generic {indexing_maps = [], iterator_types = []} outs(:) { ^bb(): %i = linalg.index 0 : i8
P1 1:115 %o | func.func @f() { %a = linalg.generic {indexing_maps = [], iterator_types = []} outs(:) { ^bb(): %i = linalg.index %o : index
P1 1:124 i8 | func.func @f() { %a = linalg.generic {indexing_maps = [], iterator_types = []} outs(:) { ^bb(): %r = arith.index_cast %o : i8 to index
P3 1:133 index | func.func @f() { %a = linalg.generic {indexing_maps = [], iterator_types = []} outs(:) { ^bb(): %r = arith.index_cast %o : index to index
P1 1:133 tensor | func.func @f() { %a = linalg.generic {indexing_maps = [], iterator_types = []} outs(:) { ^bb(): %r = arith.index_cast %o : index to tensor<i8>
P2 1:102 tensor.empty | func.func @f() { %a = linalg.generic {indexing_maps = [], iterator_types = []} outs(:) { ^bb(): %r = tensor.empty() : i8
P2 1:102 call | func.func @f() { %a = linalg.generic {indexing_maps = [], iterator_types = []} outs(:) { ^bb(): %r = call @g()
P3 1:115 index | func.func @f() { %a = linalg.generic {indexing_maps = [], iterator_types = []} outs(:) { ^bb(): linalg.yield %i : index
P3 1:29 + | #m = affine_map<(d0) -> (d0 + 1)>
P3 1:18 f16 | func.func @f(%a: f16)
P3 1:18 bf16 | func.func @f(%a: bf16)
P3 1:18 f32 | func.func @f(%a: f32)
P3 1:18 f64 | func.func @f(%a: f64)
P3 1:18 vector | func.func @f(%a: vector)
P3 1:18 memref | func.func @f(%a: memref)
P3 1:18 complex | func.func @f(%a: complex)
P3 1:18 overflow | func.func @f(%a: overflow)
P3 1:18 loc | func.func @f(%a: loc)
P3 1:18 attributes | func.func @f(%a: attributes)
P3 1:18 dense_resource | func.func @f(%a: dense_resource)
P1 1:18 func.call | func.func @f(%a: func.call)
P1 1:18 linalg.index | func.func @f(%a: linalg.index)
P3 1:18 linalg.map | func.func @f(%a: linalg.map)
P3 1:18 tensor.pad | func.func @f(%a: tensor.pad)
P3 1:18 tensor.concat | func.func @f(%a: tensor.concat)
P3 1:18 tensor.splat | func.func @f(%a: tensor.splat)
P3 1:18 + | func.func @f(%a: +)
P3 1:18 f16 | func.func @f() { f16
P3 1:18 bf16 | func.func @f() { bf16
P3 1:18 f32 | func.func @f() { f32
P3 1:18 f64 | func.func @f() { f64
P3 1:18 index | func.func @f() { index
P3 1:18 vector | func.func @f() { vector
P3 1:18 memref | func.func @f() { memref
P3 1:18 complex | func.func @f() { complex
P3 1:18 overflow | func.func @f() { overflow
P3 1:18 loc | func.func @f() { loc
P3 1:18 attributes | func.func @f() { attributes
P3 1:18 dense_resource | func.func @f() { dense_resource
P2 1:18 linalg.index | func.func @f() { linalg.index
P3 1:18 linalg.map | func.func @f() { linalg.map
P3 1:18 tensor.pad | func.func @f() { tensor.pad
P3 1:18 tensor.concat | func.func @f() { tensor.concat
P3 1:18 tensor.splat | func.func @f() { tensor.splat
P3 1:18 scf.if | func.func @f() { scf.if
P3 1:18 cf.br | func.func @f() { cf.br
P3 1:18 linalg.pooling_nchw_max | func.func @f() { linalg.pooling_nchw_max
P3 1:18 i4 | func.func @f() { i4
P3 1:18 si8 | func.func @f() { si8
P3 1:18 ui64 | func.func @f() { ui64
P3 1:18 * | func.func @f() { *";

/// What `read` answers, in one line: `file`, or the code, the place and the text of the refused token.
fn shown(rt: &impl Abort, alloc: Global, text: &str) -> Result<String, Fail> {
    assert!(rt; text.len() <= LONGEST);
    let tokens = lex(alloc, text.as_bytes())?;
    match read(alloc, text.as_bytes(), &tokens)? {
        Reading::Whole(_) => Ok(String::from_str(alloc, "file")?),
        Reading::Stopped(stop) => {
            let token = tokens.get(stop.token).ok_or("no token")?;
            let Place { line, column } = token.place;
            let bytes = text
                .get(token.start as usize..token.end as usize)
                .ok_or("no slice")?;
            let rule = stop.rule.code();
            Ok(format!(in alloc; "{rule} {line}:{column} {bytes}")?)
        }
    }
}

/// Asserts that this is a file.
fn assert_file(rt: &impl Abort, alloc: Global, text: &str) -> Result<(), Fail> {
    let answer = shown(rt, alloc, text)?;
    assert_eq!(rt; answer.as_str(), "file", "{text}");
    Ok(())
}

#[test]
fn reads_files_and_each_form_of_operation(rt: HostRuntime) -> Result<(), Fail> {
    let alloc = rt.alloc();
    assert_file(&rt, alloc, SUM)?;
    assert_file(&rt, alloc, FORMER)?;
    assert_file(&rt, alloc, NET)?;
    for text in FILES.lines() {
        assert_file(&rt, alloc, text)?;
    }
    for operations in OPERATIONS.lines() {
        let text = format!(in alloc; "func.func @f() {{ {operations} return }}")?;
        assert_file(&rt, alloc, text.as_str())?;
    }
    Ok(())
}

#[test]
fn refuses_the_first_token_with_which_no_file_goes_on(rt: HostRuntime) -> Result<(), Fail> {
    let alloc = rt.alloc();
    for line in REFUSALS.lines() {
        let (want, text) = line.split_once(" | ").ok_or("no bar")?;
        let answer = shown(&rt, alloc, text)?;
        assert_eq!(rt; answer.as_str(), want, "{text}");
    }
    Ok(())
}

#[test]
fn refuses_other_words_of_the_former_name(rt: HostRuntime) -> Result<(), Fail> {
    let alloc = rt.alloc();
    let answer = shown(&rt, alloc, FORMER_REFUSED)?;
    assert_eq!(rt; answer.as_str(), "P2 7:10 mesh.broadcast");
    Ok(())
}

#[test]
fn answers_the_steps_of_the_tree(rt: HostRuntime) -> Result<(), Fail> {
    let alloc = rt.alloc();
    let text = "module {";
    assert!(&rt; text.len() <= LONGEST);
    let tokens = lex(alloc, text.as_bytes())?;
    let Reading::Stopped(stop) = read(alloc, text.as_bytes(), &tokens)? else {
        return Err("read")?;
    };
    let mut line = String::new(alloc);
    for event in &stop.events {
        match event {
            Event::Took => write!(line, "token ")?,
            Event::Opened {
                form,
                alternative,
                size,
            } => {
                let number = form.number();
                write!(line, "{number}.{alternative}/{size} ")?;
            }
        }
    }
    assert_eq!(rt; line.as_str(), "0.0/2 1.0/0 2.0/5 token 3.0/0 token ");
    assert_eq!(rt; Form::Contents.number(), 2);
    Ok(())
}

/// A dense constant with so many brackets open, and closed again or not.
fn nested(alloc: Global, depth: usize, closed: bool) -> Result<String, Fail> {
    let mut text = String::from_str(alloc, "shardrun.call @f(dense<")?;
    for _ in 0..depth {
        text.push_str("[")?;
    }
    if closed {
        for _ in 0..depth {
            text.push_str("]")?;
        }
        text.push_str("> : i8)")?;
    }
    Ok(text)
}

#[test]
fn reads_deep_lists(rt: HostRuntime) -> Result<(), Fail> {
    let alloc = rt.alloc();
    let deep = nested(alloc, 1000, true)?;
    assert_file(&rt, alloc, deep.as_str())?;
    let open = nested(alloc, 100_000, false)?;
    let answer = shown(&rt, alloc, open.as_str())?;
    assert_eq!(rt; answer.as_str(), "P1 1:100024 ");
    Ok(())
}

#[test]
fn reads_a_large_module(rt: HostRuntime) -> Result<(), Fail> {
    let alloc = rt.alloc();
    let mut text = String::from_str(
        alloc,
        "module {\nfunc.func @f(%a: tensor<64x64xi32>, %b: tensor<64x64xi32>) {\n",
    )?;
    for i in 0..9000 {
        write!(
            text,
            "    %{i} = linalg.matmul ins(%a, %b : tensor<64x64xi32>, tensor<64x64xi32>) outs(%b : tensor<64x64xi32>) -> tensor<64x64xi32>\n"
        )?;
    }
    text.push_str("    return\n}\n}\n")?;
    assert_file(&rt, alloc, text.as_str())
}
