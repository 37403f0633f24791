use sh_cli::{Status, Tool, shard_main};
use sh_io::{MemSink, MemSource, mem_sink, mem_source};
use std::alloc::Global;
use std::process::Abort;
use std::test::Fail;

/// A sum of vectors of 4 cells over two devices.
pub const SUM: &str = "module {
  shard.grid @g(shape = 2)
  func.func @f(%a: tensor<4xi32>, %b: tensor<4xi32>) -> tensor<4xi32> {
    %s = shard.sharding @g split_axes = [[0]] : !shard.sharding
    %a1 = shard.shard %a to %s : tensor<4xi32>
    %b1 = shard.shard %b to %s : tensor<4xi32>
    %c = arith.addi %a1, %b1 : tensor<4xi32>
    %c1 = shard.shard %c to %s : tensor<4xi32>
    return %c1 : tensor<4xi32>
  }
}
";

/// A source that gives all it has in one call, and never fails.
pub fn whole(alloc: Global, text: &str) -> Result<MemSource, Fail> {
    Ok(mem_source(text.as_bytes().to_vec(alloc)?, u64::MAX, Vec::new(alloc)))
}

/// A sink that takes all in one call, and never fails.
pub fn ample(alloc: Global) -> Result<MemSink, Fail> {
    Ok(mem_sink(alloc, 4096, 4096, Vec::new(alloc))?)
}

/// The words of a line.
pub fn words_of(alloc: Global, line: &str) -> Result<Vec<String>, Fail> {
    let mut words = Vec::new(alloc);
    for word in line.split_whitespace() {
        words.push(String::from_str(alloc, word)?)?;
    }
    Ok(words)
}

/// Runs `shard-opt` on a source, and compares the status's number, the output and the error line.
pub fn assert_source(
    rt: &impl Abort,
    alloc: Global,
    words: &str,
    mut src: MemSource,
    want: (u8, &str, &str),
) -> Result<(), Fail> {
    let words = words_of(alloc, words)?;
    let mut out = ample(alloc)?;
    let mut err = ample(alloc)?;
    let status = shard_main(alloc, Tool::Opt, &words, &mut src, &mut out, &mut err);
    let (code, output, line) = want;
    assert_eq!(rt; status.code(), code);
    assert!(rt; out.bytes() == output.as_bytes());
    assert!(rt; err.bytes() == line.as_bytes());
    Ok(())
}

/// The same on a text.
pub fn assert_run(
    rt: &impl Abort,
    alloc: Global,
    words: &str,
    text: &str,
    want: (u8, &str, &str),
) -> Result<(), Fail> {
    assert_source(rt, alloc, words, whole(alloc, text)?, want)
}

/// The status of `shard-opt` without a word on so many bytes of one kind behind a front.
pub fn status_of(alloc: Global, front: &str, byte: u8, count: usize) -> Result<Status, Fail> {
    let mut bytes = front.as_bytes().to_vec(alloc)?;
    bytes.resize(count, byte)?;
    let mut src = mem_source(bytes, u64::MAX, Vec::new(alloc));
    let mut out = ample(alloc)?;
    let mut err = ample(alloc)?;
    let words = Vec::new(alloc);
    Ok(shard_main(alloc, Tool::Opt, &words, &mut src, &mut out, &mut err))
}
