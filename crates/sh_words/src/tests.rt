use crate::{Options, Tool, WordsRefusal, read_words};
use sh_base::{Order, Traversal};
use std::alloc::Global;
use std::process::Abort;
use std::test::Fail;

/// Each line words of `shard-opt` with one blank between two, and what they give.
const OPT_ROWS: &str = "\
= round
--propagate=forward = forward, round
--propagate=backward = backward, round
--propagate=forward-backward = forward-backward, round
--propagate=backward-forward = backward-forward, round
--partition = partition, round
--simplify = simplify, round
--halo-to-shift = halo-to-shift, round
--halo-to-shift --propagate=forward --partition = forward, partition, halo-to-shift, round
--partition --partition = usage
--propagate=forward --propagate=backward = usage
--propagate=forward --propagate=forward = usage
--propagate= = usage
--propagate=Forward = usage
--propagate=forward=backward = usage
--propagate forward = usage
--propagate = usage
--prop=forward = usage
--part = usage
--partition= = usage
--partition=true = usage
-partition = usage
partition = usage
--Partition = usage
--partition  --simplify = usage
--help = usage
-h = usage
--version = usage
-- = usage
--partition -- = usage
--trace = usage
--links = usage
module.mlir = usage";

/// The same of `shard-run`.
const RUN_ROWS: &str = "\
= round
--order=round = round
--order=reverse = reverse
--order=seed:0 = seed 0
--order=seed:18446744073709551615 = seed 18446744073709551615
--order=seed:18446744073709551616 = usage
--order=seed:00000000000000000007 = seed 7
--order=seed:000000000000000000007 = usage
--order=seed: = usage
--order=seed = usage
--order=seed:+7 = usage
--order=seed:-7 = usage
--order=seed:0x7 = usage
--order=Round = usage
--order= = usage
--order = usage
--order=round --order=reverse = usage
--turns=3 = turns 3
--turns=3,18446744073709551615,00 = turns 3 18446744073709551615 0
--turns=3,18446744073709551616 = usage
--turns= = usage
--turns=1, = usage
--turns=,1 = usage
--turns=1,,2 = usage
--turns=1;2 = usage
--turns=1 --order=round = usage
--order=seed:1 --turns=1 = usage
--turns=1 --trace --device = turns 1, trace, device
--trace = round, trace
--trace=1 = usage
--device = round, device
--device --trace --order=reverse = reverse, trace, device
--generate=7 --size=3 = round, generate 7 3
--size=256 --order=seed:7 --generate=012 = seed 7, generate 12 256
--generate=7 --size=1 = round, generate 7 1
--generate=7 --size=0 = usage
--generate=7 --size=257 = usage
--generate=7 --size=003 = round, generate 7 3
--generate=7 = usage
--size=3 = usage
--generate=7 --size=3 --turns=1 = usage
--generate=7 --size=3 --trace = usage
--device --generate=7 --size=3 = usage
--generate=7 --size=3 --size=3 = usage
--generate --size=3 = usage
--partition = usage
--check = usage
--help = usage";

fn traversal_name(traversal: Traversal) -> &'static str {
    match traversal {
        Traversal::Forward => "forward",
        Traversal::Backward => "backward",
        Traversal::ForwardBackward => "forward-backward",
        Traversal::BackwardForward => "backward-forward",
    }
}

/// Appends the order.
fn push_order(line: &mut String, order: &Order) -> Result<(), Fail> {
    match order {
        Order::Round => line.push_str("round")?,
        Order::Reverse => line.push_str("reverse")?,
        Order::Seed(seed) => write!(line, "seed {seed}")?,
        Order::Listed(turns) => {
            line.push_str("turns")?;
            for turn in turns.as_slice() {
                write!(line, " {turn}")?;
            }
        }
    }
    Ok(())
}

/// Appends a name, where the flag holds.
fn push_flag(line: &mut String, holds: bool, name: &str) -> Result<(), Fail> {
    if holds {
        line.push_str(name)?;
    }
    Ok(())
}

/// The options as the rows have them.
fn shown(alloc: Global, options: &Options) -> Result<String, Fail> {
    let mut line = String::new(alloc);
    if let Some(traversal) = options.propagate {
        write!(line, "{}, ", traversal_name(traversal))?;
    }
    push_flag(&mut line, options.partition, "partition, ")?;
    push_flag(&mut line, options.simplify, "simplify, ")?;
    push_flag(&mut line, options.halo_to_shift, "halo-to-shift, ")?;
    push_order(&mut line, &options.order)?;
    push_flag(&mut line, options.trace, ", trace")?;
    push_flag(&mut line, options.device, ", device")?;
    if let Some(generate) = options.generate {
        write!(line, ", generate {} {}", generate.number, generate.size)?;
    }
    Ok(line)
}

/// The words of a row.
fn words_of(alloc: Global, text: &str) -> Result<Vec<String>, Fail> {
    let mut words = Vec::new(alloc);
    if text.is_empty() {
        return Ok(words);
    }
    for word in text.split(' ') {
        words.push(String::from_str(alloc, word)?)?;
    }
    Ok(words)
}

/// What the words of a row give.
fn answer(alloc: Global, tool: Tool, text: &str) -> Result<String, Fail> {
    let words = words_of(alloc, text)?;
    match read_words(alloc, tool, &words) {
        Ok(options) => shown(alloc, &options),
        Err(WordsRefusal::Usage) => Ok(String::from_str(alloc, "usage")?),
        Err(WordsRefusal::Mem) => Err("no memory")?,
    }
}

/// Compares the answer to the words of each row.
fn assert_rows(rt: &impl Abort, alloc: Global, tool: Tool, rows: &str) -> Result<(), Fail> {
    for row in rows.lines() {
        let (text, want) = row.rsplit_once("= ").ok_or("no answer")?;
        let found = answer(alloc, tool, text.trim_end())?;
        assert_eq!(rt; found.as_str(), want, "{row}");
    }
    Ok(())
}

#[test]
fn words_of_shard_opt(rt: HostRuntime) -> Result<(), Fail> {
    assert_rows(&rt, rt.alloc(), Tool::Opt, OPT_ROWS)
}

#[test]
fn words_of_shard_run(rt: HostRuntime) -> Result<(), Fail> {
    assert_rows(&rt, rt.alloc(), Tool::Run, RUN_ROWS)
}
