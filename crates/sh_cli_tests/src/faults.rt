//! Sources and sinks that are slow or fail.

use crate::partition::partitioned;
use crate::runs::{SUM, ample, assert_source, whole, words_of};
use sh_cli::{Status, Tool, shard_main};
use sh_io::{mem_sink, mem_source};
use std::process::Abort;
use std::test::Fail;

#[test]
fn a_source_may_be_slow(rt: HostRuntime) -> Result<(), Fail> {
    let alloc = rt.alloc();
    let output = partitioned(alloc, "4", "2", "2")?;
    let slow = mem_source(SUM.as_bytes().to_vec(alloc)?, 1, Vec::new(alloc));
    assert_source(&rt, alloc, "--partition", slow, (0, output.as_str(), ""))
}

#[test]
fn a_source_may_fail(rt: HostRuntime) -> Result<(), Fail> {
    let alloc = rt.alloc();
    let want = (10, "", "shard-opt: error 10 read\n");
    for call in [1, 3, 100] {
        let failing = mem_source(SUM.as_bytes().to_vec(alloc)?, 1, vec![in alloc; call]?);
        assert_source(&rt, alloc, "", failing, want)?;
        let failing = mem_source(SUM.as_bytes().to_vec(alloc)?, 1, vec![in alloc; call]?);
        assert_source(&rt, alloc, "--partition", failing, want)?;
    }
    Ok(())
}

#[test]
fn a_failing_output_keeps_a_front(rt: HostRuntime) -> Result<(), Fail> {
    let alloc = rt.alloc();
    let words = words_of(alloc, "--partition")?;
    for (call, written) in [(1, ""), (2, "module {\n ")] {
        let mut src = whole(alloc, SUM)?;
        let mut out = mem_sink(alloc, 4096, 10, vec![in alloc; call]?)?;
        let mut err = ample(alloc)?;
        let status = shard_main(alloc, Tool::Opt, &words, &mut src, &mut out, &mut err);
        assert_eq!(rt; status, Status::Write);
        assert!(rt; out.bytes() == written.as_bytes());
        assert!(rt; err.bytes() == b"shard-opt: error 11 write\n".as_slice());
    }
    Ok(())
}

#[test]
fn a_failing_error_output_changes_no_status(rt: HostRuntime) -> Result<(), Fail> {
    let alloc = rt.alloc();
    let words = words_of(alloc, "")?;
    for (call, written) in [(1, ""), (3, "shard-op")] {
        let mut src = whole(alloc, "module {")?;
        let mut out = ample(alloc)?;
        let mut err = mem_sink(alloc, 64, 4, vec![in alloc; call]?)?;
        let status = shard_main(alloc, Tool::Opt, &words, &mut src, &mut out, &mut err);
        assert_eq!(rt; status.code(), 3);
        assert!(rt; out.bytes().is_empty());
        assert!(rt; err.bytes() == written.as_bytes());
    }
    Ok(())
}
