//! Texts as long as the limit.

use crate::runs::{assert_source, status_of};
use sh_base::{Place, Refusal, Rule};
use sh_cli::{Passed, Status};
use sh_io::mem_source;
use std::process::Abort;
use std::test::Fail;

const MOST: usize = 16_777_216;

#[test]
fn the_input_is_limited(rt: HostRuntime) -> Result<(), Fail> {
    let alloc = rt.alloc();
    let most = vec![in alloc; b' '; MOST]?;
    let src = mem_source(most, u64::MAX, Vec::new(alloc));
    assert_source(&rt, alloc, "", src, (0, "module {\n}\n", ""))?;
    let more = vec![in alloc; b' '; MOST + 1]?;
    let src = mem_source(more, u64::MAX, Vec::new(alloc));
    assert_source(&rt, alloc, "", src, (12, "", "shard-opt: error 12 L1\n"))?;
    let status = status_of(alloc, "", b' ', 20_000_000)?;
    assert_eq!(rt; status, Status::Limit(Passed::Input));
    Ok(())
}

#[test]
fn open_brackets_may_be_many(rt: HostRuntime) -> Result<(), Fail> {
    let alloc = rt.alloc();
    let place = Place {
        line: 1,
        column: 100_024,
    };
    let refusal = Refusal {
        place,
        rule: Rule::P1,
    };
    let status = status_of(alloc, "shardrun.call @f(dense<", b'[', 100_023)?;
    assert_eq!(rt; status, Status::Text(refusal));
    Ok(())
}
