//! Words that aren't accepted, and words that ask for what isn't built. Neither reads the source.

use crate::runs::assert_source;
use sh_io::mem_source;
use std::alloc::Global;
use std::process::Abort;
use std::test::Fail;

const NOT_ACCEPTED: &str = "\
--partitio
--partition --partition
--help
--partition=
partition
--propagate
--propagate=sideways
--device";

const NOT_BUILT: &str = "\
--propagate=forward
--simplify
--halo-to-shift
--propagate=forward --partition --simplify";

/// The source fails at its first call.
fn assert_unread(
    rt: &impl Abort,
    alloc: Global,
    rows: &str,
    code: u8,
    line: &str,
) -> Result<(), Fail> {
    for words in rows.lines() {
        let src = mem_source(b"module {}".to_vec(alloc)?, 1, vec![in alloc; 1]?);
        assert_source(rt, alloc, words, src, (code, "", line))?;
    }
    Ok(())
}

#[test]
fn words_that_are_not_accepted_are_usage(rt: HostRuntime) -> Result<(), Fail> {
    assert_unread(
        &rt,
        rt.alloc(),
        NOT_ACCEPTED,
        2,
        "shard-opt: error 2 usage\n",
    )
}

#[test]
fn words_for_what_is_not_built_are_unbuilt(rt: HostRuntime) -> Result<(), Fail> {
    assert_unread(
        &rt,
        rt.alloc(),
        NOT_BUILT,
        14,
        "shard-opt: error 14 unbuilt\n",
    )
}
