//! The one form of text that is partitioned.

use crate::runs::{SUM, assert_run};
use std::alloc::Global;
use std::process::Abort;
use std::test::Fail;

/// What the sum is rewritten to, with `E` for the extent, `L` for a device's part of it and `D` for
/// the number of devices.
const PARTITIONED: &str = "module {
  shard.grid @g(shape = D)
  shardrun.device @f on @g(tensor<Exi32> split_axes = [[0]], tensor<Exi32> split_axes = [[0]]) -> (tensor<Exi32> split_axes = [[0]])
  func.func @f(%arg0 : tensor<Lxi32>, %arg1 : tensor<Lxi32>) -> tensor<Lxi32> {
    %0 = arith.addi %arg0, %arg1 : tensor<Lxi32>
    return %0 : tensor<Lxi32>
  }
}
";

const UNBUILT: (u8, &str, &str) = (14, "", "shard-opt: error 14 unbuilt\n");

/// The sum of vectors of so many cells over so many devices.
fn source(alloc: Global, extent: &str, devices: &str) -> Result<String, Fail> {
    let grid = format!(in alloc; "shape = {devices})")?;
    let text = SUM.replace(alloc, "shape = 2)", grid.as_str())?;
    let part = format!(in alloc; "<{extent}xi32>")?;
    Ok(text.as_str().replace(alloc, "<4xi32>", part.as_str())?)
}

/// What that sum is rewritten to, with so many cells for each device.
pub fn partitioned(
    alloc: Global,
    extent: &str,
    devices: &str,
    local: &str,
) -> Result<String, Fail> {
    let text = PARTITIONED.replace(alloc, "E", extent)?;
    let text = text.as_str().replace(alloc, "L", local)?;
    Ok(text.as_str().replace(alloc, "D", devices)?)
}

#[test]
fn sums_are_partitioned(rt: HostRuntime) -> Result<(), Fail> {
    let alloc = rt.alloc();
    let cases = [
        ("4", "2", "2"),
        ("1048576", "1024", "1024"),
        ("7", "1", "7"),
    ];
    for (extent, devices, local) in cases {
        let text = source(alloc, extent, devices)?;
        let output = partitioned(alloc, extent, devices, local)?;
        let want = (0, output.as_str(), "");
        assert_run(&rt, alloc, "--partition", text.as_str(), want)?;
    }
    Ok(())
}

/// Each row has an extent and a number of devices.
const OTHER: &str = "\
5 2
0 2
1048577 1
4 0
1025 1025
04 2
4 02
+4 2
18446744073709551616 2";

#[test]
fn other_numbers_are_unbuilt(rt: HostRuntime) -> Result<(), Fail> {
    let alloc = rt.alloc();
    for row in OTHER.lines() {
        let (extent, devices) = row.split_once(" ").ok_or("no blank")?;
        let text = source(alloc, extent, devices)?;
        assert_run(&rt, alloc, "--partition", text.as_str(), UNBUILT)?;
    }
    Ok(())
}

#[test]
fn other_texts_are_unbuilt(rt: HostRuntime) -> Result<(), Fail> {
    let alloc = rt.alloc();
    let two_extents = SUM.replacen(alloc, "4xi32", "6xi32", 1)?;
    assert_run(&rt, alloc, "--partition", two_extents.as_str(), UNBUILT)?;
    let without_line_feed = SUM.trim_end();
    assert_run(&rt, alloc, "--partition", without_line_feed, UNBUILT)?;
    let call = "  }\n  shardrun.call @f(dense<8> : tensor<4xi32>, dense<1> : tensor<4xi32>)\n}";
    let called = SUM.replace(alloc, "  }\n}", call)?;
    assert_run(&rt, alloc, "--partition", called.as_str(), UNBUILT)?;
    assert_run(&rt, alloc, "--partition", "", UNBUILT)
}
