use crate::read_pair;
use sh_plan::cost;
use std::alloc::Global;
use std::process::Abort;
use std::test::Fail;

/// Each line two examples of one shape on one grid, and what the move between them costs.
const COSTS: &str = "\
2 | 4 4 | 0 | | ; 2 | 4 4 | - / 0 | | ; 9
2 | 4 4 | 0 | | ; 2 | 4 4 | | | ; 17
2 | 4 4 | | | ; 2 | 4 4 | - / 0 | | ; 1
2 | 4 4 | 0 | | ; 2 | 4 4 | 0 | | ; 1
4 | 4 14 | - / 0 | | 0 2 5 9 14 ; 4 | 4 14 | | | ; 169
4 | 4 14 | | | ; 4 | 4 14 | - / 0 | | 0 2 5 9 14 ; 1
2 2 2 2 | 16 16 4 4 4 4 | 0 1 2 3 | | ; 2 2 2 2 | 16 16 4 4 4 4 | 0 1 2 / 3 | | ; 32769
2 | 0 3 | 0 | | ; 2 | 0 3 | | | ; 1
2 | | | | ; 2 | | | | ; 1";

/// What the move from the example of one line to that of another costs.
fn cost_of(alloc: Global, from: &str, to: &str) -> Result<u64, Fail> {
    let pair = read_pair(alloc, from, to)?;
    Ok(cost(&pair.from, &pair.to))
}

fn assert_cost(rt: &impl Abort, alloc: Global, row: &str) -> Result<(), Fail> {
    let (from, rest) = row.split_once(';').ok_or("no second")?;
    let (to, want) = rest.split_once(';').ok_or("no cost")?;
    let want = want.trim().parse::<u64>().ok().ok_or("no number")?;
    assert_eq!(rt; cost_of(alloc, from, to)?, want, "{row}");
    Ok(())
}

#[test]
fn counts_what_devices_receive(rt: HostRuntime) -> Result<(), Fail> {
    let alloc = rt.alloc();
    for row in COSTS.lines() {
        assert_cost(&rt, alloc, row)?;
    }
    Ok(())
}
