use crate::shown::show_moves;
use crate::{Pair, read_shardings};
use sh_plan::{Plan, plan};
use sh_sharding::grid;
use std::alloc::Global;
use std::process::Abort;
use std::test::Fail;

/// Each line two examples of one shape on one grid, the moves of the plan from the one to the other, and
/// what they cost together; then whether halos are dropped or added.
pub const PLANS: &str = "\
2 | 4 4 | 0 | | ; 2 | 4 4 | - / 0 | | ; M3 0 1 : 9
2 | 4 4 | - / 0 | | ; 2 | 4 4 | 0 | | ; M3 1 0 : 9
2 | 4 4 | 0 | | ; 2 | 4 4 | 0 | | ; : 0
2 | 4 4 | | | ; 2 | 4 4 | | | ; : 0
2 | 4 4 | 0 | | ; 2 | 4 4 | | | ; M1 0 : 17
2 | 4 4 | | | ; 2 | 4 4 | - / 0 | | ; M2 1 0 : 1
4 | 4 14 | - / 0 | | 0 2 5 9 14 ; 4 | 4 14 | | | ; M4 1 : 169
4 | 4 14 | | | ; 4 | 4 14 | - / 0 | | 0 2 5 9 14 ; M5 1 : 1
4 | 4 14 | - / 0 | | 0 2 5 9 14 ; 4 | 4 14 | 0 | | ; M4 1, M2 0 0 : 170
2 | 5 | 0 | | ; 2 | 5 | | | ; M4 0 : 6
2 | 5 | | | ; 2 | 5 | 0 | | ; M5 0 : 1
2 2 | 8 8 | 0 1 | | ; 2 2 | 8 8 | 1 0 | | ; M1 0, M3 0 1, M2 0 1, M3 1 0 : 164
2 2 | 8 8 | | | ; 2 2 | 8 8 | 0 1 | | ; M2 0 0, M2 0 1 : 2
2 | | | | ; 2 | | | | ; : 0
4 | 8 | 0 | 1 1 | ; 4 | 8 | 0 | | ; : 0 drop
4 | 8 | 0 | | ; 4 | 8 | 0 | 1 1 | ; : 0 add
4 | 8 | 0 | 1 1 | ; 4 | 8 | 0 | 2 1 | ; : 0 drop add
4 | 8 | 0 | 1 1 | ; 4 | 8 | 0 | 1 1 | ; : 0
4 | 8 | 0 | 1 1 | ; 4 | 8 | | | ; M1 0 : 25 drop
2 2 2 2 | 16 16 4 4 4 4 | 0 1 2 3 | | ; 2 2 2 2 | 16 16 4 4 4 4 | - / 3 2 1 0 | | ; \
M3 0 1, M3 0 1, M3 0 1, M3 0 1 : 131076";

/// The plan between the examples of two lines.
fn plan_of(alloc: Global, from: &str, to: &str) -> Result<Plan, Fail> {
    let Pair { from, to } = read_shardings(alloc, from, to)?;
    Ok(plan(alloc, grid(&from), &from, &to)?)
}

/// A plan's moves, cost and flags.
fn show_plan(alloc: Global, p: &Plan) -> Result<String, Fail> {
    let mut line = show_moves(alloc, p.moves.as_slice())?;
    let cost = p.cost;
    write!(line, " : {cost}")?;
    if p.drop_halos {
        line.push_str(" drop")?;
    }
    if p.add_halos {
        line.push_str(" add")?;
    }
    Ok(line)
}

fn assert_plan(rt: &impl Abort, alloc: Global, row: &str) -> Result<(), Fail> {
    let (from, rest) = row.split_once(';').ok_or("no target")?;
    let (to, want) = rest.split_once(';').ok_or("no plan")?;
    let found = plan_of(alloc, from, to)?;
    let line = show_plan(alloc, &found)?;
    assert_eq!(rt; line.trim(), want.trim(), "{row}");
    Ok(())
}

#[test]
fn plans_at_least_cost(rt: HostRuntime) -> Result<(), Fail> {
    let alloc = rt.alloc();
    for row in PLANS.lines() {
        assert_plan(&rt, alloc, row)?;
    }
    Ok(())
}

/// How many states the table of a plan lists.
fn listed(alloc: Global, from: &str, to: &str) -> Result<usize, Fail> {
    Ok(plan_of(alloc, from, to)?.table.len())
}

#[test]
fn lists_all_states(rt: HostRuntime) -> Result<(), Fail> {
    let alloc = rt.alloc();
    assert_eq!(&rt; listed(alloc, "2 | 4 4 | 0 | |", "2 | 4 4 | - / 0 | |")?, 3);
    let first = "2 2 2 2 | 16 16 4 4 4 4 | 0 1 2 3 | |";
    let second = "2 2 2 2 | 16 16 4 4 4 4 | - / 3 2 1 0 | |";
    assert_eq!(&rt; listed(alloc, first, second)?, 3973);
    Ok(())
}
