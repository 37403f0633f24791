ghost use Rattle.std.specs.Prelude.{◌≡◌, ◌↔◌, All, IsTrue};
ghost use Rattle.sh_sharding.specs.Sharding.{whole_of};
ghost use Rattle.sh_plan.specs.Checks.{IsEntryFor};

use crate::pairs::{share_grid, share_whole};
use crate::plans::PLANS;
use crate::{Pair, read_shardings};
use sh_base::{Duplicate, Items};
use sh_plan::{Distance, Distances, Move, Plan, check_plan, plan};
use sh_sharding::{Sharding, grid};
use std::alloc::Global;
use std::process::Abort;
use std::test::Fail;

/// A plan of one move, which leads from rows to columns. Its table has the number 1 for the state that
/// isn't split, 0 for columns and 9 for rows, in this order.
const ROWS: &str = "2 | 4 4 | 0 | |";

const COLUMNS: &str = "2 | 4 4 | - / 0 | |";

/// Each line places in that table, the numbers that are put there, and whether the plan with the
/// entries of these places and numbers is accepted.
const TABLES: &str = "\
0 1 2 : 1 0 9 : yes
0 1 2 : 0 0 9 : yes
0 1 2 : 1 0 8 : no
0 1 2 : 1 0 10 : no
0 1 2 : 2 0 9 : no
0 1 2 : 1 1 9 : no
1 0 2 : 0 1 9 : no
0 2 1 : 1 9 0 : no
0 1 1 2 : 1 0 0 9 : no
0 0 1 2 : 1 1 0 9 : no
1 2 : 0 9 : no
0 2 : 1 9 : no
0 1 : 1 0 : no
: : no";

/// Whether an entry's sharding has a target's shape and stands on its grid.
fn is_entry(to: &Sharding, e: &Distance) -> bool
    ensures { IsTrue result ↔ IsEntryFor to.now e.now }
{
    share_grid(&e.sharding, to) && share_whole(&e.sharding, to)
}

/// The same of all entries.
fn are_entries(to: &Sharding, table: &[Distance]) -> bool
    ensures { IsTrue result ↔ All (IsEntryFor to.now) table.now }
{
    table.iter().all(|e| is_entry(to, e))
}

/// Whether the check accepts a plan.
fn accepts(from: &Sharding, to: &Sharding, p: &Plan) -> Result<bool, Fail>
    requires grid { from.now.grid ≡ to.now.grid }
    requires whole { whole_of from.now ≡ whole_of to.now }
{
    if !are_entries(to, p.table.as_slice()) {
        return Err("no table for this target")?;
    }
    Ok(check_plan(grid(from), from, to, p))
}

/// Whether the check accepts the plan between two examples.
fn accepts_own(alloc: Global, from: &str, to: &str) -> Result<bool, Fail> {
    let Pair { from, to } = read_shardings(alloc, from, to)?;
    let found = plan(alloc, grid(&from), &from, &to)?;
    accepts(&from, &to, &found)
}

fn assert_accepted(rt: &impl Abort, alloc: Global, row: &str) -> Result<(), Fail> {
    let (from, rest) = row.split_once(';').ok_or("no target")?;
    let (to, _) = rest.split_once(';').ok_or("no plan")?;
    assert!(rt; accepts_own(alloc, from, to)?, "{row}");
    Ok(())
}

#[test]
fn accepts_all_plans(rt: HostRuntime) -> Result<(), Fail> {
    let alloc = rt.alloc();
    for row in PLANS.lines() {
        assert_accepted(&rt, alloc, row)?;
    }
    Ok(())
}

/// Numbers between blanks.
fn numbers(alloc: Global, text: &str) -> Result<Vec<u64>, Fail> {
    let mut found = Vec::new(alloc);
    for word in text.split_whitespace() {
        found.push(word.parse::<u64>().ok().ok_or("no number")?)?;
    }
    Ok(found)
}

/// The entries at some places, with other numbers.
fn table_at(
    alloc: Global,
    table: &[Distance],
    places: &[u64],
    numbers: &[u64],
) -> Result<Distances, Fail> {
    let mut made = Items::new(alloc);
    for (place, cost) in places.iter().zip(numbers.iter()) {
        let entry = table.get(*place as usize).ok_or("no such entry")?;
        let sharding = entry.sharding.duplicate(alloc)?;
        made.push(Distance {
            sharding,
            cost: *cost,
        })?;
    }
    Ok(made)
}

/// Whether the check accepts the plan from rows to columns with such a table.
fn accepts_table(alloc: Global, places: &str, costs: &str) -> Result<bool, Fail> {
    let Pair { from, to } = read_shardings(alloc, ROWS, COLUMNS)?;
    let mut found = plan(alloc, grid(&from), &from, &to)?;
    let places = numbers(alloc, places)?;
    let costs = numbers(alloc, costs)?;
    found.table = table_at(alloc, found.table.as_slice(), &places, &costs)?;
    accepts(&from, &to, &found)
}

fn assert_table(rt: &impl Abort, alloc: Global, row: &str) -> Result<(), Fail> {
    let (places, rest) = row.split_once(':').ok_or("no numbers")?;
    let (costs, want) = rest.split_once(':').ok_or("no answer")?;
    assert_eq!(rt;
        accepts_table(alloc, places, costs)?,
        want.trim() == "yes",
        "{row}"
    );
    Ok(())
}

#[test]
fn refuses_other_tables(rt: HostRuntime) -> Result<(), Fail> {
    let alloc = rt.alloc();
    for row in TABLES.lines() {
        assert_table(&rt, alloc, row)?;
    }
    Ok(())
}

/// Whether the check accepts the plan from rows to columns with this cost and these flags.
fn accepts_with(alloc: Global, cost: u64, drop_halos: bool, add_halos: bool) -> Result<bool, Fail> {
    let Pair { from, to } = read_shardings(alloc, ROWS, COLUMNS)?;
    let mut found = plan(alloc, grid(&from), &from, &to)?;
    found.cost = cost;
    found.drop_halos = drop_halos;
    found.add_halos = add_halos;
    accepts(&from, &to, &found)
}

#[test]
fn refuses_other_costs_and_flags(rt: HostRuntime) -> Result<(), Fail> {
    let alloc = rt.alloc();
    assert!(rt; accepts_with(alloc, 9, false, false)?);
    assert!(rt; !accepts_with(alloc, 8, false, false)?);
    assert!(rt; !accepts_with(alloc, 10, false, false)?);
    assert!(rt; !accepts_with(alloc, 9, true, false)?);
    assert!(rt; !accepts_with(alloc, 9, false, true)?);
    Ok(())
}

/// Whether the check accepts the plan between two examples with these moves, at this cost.
fn accepts_moves(
    alloc: Global,
    from: &str,
    to: &str,
    moves: &[Move],
    cost: u64,
) -> Result<bool, Fail> {
    let Pair { from, to } = read_shardings(alloc, from, to)?;
    let mut found = plan(alloc, grid(&from), &from, &to)?;
    found.moves = Items::from_vec(Vec::from_slice(alloc, moves)?);
    found.cost = cost;
    accepts(&from, &to, &found)
}

#[test]
fn refuses_other_moves(rt: HostRuntime) -> Result<(), Fail> {
    let alloc = rt.alloc();
    let gathers = [Move::M1 { d: 0 }, Move::M2 { d: 1, a: 0 }];
    assert!(rt; !accepts_moves(alloc, ROWS, COLUMNS, &gathers, 18)?);
    assert!(rt; !accepts_moves(alloc, ROWS, COLUMNS, &gathers, 9)?);
    assert!(rt; !accepts_moves(alloc, ROWS, COLUMNS, &[], 9)?);
    assert!(rt; !accepts_moves(alloc, ROWS, COLUMNS, &[Move::M3 { d: 1, e: 0 }], 9)?);
    assert!(rt; !accepts_moves(alloc, ROWS, COLUMNS, &[Move::M3 { d: 0, e: 2 }], 9)?);
    Ok(())
}

#[test]
fn accepts_another_least_way(rt: HostRuntime) -> Result<(), Fail> {
    let alloc = rt.alloc();
    let (whole, split) = ("2 2 | 8 8 | | |", "2 2 | 8 8 | 0 / 1 | |");
    let first = [Move::M2 { d: 0, a: 0 }, Move::M2 { d: 1, a: 1 }];
    let second = [Move::M2 { d: 1, a: 1 }, Move::M2 { d: 0, a: 0 }];
    assert!(rt; accepts_moves(alloc, whole, split, &first, 2)?);
    assert!(rt; accepts_moves(alloc, whole, split, &second, 2)?);
    Ok(())
}
