ghost use Rattle.std.specs.Prelude.{◌≡◌, length};

use crate::read_pair;
use crate::shown::show_moves;
use sh_plan::{Move, allowed_moves, is_allowed, is_named};
use sh_sharding::Sharding;
use std::alloc::Global;
use std::process::Abort;
use std::test::Fail;

/// Each line a state and a target of its shape on its grid, and the moves that may be made there.
const ALLOWED: &str = "\
2 | 4 4 | 0 | | ; 2 | 4 4 | - / 0 | | ; M1 0, M3 0 1
2 | 4 4 | | | ; 2 | 4 4 | - / 0 | | ; M2 0 0, M2 1 0
4 | 4 14 | - / 0 | | 0 2 5 9 14 ; 4 | 4 14 | | | ; M4 1
4 | 4 14 | | | ; 4 | 4 14 | - / 0 | | 0 2 5 9 14 ; M2 0 0, M5 1
4 | 4 14 | 0 | | ; 4 | 4 14 | - / 0 | | 0 2 5 9 14 ; M1 0
2 2 | 8 8 | 0 / 1 | | ; 2 2 | 8 8 | | | ; M1 0, M1 1, M3 0 1, M3 1 0
2 3 | 12 12 | 0 | | ; 2 3 | 12 12 | | | ; M1 0, M2 0 1, M2 1 1, M3 0 1
2 3 | 4 4 | | | ; 2 3 | 4 4 | | | ; M2 0 0, M2 1 0
2 | 5 | 0 | | ; 2 | 5 | 0 | | ; M4 0
2 | | | | ; 2 | | | | ; ";

/// The moves that may be made, in order.
fn allowed_text(alloc: Global, from: &str, to: &str) -> Result<String, Fail> {
    let pair = read_pair(alloc, from, to)?;
    let moves = allowed_moves(alloc, &pair.from, &pair.to)?;
    show_moves(alloc, moves.as_slice())
}

fn assert_allowed(rt: &impl Abort, alloc: Global, row: &str) -> Result<(), Fail> {
    let (from, rest) = row.split_once(';').ok_or("no target")?;
    let (to, want) = rest.split_once(';').ok_or("no moves")?;
    let found = allowed_text(alloc, from, to)?;
    assert_eq!(rt; found.as_str(), want.trim(), "{row}");
    Ok(())
}

#[test]
fn lists_the_moves_of_a_state_in_order(rt: HostRuntime) -> Result<(), Fail> {
    let alloc = rt.alloc();
    for row in ALLOWED.lines() {
        assert_allowed(&rt, alloc, row)?;
    }
    Ok(())
}

/// Whether a move may be made on the way from the one to the other.
fn allows(from: &Sharding, to: &Sharding, m: Move) -> Result<bool, Fail>
    requires grid { from.now.grid ≡ to.now.grid }
    requires rank { length from.now.dimensions ≡ length to.now.dimensions }
{
    if !is_named(from, m) {
        return Err("no such dimension or axis")?;
    }
    Ok(is_allowed(from, to, m))
}

fn allows_between(alloc: Global, from: &str, to: &str, m: Move) -> Result<bool, Fail> {
    let pair = read_pair(alloc, from, to)?;
    allows(&pair.from, &pair.to, m)
}

#[test]
fn allows_moves_between_even_dimensions(rt: HostRuntime) -> Result<(), Fail> {
    let alloc = rt.alloc();
    let (rows, columns) = ("2 | 4 4 | 0 | |", "2 | 4 4 | - / 0 | |");
    assert!(rt; allows_between(alloc, rows, columns, Move::M3 { d: 0, e: 1 })?);
    assert!(rt; !allows_between(alloc, rows, columns, Move::M3 { d: 1, e: 0 })?);
    assert!(rt; !allows_between(alloc, rows, columns, Move::M3 { d: 0, e: 0 })?);
    assert!(rt; allows_between(alloc, rows, columns, Move::M1 { d: 0 })?);
    assert!(rt; !allows_between(alloc, rows, columns, Move::M1 { d: 1 })?);
    assert!(rt; !allows_between(alloc, rows, columns, Move::M2 { d: 1, a: 0 })?);
    assert!(rt; !allows_between(alloc, rows, columns, Move::M4 { d: 0 })?);
    assert!(rt; !allows_between(alloc, rows, columns, Move::M5 { d: 1 })?);
    Ok(())
}

#[test]
fn gathers_uneven_dimensions_and_splits_as_the_target(rt: HostRuntime) -> Result<(), Fail> {
    let alloc = rt.alloc();
    let (uneven, gathered) = ("2 | 5 | 0 | |", "2 | 5 | | |");
    assert!(rt; allows_between(alloc, uneven, gathered, Move::M4 { d: 0 })?);
    assert!(rt; !allows_between(alloc, uneven, gathered, Move::M1 { d: 0 })?);
    assert!(rt; allows_between(alloc, gathered, uneven, Move::M5 { d: 0 })?);
    assert!(rt; !allows_between(alloc, gathered, uneven, Move::M2 { d: 0, a: 0 })?);
    assert!(rt; !allows_between(alloc, gathered, uneven, Move::M4 { d: 0 })?);
    Ok(())
}
