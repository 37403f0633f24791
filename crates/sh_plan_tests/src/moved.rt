ghost use Rattle.std.specs.Prelude.{◌≡◌, length};
ghost use Rattle.sh_sharding.specs.Made.{IsState};
ghost use Rattle.sh_sharding.specs.Sharding.{whole_of};

use crate::{read_pair, read_state};
use sh_plan::{Move, is_allowed, is_named, moved};
use sh_sharding::{Sharding, same};
use std::alloc::Global;
use std::process::Abort;
use std::test::Fail;

/// The sharding after a move that may be made.
pub fn after(alloc: Global, from: &Sharding, to: &Sharding, m: Move) -> Result<Sharding, Fail>
    requires from { IsState from.now }
    requires to { IsState to.now }
    requires grid { from.now.grid ≡ to.now.grid }
    requires whole { whole_of from.now ≡ whole_of to.now }
    requires rank { length from.now.dimensions ≡ length to.now.dimensions }
{
    if !is_named(from, m) {
        return Err("no such dimension or axis")?;
    }
    if !is_allowed(from, to, m) {
        return Err("not allowed")?;
    }
    Ok(moved(alloc, from, to, m)?)
}

/// Whether a move leads to the sharding of a third example.
fn leads(alloc: Global, from: &str, to: &str, m: Move, want: &str) -> Result<bool, Fail> {
    let pair = read_pair(alloc, from, to)?;
    let found = after(alloc, &pair.from, &pair.to, m)?;
    Ok(same(&found, &read_state(alloc, want)?))
}

#[test]
fn moves_axes(rt: HostRuntime) -> Result<(), Fail> {
    let alloc = rt.alloc();
    let (first, both) = ("2 2 | 8 8 | 0 | |", "2 2 | 8 8 | 0 1 | |");
    let apart = "2 2 | 8 8 | 0 / 1 | |";
    assert!(rt; leads(alloc, both, apart, Move::M1 { d: 0 }, first)?);
    assert!(rt; leads(alloc, first, apart, Move::M2 { d: 0, a: 1 }, both)?);
    assert!(rt; leads(alloc, first, apart, Move::M2 { d: 1, a: 1 }, apart)?);
    assert!(rt; leads(alloc, both, apart, Move::M3 { d: 0, e: 1 }, apart)?);
    assert!(rt; leads(alloc, apart, apart, Move::M3 { d: 1, e: 0 }, both)?);
    Ok(())
}

#[test]
fn gathers_and_splits_by_offsets(rt: HostRuntime) -> Result<(), Fail> {
    let alloc = rt.alloc();
    let (offsets, gathered) = ("4 | 4 14 | - / 0 | | 0 2 5 9 14", "4 | 4 14 | | |");
    assert!(rt; leads(alloc, offsets, gathered, Move::M4 { d: 1 }, gathered)?);
    assert!(rt; leads(alloc, gathered, offsets, Move::M5 { d: 1 }, offsets)?);
    Ok(())
}
