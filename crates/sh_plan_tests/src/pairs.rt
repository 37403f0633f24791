ghost use Rattle.std.specs.Prelude.{◌≡◌, ◌↔◌, IfOk, IsTrue, OnOk, length};
ghost use Rattle.sh_sharding.specs.Made.{IsState};
ghost use Rattle.sh_sharding.specs.Sharding.{whole_of};

use sh_base::Same;
use sh_sharding::{Sharding, grid, rank, whole, without_halos};
use sh_sharding_tests::{Unread, admit_example};
use std::alloc::Global;

/// Two shardings of one shape on one grid.
#[derive(Drop)]
pub struct Pair {
    pub from: Sharding,
    pub to: Sharding,
}

pub(crate) fn share_grid(a: &Sharding, b: &Sharding) -> bool
    ensures { IsTrue result ↔ (a.now.grid ≡ b.now.grid) }
{
    grid(a).same(grid(b))
}

pub(crate) fn share_whole(a: &Sharding, b: &Sharding) -> bool
    ensures { IsTrue result ↔ (whole_of a.now ≡ whole_of b.now) }
{
    whole(a).same(whole(b))
}

/// Refuses shardings on two grids or of two shapes.
pub(crate) fn match_up(from: &Sharding, to: &Sharding) -> Result<(), Unread>
    ensures grid { OnOk result (from.now.grid ≡ to.now.grid) }
    ensures whole { OnOk result (whole_of from.now ≡ whole_of to.now) }
{
    if !share_grid(from, to) {
        return Err(Unread::Text("two grids"));
    }
    if !share_whole(from, to) {
        return Err(Unread::Text("two shapes"));
    }
    Ok(())
}

/// A sharding without its halos.
#[tactic(auto, using(sh_sharding::proofs::MadeLaws::made_plain))]
fn state(alloc: Global, s: &Sharding) -> Result<Sharding, Unread>
    ensures { IfOk result (λ state. IsState state) }
{
    let _admitted = rank(s);
    Ok(without_halos(alloc, s)?)
}

/// The sharding of an example that is admitted, without its halos.
pub fn read_state(alloc: Global, line: &str) -> Result<Sharding, Unread>
    ensures { IfOk result (λ state. IsState state) }
{
    let sharded = admit_example(alloc, line)?;
    state(alloc, &sharded.sharding)
}

/// Two shardings on equal grids and of equal shapes, without their halos.
pub fn states(alloc: Global, from: &Sharding, to: &Sharding) -> Result<Pair, Unread>
    ensures from { IfOk result (λ pair. IsState pair.from) }
    ensures to { IfOk result (λ pair. IsState pair.to) }
    ensures grid { IfOk result (λ pair. pair.from.grid ≡ pair.to.grid) }
    ensures whole { IfOk result (λ pair. whole_of pair.from ≡ whole_of pair.to) }
    ensures rank { IfOk result (λ pair. length pair.from.dimensions ≡ length pair.to.dimensions) }
{
    let from = state(alloc, from)?;
    let to = state(alloc, to)?;
    match_up(&from, &to)?;
    Ok(Pair { from, to })
}

/// The shardings of two examples that are admitted, on equal grids and of equal shapes.
pub fn read_shardings(alloc: Global, from: &str, to: &str) -> Result<Pair, Unread>
    ensures grid { IfOk result (λ pair. pair.from.grid ≡ pair.to.grid) }
    ensures whole { IfOk result (λ pair. whole_of pair.from ≡ whole_of pair.to) }
{
    let from = admit_example(alloc, from)?.sharding;
    let to = admit_example(alloc, to)?.sharding;
    match_up(&from, &to)?;
    Ok(Pair { from, to })
}

/// The same without their halos.
pub fn read_pair(alloc: Global, from: &str, to: &str) -> Result<Pair, Unread>
    ensures from { IfOk result (λ pair. IsState pair.from) }
    ensures to { IfOk result (λ pair. IsState pair.to) }
    ensures grid { IfOk result (λ pair. pair.from.grid ≡ pair.to.grid) }
    ensures whole { IfOk result (λ pair. whole_of pair.from ≡ whole_of pair.to) }
    ensures rank { IfOk result (λ pair. length pair.from.dimensions ≡ length pair.to.dimensions) }
{
    let from = admit_example(alloc, from)?.sharding;
    let to = admit_example(alloc, to)?.sharding;
    states(alloc, &from, &to)
}
