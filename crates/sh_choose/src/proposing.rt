//! The proposals for the loops of an operation.
ghost use Rattle.std.specs.Prelude.{◌≡◌, true, ◌∷◌, [], ◌++◌, ◌<◌, ◌↔◌, ℕ, All, IfOk, IsTrue, List, OnOk, Option, Some, length, map};
ghost use Rattle.std.specs.List.{Contains, range_with_len};
ghost use Rattle.sh_iface.specs.declared.options.Split.{Split};
ghost use Rattle.sh_choose.specs.Least.{IsKnown};
ghost use Rattle.sh_choose.specs.Proposals.{listed, proposal_for, proposals, proposals_by};
ghost use Rattle.sh_choose.specs.Thinned.{AreThinned, IsThinned};

use crate::Known;
use crate::exact::{is_exact, split_under};
use sh_base::{Items, Mem, Same};
use sh_grid::Grid;
use sh_iface::{HasLoops, LoopOption, Split};
use sh_sharding::{axes, rank};
use std::alloc::Global;

/// Whether a loop is split in this way.
fn is_split_so(other: &Option<Split>, split: &Split) -> bool
    ensures { IsTrue result ↔ (other.now ≡ Some split.now) }
{
    match other {
        None => false,
        Some(other) => other.axes.same(&split.axes) && other.starts.same(&split.starts),
    }
}

/// Whether a proposal stands among those of a loop.
fn is_among(kept: &[Option<Split>], split: &Split) -> bool
    ensures { result ≡ true → Contains kept.now (Some split.now) }
{
    for other in kept {
        if is_split_so(other, split) {
            return true;
        }
    }
    false
}

/// Adds a proposal to those of a loop. Of equal ones the first counts, and no other is kept.
#[tactic(auto, using(crate::proofs::ThinnedLaws::more_kept, crate::proofs::ThinnedLaws::more_left))]
fn add(proposals: &mut LoopOption, split: Split) -> Result<(), Mem>
    ensures { OnOk result ((all : List (Option Split)) → IsThinned all proposals.old
        → IsThinned (all ++ Some split ∷ []) proposals.new) }
{
    if is_among(proposals.as_slice(), &split) {
        return Ok(());
    }
    proposals.push(Some(split))
}

/// What a dimension of a known sharding proposes for a loop.
#[tactic(auto, unfolding(crate::specs::Proposals::proposal_for))]
fn proposal<O: HasLoops>(
    alloc: Global,
    op: &O,
    g: &Grid,
    k: &Known,
    l: u64,
    dim: u64,
) -> Result<Option<Split>, Mem>
    requires l { l < length (O.meaning op.now).nest.loops }
    requires known { IsKnown (O.meaning op.now).nest g.now k.now }
    requires dim { dim < length k.now.sharding.dimensions }
    ensures { IfOk result (λ p. p ≡ proposal_for (O.meaning op.now).nest l k.now dim) }
{
    let Some(follow) = op.follows(k.v, dim) else {
        return Ok(None);
    };
    if follow.loop_index != l {
        return Ok(None);
    }
    if axes(&k.sharding, dim).extents().is_empty() {
        return Ok(None);
    }
    if !is_exact(&k.sharding, dim, follow.how) {
        return Ok(None);
    }
    let split = split_under(alloc, &k.sharding, dim, op.loop_extent(l), follow.how)?;
    Ok(Some(split))
}

/// Adds what a dimension of a known sharding proposes for a loop.
#[tactic(auto, using(crate::proofs::ThinnedLaws::none_listed))]
fn add_by_dimension<O: HasLoops>(
    alloc: Global,
    proposals: &mut LoopOption,
    op: &O,
    g: &Grid,
    k: &Known,
    l: u64,
    dim: u64,
) -> Result<(), Mem>
    requires l { l < length (O.meaning op.now).nest.loops }
    requires known { IsKnown (O.meaning op.now).nest g.now k.now }
    requires dim { dim < length k.now.sharding.dimensions }
    ensures { OnOk result ((all : List (Option Split)) → IsThinned all proposals.old
        → IsThinned (all ++ listed (proposal_for (O.meaning op.now).nest l k.now dim))
        proposals.new) }
{
    match proposal(alloc, op, g, k, l, dim)? {
        None => Ok(()),
        Some(split) => add(proposals, split),
    }
}

/// Adds what a known sharding proposes for a loop.
fn add_by_known<O: HasLoops>(
    alloc: Global,
    proposals: &mut LoopOption,
    op: &O,
    g: &Grid,
    k: &Known,
    l: u64,
) -> Result<(), Mem>
    requires l { l < length (O.meaning op.now).nest.loops }
    requires known { IsKnown (O.meaning op.now).nest g.now k.now }
    ensures { OnOk result ((all : List (Option Split)) → IsThinned all proposals.old
        → IsThinned (all ++ proposals_by (O.meaning op.now).nest l k.now) proposals.new) }
{
    for dim in 0..rank(&k.sharding) {
        add_by_dimension(alloc, proposals, op, g, k, l, dim)?;
    }
    Ok(())
}

/// The proposals for a loop, without repetitions.
fn proposals_of<O: HasLoops>(
    alloc: Global,
    op: &O,
    g: &Grid,
    known: &[Known],
    l: u64,
) -> Result<LoopOption, Mem>
    requires l { l < length (O.meaning op.now).nest.loops }
    requires known { All (IsKnown (O.meaning op.now).nest g.now) known.now }
    ensures { IfOk result (λ kept. IsThinned (proposals (O.meaning op.now).nest known.now l) kept) }
{
    let mut proposals = Items::new(alloc);
    proposals.push(None)?;
    for k in known {
        add_by_known(alloc, &mut proposals, op, g, k, l)?;
    }
    Ok(proposals)
}

/// The proposals for each loop, without repetitions.
pub(crate) fn all_proposals<O: HasLoops>(
    alloc: Global,
    op: &O,
    g: &Grid,
    known: &[Known],
) -> Result<Items<LoopOption>, Mem>
    requires { All (IsKnown (O.meaning op.now).nest g.now) known.now }
    ensures { IfOk result (λ kept. AreThinned (map (proposals (O.meaning op.now).nest known.now)
        (range_with_len 0 (length (O.meaning op.now).nest.loops))) kept) }
{
    let mut all = Items::new(alloc);
    for l in 0..op.loop_count() {
        let one = proposals_of(alloc, op, g, known, l)?;
        all.push(one)?;
    }
    Ok(all)
}
