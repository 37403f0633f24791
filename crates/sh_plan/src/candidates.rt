ghost use Rattle.std.specs.Prelude.{◌≡◌, ◌++◌, All, IfOk, OnOk, filter, length, map};
ghost use Rattle.std.specs.List.{range_with_len};
ghost use Rattle.sh_plan.specs.declared.moves.Move.TheVariants.{M2, M3};
ghost use Rattle.sh_plan.specs.Moves.{IsNamedAt, candidates, each_m1, each_m2, each_m3, each_m4, each_m5, may_be, moves_from};

use crate::{Move, Moves, is_allowed};
use sh_base::{Items, Mem};
use sh_grid::extents;
use sh_sharding::{Sharding, grid, rank};
use std::alloc::Global;

fn push_each_m1(moves: &mut Moves, rank: u64) -> Result<(), Mem>
    ensures { OnOk result (moves.new ≡ moves.old ++ each_m1 rank) }
{
    for d in 0..rank {
        moves.push(Move::M1 { d })?;
    }
    Ok(())
}

fn push_m2_of(moves: &mut Moves, d: u64, axes: u64) -> Result<(), Mem>
    ensures { OnOk result (moves.new ≡ moves.old ++ map (M2 d) (range_with_len 0 axes)) }
{
    for a in 0..axes {
        moves.push(Move::M2 { d, a })?;
    }
    Ok(())
}

fn push_each_m2(moves: &mut Moves, axes: u64, rank: u64) -> Result<(), Mem>
    ensures { OnOk result (moves.new ≡ moves.old ++ each_m2 axes rank) }
{
    for d in 0..rank {
        push_m2_of(moves, d, axes)?;
    }
    Ok(())
}

fn push_m3_of(moves: &mut Moves, d: u64, rank: u64) -> Result<(), Mem>
    ensures { OnOk result (moves.new ≡ moves.old ++ map (M3 d) (range_with_len 0 rank)) }
{
    for e in 0..rank {
        moves.push(Move::M3 { d, e })?;
    }
    Ok(())
}

fn push_each_m3(moves: &mut Moves, rank: u64) -> Result<(), Mem>
    ensures { OnOk result (moves.new ≡ moves.old ++ each_m3 rank) }
{
    for d in 0..rank {
        push_m3_of(moves, d, rank)?;
    }
    Ok(())
}

fn push_each_m4(moves: &mut Moves, rank: u64) -> Result<(), Mem>
    ensures { OnOk result (moves.new ≡ moves.old ++ each_m4 rank) }
{
    for d in 0..rank {
        moves.push(Move::M4 { d })?;
    }
    Ok(())
}

fn push_each_m5(moves: &mut Moves, rank: u64) -> Result<(), Mem>
    ensures { OnOk result (moves.new ≡ moves.old ++ each_m5 rank) }
{
    for d in 0..rank {
        moves.push(Move::M5 { d })?;
    }
    Ok(())
}

/// All moves on so many axes and dimensions, by variant, then by the first number, then by the
/// second.
#[tactic(auto, unfolding(crate::specs::Moves::candidates))]
fn all_moves(alloc: Global, axes: u64, rank: u64) -> Result<Moves, Mem>
    ensures { IfOk result (λ moves. moves ≡ candidates axes rank) }
{
    let mut moves = Items::new(alloc);
    push_each_m1(&mut moves, rank)?;
    push_each_m2(&mut moves, axes, rank)?;
    push_each_m3(&mut moves, rank)?;
    push_each_m4(&mut moves, rank)?;
    push_each_m5(&mut moves, rank)?;
    Ok(moves)
}

/// Those of some moves that may be made.
fn allowed_of(alloc: Global, s: &Sharding, to: &Sharding, listed: &[Move]) -> Result<Moves, Mem>
    requires grid { s.now.grid ≡ to.now.grid }
    requires rank { length s.now.dimensions ≡ length to.now.dimensions }
    requires named { All (IsNamedAt s.now) listed.now }
    ensures { IfOk result (λ moves. moves ≡ filter (may_be s.now to.now) listed.now) }
{
    let mut moves = Items::new(alloc);
    for listed_move in listed {
        if is_allowed(s, to, *listed_move) {
            moves.push(*listed_move)?;
        }
    }
    Ok(moves)
}

/// The moves that may be made at a sharding without halos, on the way to another of its shape on
/// its grid, in order: by variant, then by the first number, then by the second.
///
/// Errors: `Mem` where memory is wanting.
#[tactic(auto, unfolding(crate::specs::Moves::moves_at))]
pub fn allowed_moves(alloc: Global, s: &Sharding, to: &Sharding) -> Result<Moves, Mem>
    requires grid { s.now.grid ≡ to.now.grid }
    requires rank { length s.now.dimensions ≡ length to.now.dimensions }
    ensures { IfOk result (λ moves. moves ≡ moves_from s.now to.now) }
{
    let axes = extents(grid(s)).extents().len() as u64;
    let listed = all_moves(alloc, axes, rank(s))?;
    allowed_of(alloc, s, to, listed.as_slice())
}
