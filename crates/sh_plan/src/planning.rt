ghost use Rattle.std.specs.Prelude.{◌≡◌, ◌↔◌, All, IfOk, IsTrue, map};
ghost use Rattle.sh_sharding.specs.Made.{without_halos};
ghost use Rattle.sh_sharding.specs.Sharding.{HasNoHalos, whole_of};
ghost use Rattle.sh_plan.specs.Checks.{IsEntryFor};
ghost use Rattle.sh_plan.specs.Found.{HasNoHalo, IsFound};
ghost use Rattle.sh_plan.specs.Plans.{DiffersWithHalos, IsCertificate, IsPair, IsThePlan};
ghost use Rattle.sh_plan.specs.States.{IsExplored, IsStateTo};

use crate::exploring::{Explored, reached};
use crate::tables::table_of;
use crate::{Distances, Move, Moves, Plan};
use sh_base::{Items, Mem};
use sh_grid::Grid;
use sh_sharding::{Dimension, Sharding, dimensions, grid, same, whole, without_halos};
use sh_ways::{Edge, distances, first_way};
use std::alloc::Global;

/// What a search between two states finds.
#[derive(Drop)]
pub struct Found {
    /// The moves of least cost.
    pub moves: Moves,
    /// What they cost together.
    pub cost: u64,
    /// The distances that show it.
    pub table: Distances,
}

/// The moves of a way of edges.
fn moves_along(alloc: Global, way: &[Edge<Move>]) -> Result<Moves, Mem>
    ensures { IfOk result (λ moves. moves ≡ map (λ e. e.by) way.now) }
{
    let mut moves = Items::new(alloc);
    for edge in way {
        moves.push(edge.by)?;
    }
    Ok(moves)
}

/// The least way among explored states, and the table of their distances.
fn search(alloc: Global, all: &Explored, from: &Sharding, to: &Sharding) -> Result<Found, Mem>
    requires source { IsStateTo to.now from.now }
    requires target { IsStateTo to.now to.now }
    requires explored { IsExplored from.now to.now all.now }
    ensures { IfOk result (IsFound from.now to.now) }
{
    let numbers = distances(alloc, &all.rows, all.goal)?;
    let way = first_way(alloc, &all.rows, &numbers, all.start, all.goal)?;
    let moves = moves_along(alloc, &way)?;
    let table = table_of(alloc, grid(to), &all.states, &numbers)?;
    Ok(Found {
        moves,
        cost: numbers[all.start],
        table,
    })
}

/// The least way between two shardings of one shape on one grid, their halos left out.
fn least_between(alloc: Global, from: &Sharding, to: &Sharding) -> Result<Found, Mem>
    requires { IsPair from.now to.now }
    ensures { IfOk result (IsFound (without_halos from.now) (without_halos to.now)) }
{
    let source = without_halos(alloc, from)?;
    let target = without_halos(alloc, to)?;
    let all = reached(alloc, &source, &target)?;
    search(alloc, &all, &source, &target)
}

/// Whether a dimension has no halo.
fn is_plain(d: &Dimension) -> bool
    ensures { IsTrue result ↔ HasNoHalo d.now }
{
    d.low == 0 && d.high == 0
}

/// Whether no dimension has a halo.
fn are_plain(listed: &[Dimension]) -> bool
    ensures { IsTrue result ↔ All HasNoHalo listed.now }
{
    listed.iter().all(|d| is_plain(d))
}

/// Whether a sharding has no halos.
pub(crate) fn is_halo_free(s: &Sharding) -> bool
    ensures { IsTrue result ↔ HasNoHalos s.now.dimensions }
{
    are_plain(dimensions(s))
}

/// Whether a sharding has halos.
fn has_halos(s: &Sharding) -> bool
    ensures { IsTrue result ↔ ¬ HasNoHalos s.now.dimensions }
{
    !is_halo_free(s)
}

/// Whether the shardings differ and this one has halos.
pub(crate) fn differs_with_halos(from: &Sharding, to: &Sharding, s: &Sharding) -> bool
    ensures { IsTrue result ↔ DiffersWithHalos from.now to.now s.now }
{
    !same(from, to) && has_halos(s)
}

/// The plan that makes one sharding of a tensor into another of the same shape on the same grid.
/// Its moves cost as little as moves can that lead there, each is the first that lies on a least
/// way, and its table shows that. If the shardings are the same, there are no moves and no halos to
/// change.
///
/// Errors: `Mem` where memory is wanting, and nothing else.
pub fn plan(alloc: Global, g: &Grid, from: &Sharding, to: &Sharding) -> Result<Plan, Mem>
    requires source { from.now.grid ≡ g.now }
    requires target { to.now.grid ≡ g.now }
    requires whole { whole_of from.now ≡ whole_of to.now }
    ensures plan { IfOk result (IsThePlan from.now to.now) }
    ensures certificate { IfOk result (IsCertificate from.now to.now) }
    ensures table { IfOk result (λ p. All (IsEntryFor to.now) p.table) }
{
    let (_source, _target) = (whole(from), whole(to));
    let found = least_between(alloc, from, to)?;
    Ok(Plan {
        drop_halos: differs_with_halos(from, to, from),
        moves: found.moves,
        add_halos: differs_with_halos(from, to, to),
        cost: found.cost,
        table: found.table,
    })
}
