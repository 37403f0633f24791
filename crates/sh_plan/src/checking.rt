ghost use Rattle.std.specs.Prelude.{◌≡◌, ◌↔◌, ◌+◌, ◌<◌, ◌≤◌, ℕ, All, IfSome, IsTrue, length, true};
ghost use Rattle.sh_plan.specs.Checks.{AllHold, DimensionHolds, EntryHolds, IsPlaceOf, IsTableOf, MoveHolds};
ghost use Rattle.sh_plan.specs.Costs.{cost_from, held_by};
ghost use Rattle.sh_plan.specs.Moves.{IsNamedAt, IsStep, after, may_be};
ghost use Rattle.sh_plan.specs.Plans.{IsRising};
ghost use Rattle.sh_plan.specs.States.{IsStateTo};
ghost use Rattle.sh_plan.specs.declared.moves.Move.TheVariants.{M2, M3};

use crate::places::place_of;
use crate::prices::{held, move_cost};
use crate::viewing::moved_views;
use crate::{Distance, Move, is_allowed};
use sh_grid::{Grid, extents};
use sh_sharding::{Sharding, compare, grid, rank};
use std::cmp::Ordering;

/// Whether each entry's state is below the next one's.
pub(crate) fn is_rising(to: &Sharding, table: &[Distance]) -> bool
    requires { All (λ e. IsStateTo to.now e.sharding) table.now }
    ensures { IsTrue result ↔ IsRising to.now.grid.extents table.now }
{
    for at in 1..table.len() {
        if compare(&table[at - 1].sharding, &table[at].sharding) != Ordering::Less {
            return false;
        }
    }
    true
}

/// Where a move from a state, which may be made there, leads to in a table.
pub(crate) fn place_after(
    g: &Grid,
    table: &[Distance],
    to: &Sharding,
    s: &Sharding,
    m: Move,
) -> Option<usize>
    requires grid { to.now.grid ≡ g.now }
    requires all { IsTableOf to.now table.now }
    requires target { IsStateTo to.now to.now }
    requires state { IsStateTo to.now s.now }
    requires named { IsNamedAt s.now m }
    requires may { may_be s.now to.now m ≡ true }
    ensures place { IsPlaceOf table.now (after to.now.dimensions s.now.dimensions m) result }
    ensures within { IfSome result (λ at. at < length table.now) }
{
    let views = moved_views(s, to, m);
    place_of(g, table, &views[..rank(s) as usize])
}

/// Whether an entry's number is at most the cost of the move to another entry and that one's
/// number.
fn is_covered(to: &Sharding, entry: &Distance, cells: u64, m: Move, next: &Distance) -> bool
    requires state { IsStateTo to.now entry.now.sharding }
    requires cells { cells ≡ held_by entry.now.sharding }
    requires next { IsStateTo to.now next.now.sharding }
    requires step { IsStep entry.now.sharding next.now.sharding m }
    ensures { IsTrue result
        ↔ (entry.now.cost ≤ cost_from entry.now.sharding next.now.sharding + next.now.cost) }
{
    let paid = move_cost(&entry.sharding, &next.sharding, m, cells);
    u128::from(entry.cost) <= u128::from(paid) + u128::from(next.cost)
}

/// Whether a move from an entry, whose parts hold so many cells, leads to an entry and doesn't
/// undercut the number, if it may be made.
fn move_holds(
    g: &Grid,
    table: &[Distance],
    to: &Sharding,
    entry: &Distance,
    cells: u64,
    m: Move,
) -> bool
    requires grid { to.now.grid ≡ g.now }
    requires all { IsTableOf to.now table.now }
    requires target { IsStateTo to.now to.now }
    requires state { IsStateTo to.now entry.now.sharding }
    requires cells { cells ≡ held_by entry.now.sharding }
    requires named { IsNamedAt entry.now.sharding m }
    ensures { IsTrue result ↔ MoveHolds to.now table.now entry.now m }
{
    if !is_allowed(&entry.sharding, to, m) {
        return true;
    }
    match place_after(g, table, to, &entry.sharding, m) {
        Some(at) => is_covered(to, entry, cells, m, &table[at]),
        None => false,
    }
}

/// The same for each axis that may be appended to a dimension.
fn appends_hold(
    g: &Grid,
    table: &[Distance],
    to: &Sharding,
    entry: &Distance,
    cells: u64,
    d: u64,
) -> bool
    requires grid { to.now.grid ≡ g.now }
    requires all { IsTableOf to.now table.now }
    requires target { IsStateTo to.now to.now }
    requires state { IsStateTo to.now entry.now.sharding }
    requires cells { cells ≡ held_by entry.now.sharding }
    requires d { d < length entry.now.sharding.dimensions }
    ensures { IsTrue result ↔ ((a : ℕ) → a < length entry.now.sharding.grid.extents
        → MoveHolds to.now table.now entry.now (M2 d a)) }
{
    let axes = extents(grid(&entry.sharding)).extents().len() as u64;
    for a in 0..axes {
        if !move_holds(g, table, to, entry, cells, Move::M2 { d, a }) {
            return false;
        }
    }
    true
}

/// The same for each dimension to which the last axis of a dimension may go.
fn exchanges_hold(
    g: &Grid,
    table: &[Distance],
    to: &Sharding,
    entry: &Distance,
    cells: u64,
    d: u64,
) -> bool
    requires grid { to.now.grid ≡ g.now }
    requires all { IsTableOf to.now table.now }
    requires target { IsStateTo to.now to.now }
    requires state { IsStateTo to.now entry.now.sharding }
    requires cells { cells ≡ held_by entry.now.sharding }
    requires d { d < length entry.now.sharding.dimensions }
    ensures { IsTrue result ↔ ((e : ℕ) → e < length entry.now.sharding.dimensions
        → MoveHolds to.now table.now entry.now (M3 d e)) }
{
    for e in 0..rank(&entry.sharding) {
        if !move_holds(g, table, to, entry, cells, Move::M3 { d, e }) {
            return false;
        }
    }
    true
}

/// The same for each move that names a dimension first.
fn dimension_holds(
    g: &Grid,
    table: &[Distance],
    to: &Sharding,
    entry: &Distance,
    cells: u64,
    d: u64,
) -> bool
    requires grid { to.now.grid ≡ g.now }
    requires all { IsTableOf to.now table.now }
    requires target { IsStateTo to.now to.now }
    requires state { IsStateTo to.now entry.now.sharding }
    requires cells { cells ≡ held_by entry.now.sharding }
    requires d { d < length entry.now.sharding.dimensions }
    ensures { IsTrue result ↔ DimensionHolds to.now table.now entry.now d }
{
    if !move_holds(g, table, to, entry, cells, Move::M1 { d }) {
        return false;
    }
    if !move_holds(g, table, to, entry, cells, Move::M4 { d }) {
        return false;
    }
    if !move_holds(g, table, to, entry, cells, Move::M5 { d }) {
        return false;
    }
    appends_hold(g, table, to, entry, cells, d) && exchanges_hold(g, table, to, entry, cells, d)
}

/// The same for each move from an entry.
fn entry_holds(g: &Grid, table: &[Distance], to: &Sharding, entry: &Distance) -> bool
    requires grid { to.now.grid ≡ g.now }
    requires all { IsTableOf to.now table.now }
    requires target { IsStateTo to.now to.now }
    requires state { IsStateTo to.now entry.now.sharding }
    ensures { IsTrue result ↔ EntryHolds to.now table.now entry.now }
{
    let cells = held(&entry.sharding);
    for d in 0..rank(&entry.sharding) {
        if !dimension_holds(g, table, to, entry, cells, d) {
            return false;
        }
    }
    true
}

/// The same for each entry.
pub(crate) fn all_hold(g: &Grid, table: &[Distance], to: &Sharding) -> bool
    requires grid { to.now.grid ≡ g.now }
    requires all { IsTableOf to.now table.now }
    requires target { IsStateTo to.now to.now }
    ensures { IsTrue result ↔ AllHold to.now table.now }
{
    for entry in table {
        if !entry_holds(g, table, to, entry) {
            return false;
        }
    }
    true
}
