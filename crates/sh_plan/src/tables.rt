ghost use Rattle.std.specs.Prelude.{◌≡◌, IfOk, IsPermutation, IsSortedBy, OnOk, length, map};
ghost use Rattle.sh_sharding.specs.Order.{order_of};
ghost use Rattle.sh_plan.specs.Tables.{AreOn, IsTable, dimensions_on, is_before};

use crate::{Distance, Distances};
use sh_base::{Duplicate, Items, Mem};
use sh_grid::{Grid, extents};
use sh_sharding::{Sharding, compare_views, grid, rank, views_of};
use std::alloc::Global;
use std::cmp::Ordering;

/// How many dimensions a sharding has; 0 where it stands on a grid of other extents.
pub(crate) fn rank_on(g: &Grid, s: &Sharding) -> usize
    ensures { result ≡ length (dimensions_on g.now.extents s.now) }
{
    if extents(grid(s)).extents() == extents(g).extents() {
        rank(s) as usize
    } else {
        0
    }
}

/// The order of two shardings on a grid. One on a grid of other extents counts as of rank 0.
fn order_on(g: &Grid, a: &Sharding, b: &Sharding) -> Ordering
    ensures { result ≡ order_of g.now.extents (dimensions_on g.now.extents a.now)
        (dimensions_on g.now.extents b.now) }
{
    let left = views_of(a);
    let right = views_of(b);
    compare_views(g, &left[..rank_on(g, a)], &right[..rank_on(g, b)])
}

/// States with their numbers, as entries.
fn entries_of(alloc: Global, states: &[Sharding], numbers: &[u64]) -> Result<Vec<Distance>, Mem>
    requires { length numbers.now ≡ length states.now }
    ensures states { IfOk result (λ entries. map (λ e. e.sharding) entries.items ≡ states.now) }
    ensures numbers { IfOk result (λ entries. map (λ e. e.cost) entries.items ≡ numbers.now) }
{
    let mut entries = Vec::new(alloc);
    for (at, state) in states.iter().enumerate() {
        let sharding = state.duplicate(alloc)?;
        entries.push(Distance {
            sharding,
            cost: numbers[at],
        })?;
    }
    Ok(entries)
}

/// Puts entries into the order of their states.
fn sort_entries(g: &Grid, entries: &mut Vec<Distance>) -> Result<(), Mem>
    ensures same { IsPermutation entries.old.items entries.new.items }
    ensures sorted { OnOk result (IsSortedBy (is_before g.now.extents) entries.new.items) }
{
    entries.sort_by(|a: &Distance, b: &Distance| order_on(g, &a.sharding, &b.sharding))?;
    Ok(())
}

/// The table of states and their numbers, in rising order.
pub(crate) fn table_of(
    alloc: Global,
    g: &Grid,
    states: &[Sharding],
    numbers: &[u64],
) -> Result<Distances, Mem>
    requires same { length numbers.now ≡ length states.now }
    requires on { AreOn g.now states.now }
    ensures { IfOk result (λ table. IsTable g.now.extents states.now numbers.now table) }
{
    let mut entries = entries_of(alloc, states, numbers)?;
    sort_entries(g, &mut entries)?;
    Ok(Items::from_vec(entries))
}
