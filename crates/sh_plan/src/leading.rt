ghost use Rattle.std.specs.Prelude.{◌≡◌, ◌↔◌, ◌+◌, ◌<◌, IfSome, IsTrue, MatchOption, Some, length, slice_get};
ghost use Rattle.sh_plan.specs.Checks.{AllHold, EntryHolds, IsChecked, IsOnward, IsPlaceOf, IsTableOf, IsWay, NotOnward, StandsAt};
ghost use Rattle.sh_plan.specs.Plans.{state_of};
ghost use Rattle.sh_sharding.specs.Sharding.{whole_of};
ghost use Rattle.sh_plan.specs.Costs.{cost_from};
ghost use Rattle.sh_plan.specs.States.{IsStateTo};
ghost use Rattle.sh_plan.specs.declared.plans.Distance.{Distance};

use crate::checking::{all_hold, place_after};
use crate::named::is_named;
use crate::places::place_of;
use crate::{Distance, Move, Plan, cost, is_allowed};
use sh_grid::Grid;
use sh_sharding::{Sharding, rank, views_of};

/// What is left of a cost after the move from one state to another; none where the move costs more.
fn left_after(to: &Sharding, from: &Distance, next: &Distance, rest: u64) -> Option<u64>
    requires state { IsStateTo to.now from.now.sharding }
    requires next { IsStateTo to.now next.now.sharding }
    ensures { MatchOption result (rest < cost_from from.now.sharding next.now.sharding)
        (λ left. rest ≡ cost_from from.now.sharding next.now.sharding + left) }
{
    rest.checked_sub(cost(&from.sharding, &next.sharding))
}

/// Where a move leads to from an entry, and what is left of a cost; none where the move can't be
/// made or costs more.
fn onward(
    g: &Grid,
    table: &[Distance],
    to: &Sharding,
    from: &Distance,
    rest: u64,
    m: Move,
) -> Option<(usize, u64)>
    requires grid { to.now.grid ≡ g.now }
    requires all { IsTableOf to.now table.now }
    requires target { IsStateTo to.now to.now }
    requires state { IsStateTo to.now from.now.sharding }
    requires holds { EntryHolds to.now table.now from.now }
    ensures { MatchOption result
        (NotOnward to.now from.now.sharding.dimensions rest m)
        (IsOnward to.now table.now from.now.sharding.dimensions rest m) }
{
    if !is_named(&from.sharding, m) {
        return None;
    }
    if !is_allowed(&from.sharding, to, m) {
        return None;
    }
    match place_after(g, table, to, &from.sharding, m) {
        Some(next) => match left_after(to, from, &table[next], rest) {
            Some(left) => Some((next, left)),
            None => None,
        },
        None => None,
    }
}

/// Whether moves lead through a table from one entry to another, at this cost.
pub(crate) fn leads(
    g: &Grid,
    table: &[Distance],
    to: &Sharding,
    start: usize,
    goal: usize,
    moves: &[Move],
    whole: u64,
) -> bool
    requires grid { to.now.grid ≡ g.now }
    requires all { IsTableOf to.now table.now }
    requires target { IsStateTo to.now to.now }
    requires hold { AllHold to.now table.now }
    requires start { start < length table.now }
    requires goal { StandsAt table.now to.now.dimensions goal }
    ensures { (x : Distance) → slice_get table.now start ≡ Some x
        → (IsTrue result ↔ IsWay to.now x.sharding.dimensions moves.now whole) }
{
    let mut at = start;
    let mut rest = whole;
    for m in moves {
        match onward(g, table, to, &table[at], rest, *m) {
            Some((next, left)) => {
                at = next;
                rest = left;
            }
            None => return false,
        }
    }
    at == goal && rest == 0
}

/// Where a sharding without its halos stands in a table.
pub(crate) fn place_of_plain(
    g: &Grid,
    table: &[Distance],
    to: &Sharding,
    s: &Sharding,
) -> Option<usize>
    requires grid { to.now.grid ≡ g.now }
    requires all { IsTableOf to.now table.now }
    requires own { s.now.grid ≡ to.now.grid }
    requires whole { whole_of s.now ≡ whole_of to.now }
    ensures place { IsPlaceOf table.now (state_of s.now) result }
    ensures within { IfSome result (λ at. at < length table.now) }
{
    let views = views_of(s);
    place_of(g, table, &views[..rank(s) as usize])
}

/// Whether a table, in which the places of source and target are known, shows that the moves of a
/// plan lead there at its cost, and that no moves cost less.
pub(crate) fn is_shown(
    g: &Grid,
    table: &[Distance],
    start: usize,
    goal: usize,
    last: &Distance,
    p: &Plan,
) -> bool
    requires grid { last.now.sharding.grid ≡ g.now }
    requires all { IsTableOf last.now.sharding table.now }
    requires target { IsStateTo last.now.sharding last.now.sharding }
    requires start { start < length table.now }
    requires goal { StandsAt table.now last.now.sharding.dimensions goal }
    ensures { (x : Distance) → slice_get table.now start ≡ Some x
        → (IsTrue result ↔ IsChecked table.now x last.now p.now) }
{
    if last.cost != 0 {
        return false;
    }
    if table[start].cost != p.cost {
        return false;
    }
    if !all_hold(g, table, &last.sharding) {
        return false;
    }
    leads(
        g,
        table,
        &last.sharding,
        start,
        goal,
        p.moves.as_slice(),
        p.cost,
    )
}
