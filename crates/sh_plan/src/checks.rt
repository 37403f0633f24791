ghost use Rattle.std.specs.Prelude.{◌≡◌, ◌↔◌, All, IsTrue};
ghost use Rattle.sh_sharding.specs.Sharding.{HasNoHalos, whole_of};
ghost use Rattle.sh_plan.specs.Checks.{IsEntryFor};
ghost use Rattle.sh_plan.specs.Plans.{HasFlags, IsCertificate, IsLeast};
ghost use Rattle.sh_plan.specs.States.{IsStateTo};

use crate::checking::is_rising;
use crate::leading::{is_shown, place_of_plain};
use crate::planning::{differs_with_halos, is_halo_free};
use crate::{Distance, Plan};
use sh_grid::Grid;
use sh_sharding::{Sharding, whole};

/// Whether a sharding has no halos.
fn is_state(to: &Sharding, s: &Sharding) -> bool
    requires grid { s.now.grid ≡ to.now.grid }
    requires whole { whole_of s.now ≡ whole_of to.now }
    ensures free { IsTrue result ↔ HasNoHalos s.now.dimensions }
    ensures state { IsTrue result → IsStateTo to.now s.now }
{
    let _admitted = whole(s);
    is_halo_free(s)
}

/// Whether no entry has halos.
fn are_states(to: &Sharding, table: &[Distance]) -> bool
    requires { All (IsEntryFor to.now) table.now }
    ensures free { IsTrue result ↔ All (λ e. HasNoHalos e.sharding.dimensions) table.now }
    ensures states { IsTrue result → All (λ e. IsStateTo to.now e.sharding) table.now }
{
    for entry in table {
        if !is_state(to, &entry.sharding) {
            return false;
        }
    }
    true
}

/// Whether a plan's flags say whether halos are dropped and added.
fn are_flags(from: &Sharding, to: &Sharding, p: &Plan) -> bool
    ensures { IsTrue result ↔ HasFlags from.now to.now p.now }
{
    p.drop_halos == differs_with_halos(from, to, from)
        && p.add_halos == differs_with_halos(from, to, to)
}

/// Whether a plan's table is a certificate for it: then its moves lead from source to target, and
/// no list of moves costs less. It takes no memory.
pub fn check_plan(g: &Grid, from: &Sharding, to: &Sharding, p: &Plan) -> bool
    requires source { from.now.grid ≡ g.now }
    requires target { to.now.grid ≡ g.now }
    requires whole { whole_of from.now ≡ whole_of to.now }
    requires table { All (IsEntryFor to.now) p.now.table }
    ensures exact { IsTrue result ↔ IsCertificate from.now to.now p.now }
    ensures least { IsTrue result → IsLeast from.now to.now p.now }
{
    let table = p.table.as_slice();
    if !are_states(to, table) {
        return false;
    }
    if !is_rising(to, table) {
        return false;
    }
    let Some(start) = place_of_plain(g, table, to, from) else {
        return false;
    };
    let Some(goal) = place_of_plain(g, table, to, to) else {
        return false;
    };
    is_shown(g, table, start, goal, &table[goal], p) && are_flags(from, to, p)
}
