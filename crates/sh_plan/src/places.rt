ghost use Rattle.std.specs.Prelude.{◌≡◌, All, length, map};
ghost use Rattle.sh_sharding.specs.Order.{order_of};
ghost use Rattle.sh_sharding.specs.Sharding.{ShardingValue};
ghost use Rattle.sh_sharding.specs.Views.{IsOrdered, described};
ghost use Rattle.sh_plan.specs.Checks.{IsPlaceOf, IsSought, IsTableOf};
ghost use Rattle.sh_plan.specs.Tables.{dimensions_on};

use crate::Distance;
use crate::tables::rank_on;
use sh_grid::Grid;
use sh_sharding::{DimensionView, Sharding, compare_views, views_of};
use std::cmp::Ordering;

/// The order of a sharding and one of which views tell, on a grid. One on a grid of other extents
/// counts as of rank 0.
fn order_before(g: &Grid, s: &Sharding, sought: &[DimensionView<'_>]) -> Ordering
    requires { All (IsOrdered g.now.extents) sought.now }
    ensures { result ≡ order_of g.now.extents (dimensions_on g.now.extents s.now)
        (map (described g.now.extents) sought.now) }
{
    let own = views_of(s);
    compare_views(g, &own[..rank_on(g, s)], sought)
}

/// The place in a rising table of the state of which views tell.
pub(crate) fn place_of(g: &Grid, table: &[Distance], sought: &[DimensionView<'_>]) -> Option<usize>
    requires { All (IsOrdered g.now.extents) sought.now }
    ensures { (to t : ShardingValue) → to.grid ≡ g.now → IsTableOf to table.now
        → IsSought to t (map (described g.now.extents) sought.now)
        → IsPlaceOf table.now t.dimensions result }
{
    table
        .binary_search_by(|entry| order_before(g, &entry.sharding, sought))
        .ok()
}
