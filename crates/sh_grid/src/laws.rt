ghost use Rattle.std.specs.Prelude.{length};
ghost use Rattle.sh_grid.specs.Grid.{AxesJoin, PlacesJoin, PlacesStay};

use crate::Grid;

/// The laws of groups along lists of axes: the place along two lists, one after the other, is the
/// mixed-radix number of the places along each; a device's place along a list is that of each
/// device which differs from it on other axes alone, as the members of its group along those axes
/// do; and two lists joined are distinct axes exactly where each is and none stands in both.
pub fn group_laws(g: &Grid)
    ensures join { PlacesJoin g.now.extents }
    ensures stay { PlacesStay g.now.extents }
    ensures axes { AxesJoin (length g.now.extents) }
{}
