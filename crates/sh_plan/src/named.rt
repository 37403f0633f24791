ghost use Rattle.std.specs.Prelude.{◌↔◌, IsTrue};
ghost use Rattle.sh_plan.specs.Moves.{IsNamedAt};

use crate::Move;
use sh_grid::extents;
use sh_sharding::{Sharding, grid, rank};

/// Whether a move names dimensions and axes that there are.
pub fn is_named(s: &Sharding, m: Move) -> bool
    ensures { IsTrue result ↔ IsNamedAt s.now m }
{
    let (axes, rank) = (extents(grid(s)).extents().len() as u64, rank(s));
    match m {
        Move::M1 { d } | Move::M4 { d } | Move::M5 { d } => d < rank,
        Move::M2 { d, a } => d < rank && a < axes,
        Move::M3 { d, e } => d < rank && e < rank,
    }
}
