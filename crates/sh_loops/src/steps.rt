ghost use Rattle.std.specs.Prelude.{◌≡◌, ◌≤◌, ◌↔◌, Some, IsTrue};
ghost use Rattle.sh_base.specs.Cells.{IsCellOf, bits_of};
ghost use Rattle.sh_loops.specs.Nests.{product_added};
ghost use Rattle.sh_int.specs.Elements.{cast_of};

use crate::regions::Region;
use crate::words::{product, sum};
use sh_base::{CastOp, Cell, Width};
use sh_int::cast;

/// What is done at a loop point.
#[derive(Drop)]
pub(crate) enum PointStep {
    /// The input's cell.
    Copied,
    /// The output's plus the product of the inputs', which are of these widths and extended by sign
    /// to its width.
    ProductAdded(Width, Width),
    /// What a region yields.
    Yielded(Region),
}

/// Whether two widths are one.
pub(crate) fn same_width(v: Width, w: Width) -> bool
    ensures { IsTrue result ↔ (v ≡ w) }
{
    v == w
}

/// A cell extended by sign to a width that is no less.
pub(crate) fn extended(from: Width, to: Width, a: Cell) -> Cell
    requires cell { IsCellOf from a }
    requires widths { bits_of from ≤ bits_of to }
    ensures value { result ≡ cast_of CastOp.Extsi from to a }
    ensures within { IsCellOf to result }
{
    if same_width(from, to) {
        return a;
    }
    cast(CastOp::Extsi, from, to, a)
}

/// The sum of a cell and the product of two others at a width.
pub(crate) fn added(width: Width, a: Cell, b: Cell, so_far: Cell) -> Cell
    ensures value { Some result ≡ product_added width a b so_far }
    ensures within { IsCellOf width result }
{
    sum(width, so_far, product(width, a, b))
}
