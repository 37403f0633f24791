ghost use Rattle.std.specs.Prelude.{◌≡◌, ◌<◌, ◌^◌};
ghost use Rattle.sh_base.specs.Cells.{IsCellOf, bits_of};
ghost use Rattle.sh_int.specs.Elements.{holds, comparison_of};

use crate::complement::signed;
use sh_base::{Cell, Predicate, Width};

/// The `i1` cell that `arith.cmpi` gives at two cells of a width: 1 where the predicate holds, 0 where it doesn't,
/// undefined where an operand is. A predicate that begins with `S` compares signed values. It takes no memory.
#[tactic(auto, unfolding(crate::specs::Elements::comparison_of))]
pub fn compare(p: Predicate, w: Width, a: Cell, b: Cell) -> Cell
    requires first { IsCellOf w a }
    requires second { IsCellOf w b }
    ensures value { result ≡ comparison_of p w a b }
    ensures within { IsCellOf Width.I1 result }
{
    match (a, b) {
        (Cell::Val(x), Cell::Val(y)) => Cell::Val(u64::from(is_so(p, w, x, y))),
        _ => Cell::Undef,
    }
}

/// Whether a predicate holds of two numbers.
fn is_so(p: Predicate, w: Width, x: u64, y: u64) -> bool
    requires first { x < 2 ^ bits_of w }
    requires second { y < 2 ^ bits_of w }
    ensures { result ≡ holds p w x y }
{
    match p {
        Predicate::Eq => x == y,
        Predicate::Ne => x != y,
        Predicate::Slt => signed(w, x) < signed(w, y),
        Predicate::Sle => signed(w, x) <= signed(w, y),
        Predicate::Sgt => signed(w, x) > signed(w, y),
        Predicate::Sge => signed(w, x) >= signed(w, y),
        Predicate::Ult => x < y,
        Predicate::Ule => x <= y,
        Predicate::Ugt => x > y,
        Predicate::Uge => x >= y,
    }
}
