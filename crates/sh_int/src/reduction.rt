ghost use Rattle.std.specs.Prelude.{◌≡◌};
ghost use Rattle.sh_base.specs.Cells.{IsCellOf};
ghost use Rattle.sh_int.specs.Reduction.{operation_of, combine_of, neutral_of, CombineLaws, Absorbs, IsOperation};

use crate::complement::{least, minus_one};
use crate::elements::number;
use sh_base::{BinOp, Cell, Kind, Width};

/// Two cells of a width combined as a collective with a `reduction` of this kind combines them: by addition or
/// multiplication modulo two to the width, by the greater or lesser signed value, or bit by bit; undefined where either
/// is. `combine_laws` has its laws. It takes no memory.
#[tactic(auto, unfolding(crate::specs::Reduction::combine_of))]
pub fn reduce_cell(k: Kind, w: Width, a: Cell, b: Cell) -> Cell
    requires first { IsCellOf w a }
    requires second { IsCellOf w b }
    ensures value { result ≡ combine_of k w a b }
    ensures within { IsCellOf w result }
{
    match (a, b) {
        (Cell::Val(x), Cell::Val(y)) => Cell::Val(number(operation(k), w, x, y)),
        _ => Cell::Undef,
    }
}

/// The neutral cell of a kind, which changes no cell that it is combined with: in the order of `Kind` 0, 1, the least
/// signed number, the greatest signed number, all ones, 0 and 0. It takes no memory.
#[tactic(auto, unfolding(crate::specs::Reduction::neutral_of))]
pub fn neutral(k: Kind, w: Width) -> Cell
    ensures value { result ≡ neutral_of k w }
    ensures within { IsCellOf w result }
{
    Cell::Val(match k {
        Kind::Sum => 0,
        Kind::Product => 1,
        Kind::Max => least(w),
        Kind::Min => least(w) - 1,
        Kind::And => minus_one(w),
        Kind::Or => 0,
        Kind::Xor => 0,
    })
}

/// The operation by which a kind combines.
fn operation(k: Kind) -> BinOp
    ensures { result ≡ operation_of k }
{
    match k {
        Kind::Sum => BinOp::Addi,
        Kind::Product => BinOp::Muli,
        Kind::Max => BinOp::Maxsi,
        Kind::Min => BinOp::Minsi,
        Kind::And => BinOp::Andi,
        Kind::Or => BinOp::Ori,
        Kind::Xor => BinOp::Xori,
    }
}

/// The laws of combining, for every kind and width: neither grouping nor order matters among cells of the width, the neutral
/// cell changes none of them, what is undefined stays so, and the kind's element operation is never stuck and gives the same.
///
/// The function does nothing: its contract is the law.
pub fn combine_laws(k: Kind, w: Width)
    ensures combines { CombineLaws (IsCellOf w) (neutral_of k w) (combine_of k w) }
    ensures absorbs { Absorbs Cell.Undef (combine_of k w) }
    ensures operation { IsOperation k w }
{}
