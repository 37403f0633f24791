ghost use Rattle.std.specs.Prelude.{◌≡◌, ◌<◌, ◌^◌};
ghost use Rattle.sh_base.specs.Cells.{IsCellOf, bits_of};
ghost use Rattle.sh_int.specs.Elements.{CanCast, cast_number, cast_of};

use crate::complement::{low_bits, signed, wrapped};
use sh_base::{CastOp, Cell, Width};

/// The cell of the width `to` that a cast of the `arith` dialect makes of one of the width `from`: an extension widens, by
/// copies of the sign bit or by zeros, and a truncation narrows, to the low bits. What is undefined stays so. It takes
/// no memory.
#[tactic(auto, unfolding(crate::specs::Elements::cast_of))]
pub fn cast(c: CastOp, from: Width, to: Width, a: Cell) -> Cell
    requires operand { IsCellOf from a }
    requires widths { CanCast c from to }
    ensures value { result ≡ cast_of c from to a }
    ensures within { IsCellOf to result }
{
    match a {
        Cell::Undef => Cell::Undef,
        Cell::Val(x) => Cell::Val(cast_value(c, from, to, x)),
    }
}

/// The number that a cast makes of another.
fn cast_value(c: CastOp, from: Width, to: Width, x: u64) -> u64
    requires operand { x < 2 ^ bits_of from }
    ensures { result ≡ cast_number c from to x }
{
    match c {
        CastOp::Extsi => wrapped(to, signed(from, x)),
        CastOp::Extui => x,
        CastOp::Trunci => low_bits(to, u128::from(x)),
    }
}
