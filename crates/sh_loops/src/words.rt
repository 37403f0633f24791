ghost use Rattle.std.specs.Prelude.{◌≡◌, ◌%◌, ◌^◌, Some, IfSome};
ghost use Rattle.sh_base.specs.Cells.{IsCellOf, bits_of};
ghost use Rattle.sh_int.specs.Elements.{element_of};

use sh_base::{BinOp, Cell, Width};
use sh_int::apply;

/// The low bits of a number.
fn low_bits(width: Width, number: u64) -> u64
    ensures { result ≡ number % 2 ^ bits_of width }
{
    match width {
        Width::I1 => number % 2,
        Width::I8 => number % 256,
        Width::I16 => number % 65_536,
        Width::I32 => number % 4_294_967_296,
        Width::I64 => number,
    }
}

/// The sum of two cells at a width, by the machine's words.
#[tactic(auto, unfolding(sh_int::specs::Elements::element_of))]
pub(crate) fn sum(width: Width, a: Cell, b: Cell) -> Cell
    ensures value { Some result ≡ element_of BinOp.Addi width a b }
    ensures within { IsCellOf width result }
{
    match (a, b) {
        (Cell::Val(x), Cell::Val(y)) => Cell::Val(low_bits(width, x.wrapping_add(y))),
        _ => Cell::Undef,
    }
}

/// The product of two cells at a width, by the machine's words.
#[tactic(auto, unfolding(sh_int::specs::Elements::element_of))]
pub(crate) fn product(width: Width, a: Cell, b: Cell) -> Cell
    ensures value { Some result ≡ element_of BinOp.Muli width a b }
    ensures within { IsCellOf width result }
{
    match (a, b) {
        (Cell::Val(x), Cell::Val(y)) => Cell::Val(low_bits(width, x.wrapping_mul(y))),
        _ => Cell::Undef,
    }
}

/// What an element operation gives of two cells of a width, or none where it is stuck; sums and
/// products by the machine's words.
pub(crate) fn combined(op: BinOp, width: Width, a: Cell, b: Cell) -> Option<Cell>
    requires first { IsCellOf width a }
    requires second { IsCellOf width b }
    ensures value { result ≡ element_of op width a b }
    ensures within { IfSome result (λ cell. IsCellOf width cell) }
{
    match op {
        BinOp::Addi => Some(sum(width, a, b)),
        BinOp::Muli => Some(product(width, a, b)),
        _ => apply(op, width, a, b),
    }
}
