ghost use Rattle.std.specs.Prelude.{◌≡◌, ◌<◌, ◌^◌, false, IfSome};
ghost use Rattle.sh_base.specs.Cells.{IsCellOf, bits_of};
ghost use Rattle.sh_int.specs.Elements.{number_by, is_no_divisor, is_least_by_minus_one, is_no_amount, is_stuck, element_of};

use crate::complement::{bits, least, low_bits, minus_one, signed, wrapped};
use sh_base::{BinOp, Cell, Width};

/// What an element operation gives at two cells of a width, as the `arith` dialect has it, or none where it is stuck.
///
/// A division is stuck at a divisor that is 0 or undefined, and a signed one at the least signed number by -1 too (for
/// `remsi` a choice of this project, since the quotient is out of range). A shift is stuck at an amount that is
/// undefined or at least the width. Nothing else is stuck, and a result is undefined where an operand is
/// (docs/LANGUAGE.md). It takes no memory.
#[tactic(auto, unfolding(crate::specs::Elements::element_of))]
pub fn apply(op: BinOp, w: Width, a: Cell, b: Cell) -> Option<Cell>
    requires first { IsCellOf w a }
    requires second { IsCellOf w b }
    ensures value { result ≡ element_of op w a b }
    ensures within { IfSome result (λ cell. IsCellOf w cell) }
{
    if stuck(op, w, a, b) {
        return None;
    }
    let (Cell::Val(x), Cell::Val(y)) = (a, b) else {
        return Some(Cell::Undef);
    };
    Some(Cell::Val(number(op, w, x, y)))
}

/// Whether an operation is stuck: at a divisor or a shift amount for which there is no result.
fn stuck(op: BinOp, w: Width, a: Cell, b: Cell) -> bool
    requires first { IsCellOf w a }
    requires second { IsCellOf w b }
    ensures { result ≡ is_stuck op w a b }
{
    match op {
        BinOp::Divui | BinOp::Remui => divides_by_none(b),
        BinOp::Divsi | BinOp::Remsi => divides_by_none(b) || least_by_minus_one(w, a, b),
        BinOp::Shli | BinOp::Shrui | BinOp::Shrsi => shifts_too_far(w, b),
        _ => false,
    }
}

/// Whether a divisor is 0 or undefined.
fn divides_by_none(divisor: Cell) -> bool
    ensures { result ≡ is_no_divisor divisor }
{
    match divisor {
        Cell::Undef => true,
        Cell::Val(y) => y == 0,
    }
}

/// Whether the least signed integer is divided by -1: the quotient is out of range.
fn least_by_minus_one(w: Width, a: Cell, b: Cell) -> bool
    ensures { result ≡ is_least_by_minus_one w a b }
{
    match (a, b) {
        (Cell::Val(x), Cell::Val(y)) => x == least(w) && y == minus_one(w),
        _ => false,
    }
}

/// Whether a shift amount is undefined, or at least the width.
fn shifts_too_far(w: Width, amount: Cell) -> bool
    ensures { result ≡ is_no_amount w amount }
{
    match amount {
        Cell::Undef => true,
        Cell::Val(places) => places >= u64::from(bits(w)),
    }
}

/// The number that an operation gives where it isn't stuck.
pub(crate) fn number(op: BinOp, w: Width, x: u64, y: u64) -> u64
    requires first { x < 2 ^ bits_of w }
    requires second { y < 2 ^ bits_of w }
    requires free { is_stuck op w (Cell.Val x) (Cell.Val y) ≡ false }
    ensures { result ≡ number_by op w x y }
{
    match op {
        BinOp::Addi => low_bits(w, u128::from(x) + u128::from(y)),
        BinOp::Subi => wrapped(w, i128::from(x) - i128::from(y)),
        BinOp::Muli => low_bits(w, u128::from(x) * u128::from(y)),
        BinOp::Divui => x / y,
        BinOp::Divsi => wrapped(w, signed(w, x) / signed(w, y)),
        BinOp::Remui => x % y,
        BinOp::Remsi => wrapped(w, signed(w, x) % signed(w, y)),
        BinOp::Andi => x & y,
        BinOp::Ori => x | y,
        BinOp::Xori => x ^ y,
        BinOp::Maxsi => wrapped(w, signed(w, x).max(signed(w, y))),
        BinOp::Minsi => wrapped(w, signed(w, x).min(signed(w, y))),
        BinOp::Maxui => x.max(y),
        BinOp::Minui => x.min(y),
        BinOp::Shli => low_bits(w, u128::from(x) << y),
        BinOp::Shrui => x >> y,
        BinOp::Shrsi => wrapped(w, signed(w, x) >> y),
    }
}
