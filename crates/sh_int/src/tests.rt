//! The definitions against tables and machine arithmetic that know nothing of them.

ghost use Rattle.std.specs.Prelude.{◌≡◌, ◌<◌, ◌^◌, ◌↔◌, IsTrue};
ghost use Rattle.sh_base.specs.Cells.{IsCellOf, bits_of};

use crate::complement::{bits, modulus};
use crate::{apply, cast, compare, neutral, reduce_cell};
use sh_base::{BinOp, CastOp, Cell, Width};
use std::process::Abort;

mod tables;

use tables::OPERATIONS;

const EDGES: [u64; 5] = [0, 1, 127, 128, 255];

const WIDTHS: [Width; 5] = [Width::I1, Width::I8, Width::I16, Width::I32, Width::I64];

/// A number of the width as a cell. A number that is too large would show as an undefined cell.
fn cell(w: Width, number: u64) -> Cell
    ensures { IsCellOf w result }
{
    if u128::from(number) < modulus(w) {
        Cell::Val(number)
    } else {
        Cell::Undef
    }
}

fn of_numbers(op: BinOp, w: Width, x: u64, y: u64) -> Option<Cell> {
    apply(op, w, cell(w, x), cell(w, y))
}

/// Every operation on every pair of these numbers against a table.
fn expect_rows(rt: &impl Abort, w: Width, numbers: &[u64], rows: &str) {
    for (op, row) in OPERATIONS.into_iter().zip(rows.lines()) {
        let mut words = row.split_whitespace();
        for x in numbers {
            for y in numbers {
                let expected = words.next().and_then(|word| word.parse::<u64>().ok());
                let result = of_numbers(op, w, *x, *y);
                assert_eq!(rt;
                    result,
                    expected.map(|z| Cell::Val(z)),
                    "{op:?} of {x} by {y}"
                );
            }
        }
    }
}

#[test]
fn operations_at_i1_and_at_i8_edges(rt: HostRuntime) {
    expect_rows(&rt, Width::I1, &[0, 1], tables::at_i1());
    expect_rows(&rt, Width::I8, &EDGES, tables::at_i8_edges());
}

#[test]
fn operations_wrap_at_their_width(rt: HostRuntime) {
    for (op, w, x, y, result) in tables::at_widths() {
        assert_eq!(rt;
            of_numbers(op, w, x, y),
            result.map(|z| Cell::Val(z)),
            "{op:?} of {x} by {y} at {w:?}"
        );
    }
}

/// What the machine's own eight-bit arithmetic gives.
fn by_machine(op: BinOp, x: u8, y: u8) -> Option<u8> {
    let (s, t, places) = (x.cast_signed(), y.cast_signed(), u32::from(y));
    match op {
        BinOp::Addi => Some(x.wrapping_add(y)),
        BinOp::Subi => Some(x.wrapping_sub(y)),
        BinOp::Muli => Some(x.wrapping_mul(y)),
        BinOp::Divui => x.checked_div(y),
        BinOp::Divsi => s.checked_div(t).map(|z| z.cast_unsigned()),
        BinOp::Remui => x.checked_rem(y),
        BinOp::Remsi => s.checked_rem(t).map(|z| z.cast_unsigned()),
        BinOp::Andi => Some(x & y),
        BinOp::Ori => Some(x | y),
        BinOp::Xori => Some(x ^ y),
        BinOp::Maxsi => Some(s.max(t).cast_unsigned()),
        BinOp::Minsi => Some(s.min(t).cast_unsigned()),
        BinOp::Maxui => Some(x.max(y)),
        BinOp::Minui => Some(x.min(y)),
        BinOp::Shli => x.checked_shl(places),
        BinOp::Shrui => x.checked_shr(places),
        BinOp::Shrsi => s.checked_shr(places).map(|z| z.cast_unsigned()),
    }
}

#[test]
fn operations_at_i8_are_the_machine_s(rt: HostRuntime) {
    for op in OPERATIONS {
        for x in 0..=u8::MAX {
            for y in 0..=u8::MAX {
                let result = by_machine(op, x, y).map(|z| Cell::Val(u64::from(z)));
                assert_eq!(rt;
                    of_numbers(op, Width::I8, u64::from(x), u64::from(y)),
                    result,
                    "{op:?} of {x} by {y}"
                );
            }
        }
    }
}

/// An undefined divisor or shift amount is stuck, and so is a divisor 0 of an undefined cell; all else that an
/// undefined cell goes into is undefined.
#[test]
fn undefined_operands(rt: HostRuntime) {
    for op in OPERATIONS {
        let divides = matches!(
            op,
            BinOp::Divui | BinOp::Divsi | BinOp::Remui | BinOp::Remsi
        );
        let shifts = matches!(op, BinOp::Shli | BinOp::Shrui | BinOp::Shrsi);
        let undefined = Some(Cell::Undef);
        let second = if divides || shifts { None } else { undefined };
        assert_eq!(rt;
            apply(op, Width::I8, Cell::Val(3), Cell::Undef),
            second,
            "{op:?} by undefined"
        );
        assert_eq!(rt;
            apply(op, Width::I8, Cell::Undef, Cell::Undef),
            second,
            "{op:?} of two undefined"
        );
        let zero = if divides { None } else { undefined };
        assert_eq!(rt;
            apply(op, Width::I8, Cell::Undef, Cell::Val(0)),
            zero,
            "{op:?} of undefined by 0"
        );
        let minus_one = if shifts { None } else { undefined };
        assert_eq!(rt;
            apply(op, Width::I8, Cell::Undef, Cell::Val(255)),
            minus_one,
            "{op:?} of undefined by 255"
        );
    }
}

#[test]
fn comparisons(rt: HostRuntime) {
    let pairs = [(1, 255), (255, 1), (128, 127), (5, 5)];
    for (p, answers) in tables::of_predicates() {
        for ((x, y), answer) in pairs.into_iter().zip(answers) {
            let result = compare(p, Width::I8, cell(Width::I8, x), cell(Width::I8, y));
            assert_eq!(rt; result, Cell::Val(answer), "{p:?} of {x} and {y}");
        }
        assert_eq!(rt;
            compare(p, Width::I8, Cell::Undef, Cell::Val(1)),
            Cell::Undef
        );
        assert_eq!(rt;
            compare(p, Width::I8, Cell::Val(1), Cell::Undef),
            Cell::Undef
        );
    }
}

/// A cast where the widths allow it.
fn cast_between(c: CastOp, from: Width, to: Width, a: Cell) -> Option<Cell>
    requires { IsCellOf from a }
{
    let widens = bits(from) < bits(to);
    let narrows = bits(to) < bits(from);
    match c {
        CastOp::Extsi if widens => Some(cast(c, from, to, a)),
        CastOp::Extui if widens => Some(cast(c, from, to, a)),
        CastOp::Trunci if narrows => Some(cast(c, from, to, a)),
        _ => None,
    }
}

#[test]
fn casts_between_all_widths(rt: HostRuntime) {
    for (c, from, to, x, y) in tables::between_widths() {
        assert_eq!(rt;
            cast_between(c, from, to, cell(from, x)),
            Some(Cell::Val(y)),
            "{c:?} of {x} to {to:?}"
        );
        assert_eq!(rt; cast_between(c, from, to, Cell::Undef), Some(Cell::Undef));
    }
}

#[test]
fn neutral_cells_change_nothing(rt: HostRuntime) {
    for (k, numbers) in tables::neutral_numbers() {
        for (w, number) in WIDTHS.into_iter().zip(numbers) {
            assert_eq!(rt; neutral(k, w), Cell::Val(number), "{k:?} at {w:?}");
            for x in EDGES {
                let a = cell(w, x);
                assert_eq!(rt;
                    reduce_cell(k, w, neutral(k, w), a),
                    a,
                    "{k:?} of {x} at {w:?}"
                );
                assert_eq!(rt; reduce_cell(k, w, a, Cell::Undef), Cell::Undef);
                assert_eq!(rt; reduce_cell(k, w, Cell::Undef, a), Cell::Undef);
            }
        }
    }
}
