ghost use Rattle.std.specs.Prelude.{◌≡◌, ◌≤◌, ◌∷◌, [], IfOk, length};
ghost use Rattle.sh_base.specs.Shape.{max_cells};

use sh_base::{BinOp, CastOp, Cell, Width, shape};
use sh_eval::{Formula, element_of_one, element_of_two};
use sh_tensor::{Tensor, build};
use std::alloc::Global;
use std::test::Fail;

// A row of numbers.
fn row(alloc: Global, numbers: &[u32]) -> Result<Tensor, Fail>
    requires { length numbers.now ≤ max_cells }
    ensures shape { IfOk result (λ t. t.shape ≡ length numbers.now ∷ []) }
    ensures width { IfOk result (λ t. t.width ≡ Width.I32) }
{
    let mut cells: Vec<Cell> = Vec::with_capacity(alloc, numbers.len())?;
    for number in numbers {
        cells.push(Cell::Val(u64::from(*number)))?;
    }
    Ok(build(shape(alloc, &[numbers.len() as u64]), Width::I32, cells))
}

// Whether a tensor is there and has these numbers in its cells.
fn has(t: &Option<Tensor>, numbers: &[u64]) -> bool {
    match t {
        Some(t) => {
            let cells = t.cells();
            if cells.len() != numbers.len() {
                return false;
            }
            for at in 0..cells.len() {
                if cells[at] != Cell::Val(numbers[at]) {
                    return false;
                }
            }
            true
        }
        None => false,
    }
}

#[test]
fn sums_wrap_round(rt: HostRuntime) -> Result<(), Fail> {
    let alloc = rt.alloc();
    let a = row(alloc, &[1, 2, 4_294_967_295])?;
    let b = row(alloc, &[10, 20, 1])?;
    let sum = element_of_two(alloc, Formula::Binary(BinOp::Addi, Width::I32), &a, &b)?;
    assert!(rt; has(&sum, &[11, 22, 0]));
    Ok(())
}

#[test]
fn a_division_by_zero_is_stuck(rt: HostRuntime) -> Result<(), Fail> {
    let alloc = rt.alloc();
    let a = row(alloc, &[7, 8])?;
    let b = row(alloc, &[2, 0])?;
    let quotient = element_of_two(alloc, Formula::Binary(BinOp::Divui, Width::I32), &a, &b)?;
    assert!(rt; quotient.is_none());
    Ok(())
}

#[test]
fn low_bits_are_kept(rt: HostRuntime) -> Result<(), Fail> {
    let alloc = rt.alloc();
    let a = row(alloc, &[299, 4_294_967_240])?;
    let low = element_of_one(
        alloc,
        Formula::Cast(CastOp::Trunci, Width::I32, Width::I8),
        &a,
    )?;
    assert!(rt; has(&low, &[43, 200]));
    Ok(())
}
