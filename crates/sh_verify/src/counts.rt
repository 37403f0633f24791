ghost use Rattle.std.specs.Prelude.{◌≡◌, ◌≤◌, ◌^◌, map, nat_le, sum};
ghost use Rattle.sh_ir.specs.Limits.{instruction_count, max_instructions, max_operations, operation_count, region_size};

use crate::written::region;
use sh_ir::{Op, OpClass, OpKind};

/// The greatest number of operations of a function in source form.
pub const MAX_OPERATIONS: u128 = 10_000;

/// The greatest number of instructions of a function in device form.
pub const MAX_INSTRUCTIONS: u128 = 100_000;

/// How many operations the region has.
fn region_length(kind: &OpKind) -> usize
    ensures { result ≡ region_size kind.now }
{
    match region(kind) {
        Some(body) => body.ops.len(),
        None => 0,
    }
}

/// How many operations it counts as in source form.
#[tactic(auto, unfolding(sh_ir::specs::Limits::operation_count))]
fn counted_operations(kind: &OpKind) -> u128
    ensures value { result ≡ operation_count kind.now }
    ensures within { result ≤ 2 ^ 64 }
{
    let inside = region_length(kind) as u128;
    match kind.class() {
        OpClass::Sharding | OpClass::Note => inside,
        _ => inside + 1,
    }
}

/// Whether a function in source form has few operations.
pub(crate) fn are_few_operations(ops: &[Op]) -> bool
    ensures { result ≡ nat_le (sum (map (λ op. operation_count op.kind) ops.now)) max_operations }
{
    let mut count: u128 = 0;
    for op in ops {
        count = count + counted_operations(&op.kind);
        if count > MAX_OPERATIONS {
            return false;
        }
    }
    true
}

/// How many instructions it counts as in device form.
#[tactic(auto, unfolding(sh_ir::specs::Limits::instruction_count))]
fn counted_instructions(kind: &OpKind) -> u128
    ensures value { result ≡ instruction_count kind.now }
    ensures within { result ≤ 1 }
{
    match kind.class() {
        OpClass::Return => 0,
        _ => 1,
    }
}

/// Whether a function in device form has few instructions.
pub(crate) fn are_few_instructions(ops: &[Op]) -> bool
    ensures { result ≡ nat_le (sum (map (λ op. instruction_count op.kind) ops.now)) max_instructions }
{
    let mut count: u128 = 0;
    for op in ops {
        count = count + counted_instructions(&op.kind);
        if count > MAX_INSTRUCTIONS {
            return false;
        }
    }
    true
}
