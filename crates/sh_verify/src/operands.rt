ghost use Rattle.std.specs.Prelude.{◌≡◌, ◌+◌, ◌&&◌, ◌||◌, length, map, nat_eq, nat_le, nat_lt, not};
ghost use Rattle.std.specs.Cmp.Lexicographic.{pointwise};
ghost use Rattle.std.specs.List.{list_all};
ghost use Rattle.sh_ir.specs.declared.types.Dim.TheVariants.{Known};
ghost use Rattle.sh_ir.specs.Agreement as agreement;
ghost use Rattle.sh_ir.specs.Formed as formed;
ghost use Rattle.sh_ir.specs.Loops as loops;
ghost use Rattle.sh_ir.specs.Numbers as numbers;
ghost use Rattle.sh_ir.specs.Operands as operands;
ghost use Rattle.sh_ir.specs.Typing.{operand_types};
ghost use Rattle.sh_ir.specs.Written.{first_type};
ghost use Rattle.sh_verify.specs.Followings.{follow, map_in};

use crate::agreement::{cell_bits, has_same_rank_and_bits, type_agrees};
use crate::attributes::{input_rank, numbers_fit, output_rank};
use crate::context::Context;
use crate::joins::can_join;
use crate::loop_maps::{Followed, LoopMap, Operands, follow};
use crate::results::are_sliced;
use crate::sizes::dims;
use crate::typing::{is_scalar, is_test_of};
use sh_ir::{
    Arg, Broadcast, Call, Dim, InsOuts, InsertSlice, OpKind, Reduce, Transpose, ValueType,
};

// ---- widths

/// The bits of the first type; 0 where there is none.
fn first_bits(types: &[ValueType]) -> u64
    ensures { result ≡ agreement.cell_bits (first_type types.now) }
{
    match types.first() {
        Some(value_type) => cell_bits(value_type),
        None => 0,
    }
}

fn all_wide(types: &[ValueType]) -> bool
    ensures { result ≡ list_all (λ t. nat_lt 1 (agreement.cell_bits t)) types.now }
{
    types.iter().all(|value_type| 1 < cell_bits(value_type))
}

fn none_wider(types: &[ValueType], bits: u64) -> bool
    ensures { result ≡ list_all (λ t. nat_le (agreement.cell_bits t) bits) types.now }
{
    types.iter().all(|value_type| cell_bits(value_type) <= bits)
}

/// Whether the inputs can be extended to the output's width, and none is an `i1`.
#[tactic(auto, unfolding(sh_ir::specs::Operands::can_multiply))]
fn can_multiply(x: &InsOuts) -> bool
    ensures { result ≡ operands.can_multiply x.now }
{
    let inputs = x.ins_types.as_slice();
    let outputs = x.outs_types.as_slice();
    all_wide(inputs) && all_wide(outputs) && none_wider(inputs, first_bits(outputs))
}

fn all_have_bits(types: &[ValueType], bits: u64) -> bool
    ensures { result ≡ list_all (λ t. nat_eq bits (agreement.cell_bits t)) types.now }
{
    types.iter().all(|value_type| bits == cell_bits(value_type))
}

/// Whether the inputs have the output's width.
#[tactic(auto, unfolding(sh_ir::specs::Operands::all_of_bits))]
fn all_of_bits(x: &InsOuts) -> bool
    ensures { result ≡ operands.all_of_bits x.now }
{
    all_have_bits(x.ins_types.as_slice(), first_bits(x.outs_types.as_slice()))
}

fn is_first_scalar(types: &[ValueType]) -> bool
    ensures { result ≡ formed.is_scalar (first_type types.now) }
{
    match types.first() {
        Some(value_type) => is_scalar(value_type),
        None => false,
    }
}

// ---- structured operations

fn product_fits(x: &InsOuts, maps: &[LoopMap<'_>]) -> bool
    ensures { result ≡ (operands.can_multiply x.now
        && follow (map map_in maps.now) (operand_types x.now)) }
{
    can_multiply(x) && follow(Operands::Typed(x, maps))
}

#[tactic(auto, unfolding(sh_ir::specs::Operands::follows_maps))]
fn matmul_fits(x: &InsOuts) -> bool
    ensures { result ≡ (operands.can_multiply x.now
        && operands.follows_maps (loops.matmul_structure x.now)) }
{
    product_fits(
        x,
        &[
            LoopMap::Listed(&[0, 2]),
            LoopMap::Listed(&[2, 1]),
            LoopMap::Listed(&[0, 1]),
        ],
    )
}

#[tactic(auto, unfolding(sh_ir::specs::Operands::follows_maps))]
fn batch_matmul_fits(x: &InsOuts) -> bool
    ensures { result ≡ (operands.can_multiply x.now
        && operands.follows_maps (loops.batch_matmul_structure x.now)) }
{
    product_fits(
        x,
        &[
            LoopMap::Listed(&[0, 1, 3]),
            LoopMap::Listed(&[0, 3, 2]),
            LoopMap::Listed(&[0, 1, 2]),
        ],
    )
}

#[tactic(auto, unfolding(sh_ir::specs::Operands::follows_maps))]
fn matvec_fits(x: &InsOuts) -> bool
    ensures { result ≡ (operands.can_multiply x.now
        && operands.follows_maps (loops.matvec_structure x.now)) }
{
    product_fits(
        x,
        &[
            LoopMap::Listed(&[0, 1]),
            LoopMap::Listed(&[1]),
            LoopMap::Listed(&[0]),
        ],
    )
}

#[tactic(auto, unfolding(sh_ir::specs::Operands::follows_maps))]
fn vecmat_fits(x: &InsOuts) -> bool
    ensures { result ≡ (operands.can_multiply x.now
        && operands.follows_maps (loops.vecmat_structure x.now)) }
{
    product_fits(
        x,
        &[
            LoopMap::Listed(&[1]),
            LoopMap::Listed(&[1, 0]),
            LoopMap::Listed(&[0]),
        ],
    )
}

#[tactic(auto, unfolding(sh_ir::specs::Operands::follows_maps))]
fn dot_fits(x: &InsOuts) -> bool
    ensures { result ≡ (operands.can_multiply x.now
        && operands.follows_maps (loops.dot_structure x.now)) }
{
    product_fits(
        x,
        &[
            LoopMap::Listed(&[0]),
            LoopMap::Listed(&[0]),
            LoopMap::Listed(&[]),
        ],
    )
}

#[tactic(auto, unfolding(sh_ir::specs::Operands::follows_maps))]
fn conv_1d_fits(x: &InsOuts) -> bool
    ensures { result ≡ (operands.can_multiply x.now
        && operands.follows_maps (loops.conv_1d_structure x.now)) }
{
    product_fits(
        x,
        &[
            LoopMap::Summed(&[Followed::Sum(0, 1)]),
            LoopMap::Listed(&[1]),
            LoopMap::Listed(&[0]),
        ],
    )
}

#[tactic(auto, unfolding(sh_ir::specs::Operands::follows_maps))]
fn conv_2d_fits(x: &InsOuts) -> bool
    ensures { result ≡ (operands.can_multiply x.now
        && operands.follows_maps (loops.conv_2d_structure x.now)) }
{
    product_fits(
        x,
        &[
            LoopMap::Summed(&[Followed::Sum(0, 2), Followed::Sum(1, 3)]),
            LoopMap::Listed(&[2, 3]),
            LoopMap::Listed(&[0, 1]),
        ],
    )
}

#[tactic(auto, unfolding(sh_ir::specs::Operands::follows_maps))]
fn follows_transpose(x: &Transpose) -> bool
    ensures { result ≡ operands.follows_maps (loops.transpose_structure x.now) }
{
    let places = LoopMap::Places(input_rank(&x.ins_outs), x.permutation.as_slice());
    let output = LoopMap::Identity(output_rank(&x.ins_outs));
    follow(Operands::Typed(&x.ins_outs, &[places, output]))
}

#[tactic(auto, unfolding(sh_ir::specs::Operands::follows_maps))]
fn follows_broadcast(x: &Broadcast) -> bool
    ensures { result ≡ operands.follows_maps (loops.broadcast_structure x.now) }
{
    let rank = output_rank(&x.ins_outs);
    let input = LoopMap::Unlisted(rank, x.dimensions.as_slice());
    follow(Operands::Typed(&x.ins_outs, &[input, LoopMap::Identity(rank)]))
}

#[tactic(auto, unfolding(sh_ir::specs::Operands::follows_maps))]
fn follows_reduce(x: &Reduce) -> bool
    ensures { result ≡ operands.follows_maps (loops.reduce_structure x.now) }
{
    let rank = input_rank(&x.ins_outs);
    let output = LoopMap::Unlisted(rank, x.dimensions.as_slice());
    follow(Operands::Typed(&x.ins_outs, &[LoopMap::Identity(rank), output]))
}

fn transpose_fits(in_order: bool, x: &Transpose) -> bool
    ensures { result ≡ (operands.all_of_bits x.now.ins_outs
        && (nat_eq (loops.input_rank x.now.ins_outs) (loops.output_rank x.now.ins_outs)
        && (not in_order || operands.follows_maps (loops.transpose_structure x.now)))) }
{
    all_of_bits(&x.ins_outs)
        && input_rank(&x.ins_outs) == output_rank(&x.ins_outs)
        && (!in_order || follows_transpose(x))
}

/// Whether a rank and a number of dimensions are another rank together.
fn is_rank_of(few: usize, dimensions: usize, many: usize) -> bool
    ensures { result ≡ nat_eq (few + dimensions) many }
{
    few as u128 + dimensions as u128 == many as u128
}

fn broadcast_fits(in_order: bool, x: &Broadcast) -> bool
    ensures { result ≡ (operands.all_of_bits x.now.ins_outs
        && (nat_eq (loops.input_rank x.now.ins_outs + length x.now.dimensions)
        (loops.output_rank x.now.ins_outs)
        && (not in_order || operands.follows_maps (loops.broadcast_structure x.now)))) }
{
    let few = input_rank(&x.ins_outs);
    all_of_bits(&x.ins_outs)
        && is_rank_of(few, x.dimensions.len(), output_rank(&x.ins_outs))
        && (!in_order || follows_broadcast(x))
}

fn reduce_fits(in_order: bool, x: &Reduce) -> bool
    ensures { result ≡ (nat_eq (loops.output_rank x.now.ins_outs + length x.now.dimensions)
        (loops.input_rank x.now.ins_outs)
        && (not in_order || operands.follows_maps (loops.reduce_structure x.now))) }
{
    let few = output_rank(&x.ins_outs);
    is_rank_of(few, x.dimensions.len(), input_rank(&x.ins_outs)) && (!in_order || follows_reduce(x))
}

// ---- the other operations

#[tactic(auto, unfolding(sh_ir::specs::Operands::is_part_of))]
fn is_part_of(x: &InsertSlice, in_order: bool, value_type: &ValueType) -> bool
    ensures { result ≡ operands.is_part_of x.now in_order value_type.now }
{
    has_same_rank_and_bits(&x.source_type, value_type)
        && (!in_order
            || are_sliced(
                x.slice.sizes.as_slice(),
                dims(value_type),
                dims(&x.source_type),
            ))
}

fn agree_with(types: &[ValueType], args: &[Arg]) -> bool
    ensures { result ≡ pointwise agreement.types_agree types.now
        (map (λ arg. arg.value_type) args.now) }
{
    if types.len() != args.len() {
        return false;
    }
    for (at, value_type) in types.iter().enumerate() {
        if !type_agrees(value_type, &args[at].value_type) {
            return false;
        }
    }
    true
}

/// Whether the operands of a call are of the types of the function's arguments, if it is there.
#[tactic(auto, unfolding(sh_ir::specs::Operands::callee_takes))]
fn callee_takes(context: &Context<'_>, x: &Call) -> bool
    ensures { result ≡ operands.callee_takes context.now x.now }
{
    match context.func(x.callee.as_slice()) {
        Some(f) => agree_with(x.operand_types.as_slice(), f.args.as_slice()),
        None => true,
    }
}

fn fill_fits(x: &InsOuts) -> bool
    ensures { result ≡ (operands.all_of_bits x.now
        && formed.is_scalar (first_type x.now.ins_types)) }
{
    all_of_bits(x) && is_first_scalar(x.ins_types.as_slice())
}

/// What is asked of the types of operands besides that they are those of the values.
#[tactic(auto, unfolding(sh_ir::specs::Operands::operands_fit))]
pub(crate) fn operands_fit(context: &Context<'_>, kind: &OpKind, result_type: &ValueType) -> bool
    ensures { result ≡ operands.operands_fit context.now kind.now result_type.now }
{
    match kind {
        OpKind::Select(x) => is_test_of(&x.condition_type, result_type),
        OpKind::InsertSlice(x) => {
            is_part_of(x, numbers_fit(context, kind, result_type), result_type)
        }
        OpKind::Fill(x) => fill_fits(x),
        OpKind::Matmul(x) => matmul_fits(x),
        OpKind::BatchMatmul(x) => batch_matmul_fits(x),
        OpKind::Matvec(x) => matvec_fits(x),
        OpKind::Vecmat(x) => vecmat_fits(x),
        OpKind::Dot(x) => dot_fits(x),
        OpKind::Conv1d(x) => conv_1d_fits(x),
        OpKind::Conv2d(x) => conv_2d_fits(x),
        OpKind::Transpose(x) => transpose_fits(numbers_fit(context, kind, result_type), x),
        OpKind::Broadcast(x) => broadcast_fits(numbers_fit(context, kind, result_type), x),
        OpKind::Reduce(x) => reduce_fits(numbers_fit(context, kind, result_type), x),
        OpKind::Join(x) => can_join(x.axis, x.operand_types.as_slice()),
        OpKind::Call(x) => callee_takes(context, x),
        _ => true,
    }
}
