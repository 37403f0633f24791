ghost use Rattle.std.specs.Prelude.{◌≡◌, ◌≤◌, ◌↔◌, IfOk, IsTrue, length, map, option_and_then, option_map};
ghost use Rattle.sh_base.specs.Shape.{max_rank};
ghost use Rattle.std.specs.List.{AllByRecursion};
ghost use Rattle.sh_eval.specs.Evaluations.{CanEvaluate, FitsKind, FitsNest, KindGivesFew, gives_taken};
ghost use Rattle.sh_eval.specs.Evaluations.{kind_value, seat_in};
ghost use Rattle.sh_eval.specs.Values.{GivesFew, known_value};
ghost use Rattle.sh_ir.specs.Loops.{structure_of};
ghost use Rattle.sh_ir.specs.Agreement.{dims_of as dims_of_type};
ghost use Rattle.sh_ir.specs.Classes.{class_of};
ghost use Rattle.sh_sem.specs.Given.{Seat, alone, given, gives_nest, gives_piece, giving};
ghost use Rattle.sh_sem.specs.Pieces.{equal_piece as piece_of_equal};
ghost use Rattle.sh_sem.specs.Scalars.{width_of as width_of_type};

use crate::creators::{constant_op, empty_op};
use crate::layouts::{collapse_op, expand_op, extract_op, insert_op, join_op, pad_op, piece_op};
use crate::pieces::{equal_piece, listed_piece};
use crate::reading::entry_at;
use crate::typing::are_known;
use crate::values::{of_one_op, of_three_op, of_two_op, with_extents};
use sh_base::{Mem, Width};
use sh_ir::{Dim, Op, OpClass, OpKind, Take};
use sh_loops::{Formula, structured_op};
use sh_sem::{dims_of, width_of};
use sh_tensor::Tensor;
use std::alloc::Global;

/// Where a device stands in the group of an instruction.
#[derive(Clone, Copy)]
pub struct OpSeat {
    pub size: u64,
    pub place: u64,
}

/// What a structured operation gives.
fn nest_op(alloc: Global, op: &Op, ts: &[&Tensor]) -> Result<Option<Tensor>, Mem>
    requires { FitsNest op.now.kind op.now.operands op.now.result (map (λ t. t.now) ts.now) }
    ensures { IfOk result (λ out. out ≡ option_and_then
        (λ x. known_value x (dims_of_type op.now.result) (width_of_type op.now.result)
        (map (λ t. t.now) ts.now)) (option_map (gives_nest op.now.operands) (structure_of op.now.kind))) }
{
    let width = width_of(&op.result);
    let out = structured_op(alloc, &op.kind, op.operands.as_slice(), ts, width)?;
    Ok(with_extents(dims_of(&op.result), out))
}

/// What an element operation gives; nothing of other kinds.
fn element_op(alloc: Global, op: &Op, ts: &[&Tensor]) -> Result<Option<Tensor>, Mem>
    requires { FitsKind op.now.kind op.now.operands op.now.result (map (λ t. t.now) ts.now) }
    ensures { class_of op.now.kind ≡ OpClass.Element → (seat : Seat) → IfOk result
        (λ out. out ≡ option_and_then (λ x. known_value x (dims_of_type op.now.result) (width_of_type op.now.result)
        (map (λ t. t.now) ts.now)) (giving op.now.kind op.now.operands op.now.result seat)) }
{
    let width = width_of(&op.result);
    let dims = dims_of(&op.result);
    match &op.kind {
        OpKind::Binary(x) => {
            let out = of_two_op(alloc, Formula::Binary(*x, width), ts)?;
            Ok(with_extents(dims, out))
        }
        OpKind::Compare(x) => {
            let from = width_of(&x.operand_type);
            let out = of_two_op(alloc, Formula::Compare(x.predicate, from), ts)?;
            Ok(with_extents(dims, out))
        }
        OpKind::Select(x) => {
            let condition = width_of(&x.condition_type);
            let out = of_three_op(alloc, Formula::Choice(width), condition, ts)?;
            Ok(with_extents(dims, out))
        }
        OpKind::Cast(x) => {
            let from = width_of(&x.operand_type);
            let out = of_one_op(alloc, Formula::Cast(x.op, from, width), ts)?;
            Ok(with_extents(dims, out))
        }
        _ => Ok(None),
    }
}

/// What a device keeps of its tensor: one of so many pieces of one size.
fn equal_piece_op(
    alloc: Global,
    axis: u64,
    seat: OpSeat,
    dims: &[Dim],
    width: Width,
    ts: &[&Tensor],
) -> Result<Option<Tensor>, Mem>
    requires rank { length dims.now ≤ max_rank }
    requires widths { AllByRecursion (λ t. t.width ≡ width) (map (λ t. t.now) ts.now) }
    requires few { GivesFew (gives_piece axis (piece_of_equal seat.size seat.place)) dims.now
        (map (λ t. t.now) ts.now) }
    ensures { IfOk result (λ out. out
        ≡ known_value (gives_piece axis (piece_of_equal seat.size seat.place)) dims.now width
        (map (λ t. t.now) ts.now)) }
{
    if ts.len() != 1 {
        return Ok(None);
    }
    let t = ts[0];
    let extent = entry_at(t.shape().extents(), axis as usize);
    let piece = equal_piece(seat.size, seat.place, extent);
    piece_op(alloc, axis, piece, dims, width, t, ts)
}

/// What a device keeps of its tensor: the piece that is listed for its place.
fn listed_piece_op(
    alloc: Global,
    x: &Take,
    seat: OpSeat,
    dims: &[Dim],
    width: Width,
    ts: &[&Tensor],
) -> Result<Option<Tensor>, Mem>
    requires rank { length dims.now ≤ max_rank }
    requires widths { AllByRecursion (λ t. t.width ≡ width) (map (λ t. t.now) ts.now) }
    requires few { GivesFew (gives_taken x.now (seat_in seat)) dims.now (map (λ t. t.now) ts.now) }
    ensures { IfOk result (λ out. out
        ≡ known_value (gives_taken x.now (seat_in seat)) dims.now width (map (λ t. t.now) ts.now)) }
{
    if ts.len() != 1 {
        return Ok(None);
    }
    let t = ts[0];
    let extent = entry_at(t.shape().extents(), x.axis as usize);
    let piece = listed_piece(x.starts.as_slice(), x.sizes.as_slice(), seat.place, extent);
    piece_op(alloc, x.axis, piece, dims, width, t, ts)
}

/// What a creator or a layout gives; nothing of other kinds.
#[tactic(none)]
fn layout_op(alloc: Global, op: &Op, seat: OpSeat, ts: &[&Tensor]) -> Result<Option<Tensor>, Mem>
    requires fits { FitsKind op.now.kind op.now.operands op.now.result (map (λ t. t.now) ts.now) }
    requires rank { length (dims_of_type op.now.result) ≤ max_rank }
    requires few { KindGivesFew op.now (seat_in seat) (map (λ t. t.now) ts.now) }
    ensures { (class_of op.now.kind ≡ OpClass.Element → ⊥)
        → (class_of op.now.kind ≡ OpClass.Structured → ⊥)
        → (class_of op.now.kind ≡ OpClass.Convolution → ⊥) → IfOk result
        (λ out. out ≡ kind_value op.now (seat_in seat) (map (λ t. t.now) ts.now)) }
{
    let width = width_of(&op.result);
    let dims = dims_of(&op.result);
    match &op.kind {
        OpKind::Constant(x) => constant_op(alloc, x, dims, width, ts),
        OpKind::Empty => empty_op(alloc, dims, width, ts),
        OpKind::ExtractSlice(x) => extract_op(alloc, x, dims, width, ts),
        OpKind::InsertSlice(x) => insert_op(alloc, x, dims, width, ts),
        OpKind::CollapseShape(x) => collapse_op(alloc, x, dims, width, ts),
        OpKind::ExpandShape(x) => expand_op(alloc, x, dims, width, ts),
        OpKind::AllSlice(x) => equal_piece_op(alloc, x.slice_axis, seat, dims, width, ts),
        OpKind::Take(x) => listed_piece_op(alloc, x, seat, dims, width, ts),
        OpKind::Pad(x) => pad_op(alloc, x, dims, width, ts),
        OpKind::Join(x) => join_op(alloc, x.axis, dims, width, ts),
        _ => Ok(None),
    }
}

/// Whether an operation is of this class.
pub(crate) fn is_of(class: OpClass, other: OpClass) -> bool
    ensures { IsTrue result ↔ (class ≡ other) }
{
    class == other
}

/// What an operation gives by its kind, where the operands have the extents that their types know.
fn eval_kind(alloc: Global, op: &Op, seat: OpSeat, ts: &[&Tensor]) -> Result<Option<Tensor>, Mem>
    requires fits { FitsKind op.now.kind op.now.operands op.now.result (map (λ t. t.now) ts.now) }
    requires rank { length (dims_of_type op.now.result) ≤ max_rank }
    requires few { KindGivesFew op.now (seat_in seat) (map (λ t. t.now) ts.now) }
    ensures { IfOk result (λ out. out ≡ kind_value op.now (seat_in seat) (map (λ t. t.now) ts.now)) }
{
    let class = op.kind.class();
    if is_of(class, OpClass::Element) {
        return element_op(alloc, op, ts);
    }
    if is_of(class, OpClass::Structured) {
        return nest_op(alloc, op, ts);
    }
    if is_of(class, OpClass::Convolution) {
        return nest_op(alloc, op, ts);
    }
    layout_op(alloc, op, seat, ts)
}

/// What an operation gives of its operands at a seat: none exactly where it is stuck.
pub fn eval_borrowed(
    alloc: Global,
    op: &Op,
    seat: OpSeat,
    ts: &[&Tensor],
) -> Result<Option<Tensor>, Mem>
    requires { CanEvaluate op.now (seat_in seat) (map (λ t. t.now) ts.now) }
    ensures { IfOk result (λ out. out ≡ given op.now (seat_in seat) (map (λ t. t.now) ts.now)) }
{
    if is_of(op.kind.class(), OpClass::Note) {
        return Ok(None);
    }
    if !are_known(&op.kind, &op.result, ts) {
        return Ok(None);
    }
    eval_kind(alloc, op, seat, ts)
}

/// What an operation of a function in source form gives of its operands: none exactly where it is
/// stuck.
pub fn eval_op(alloc: Global, op: &Op, ins: &[Tensor]) -> Result<Option<Tensor>, Mem>
    requires { CanEvaluate op.now alone ins.now }
    ensures { IfOk result (λ out. out ≡ given op.now alone ins.now) }
{
    let mut ts: Vec<&Tensor> = Vec::with_capacity(alloc, ins.len())?;
    for at in 0..ins.len() {
        ts.push(&ins[at])?;
    }
    eval_borrowed(alloc, op, OpSeat { size: 1, place: 0 }, ts.as_slice())
}
