ghost use Rattle.std.specs.Prelude.{◌≡◌, ◌∷◌, [], IsTrue};
ghost use Rattle.sh_base.specs.Cells.{bits_of};
ghost use Rattle.sh_int.specs.Elements.{CanCast};
ghost use Rattle.sh_loops.specs.Formulas.{CanApply, WorksOn, operand_width};

use sh_base::{CastOp, Same, Width};
use sh_eval::{Formula, element_of_one, element_of_three, element_of_two};
use sh_ir::{Op, OpKind, ValueType};
use sh_tensor::Tensor;
use std::alloc::Global;
use std::test::Fail;

/// How many bits a number of a width has.
fn bits(w: Width) -> u32
    ensures { result ≡ bits_of w }
{
    match w {
        Width::I1 => 1,
        Width::I8 => 8,
        Width::I16 => 16,
        Width::I32 => 32,
        Width::I64 => 64,
    }
}

/// Whether a cast goes the way that its name says.
fn can_cast(op: CastOp, from: Width, to: Width) -> bool
    ensures { IsTrue result → CanCast op from to }
{
    match op {
        CastOp::Extsi | CastOp::Extui => bits(from) < bits(to),
        CastOp::Trunci => bits(to) < bits(from),
    }
}

/// Whether a formula can be applied.
fn can_apply(formula: Formula) -> bool
    ensures { IsTrue result → CanApply formula }
{
    match formula {
        Formula::Cast(op, from, to) => can_cast(op, from, to),
        Formula::Binary(..) | Formula::Compare(..) | Formula::Choice(_) => true,
    }
}

/// The width of its operands, but for the condition of a choice.
fn operand_width(formula: Formula) -> Width
    ensures { result ≡ operand_width formula }
{
    match formula {
        Formula::Binary(_, w) | Formula::Compare(_, w) | Formula::Choice(w) => w,
        Formula::Cast(_, from, _) => from,
    }
}

/// Whether a formula works on operands of this width.
fn works_on(formula: Formula, w: Width) -> bool
    ensures { IsTrue result → WorksOn formula (w ∷ []) }
{
    can_apply(formula) && operand_width(formula).same(&w)
}

/// The width of a type.
fn width_of(t: &ValueType) -> Width {
    match t {
        ValueType::Tensor(tensor) => tensor.width,
        ValueType::Scalar(width) => *width,
        ValueType::Nothing | ValueType::Sharding | ValueType::Index => Width::I1,
    }
}

/// What an element operation does.
fn formula_of(op: &Op) -> Result<Formula, Fail> {
    let width = width_of(&op.result);
    match &op.kind {
        OpKind::Binary(x) => Ok(Formula::Binary(*x, width)),
        OpKind::Compare(x) => Ok(Formula::Compare(x.predicate, width_of(&x.operand_type))),
        OpKind::Select(_) => Ok(Formula::Choice(width)),
        OpKind::Cast(x) => Ok(Formula::Cast(x.op, width_of(&x.operand_type), width)),
        _ => Err("no element operation")?,
    }
}

/// What a formula gives of a tensor.
fn of_one(alloc: Global, formula: Formula, a: &Tensor) -> Result<Option<Tensor>, Fail> {
    if !works_on(formula, a.width()) {
        return Err("an operand of another width")?;
    }
    Ok(element_of_one(alloc, formula, a)?)
}

/// What a formula gives of two tensors.
fn of_two(alloc: Global, formula: Formula, a: &Tensor, b: &Tensor) -> Result<Option<Tensor>, Fail> {
    if !works_on(formula, a.width()) || !a.width().same(&b.width()) {
        return Err("operands of another width")?;
    }
    if !b.shape().same(a.shape()) {
        return Err("operands of two shapes")?;
    }
    Ok(element_of_two(alloc, formula, a, b)?)
}

/// What a choice gives of conditions and two tensors.
fn of_three(
    alloc: Global,
    formula: Formula,
    conditions: &Tensor,
    a: &Tensor,
    b: &Tensor,
) -> Result<Option<Tensor>, Fail> {
    if !works_on(formula, a.width()) || !a.width().same(&b.width()) {
        return Err("operands of another width")?;
    }
    if !b.shape().same(a.shape()) || !conditions.shape().same(a.shape()) {
        return Err("operands of two shapes")?;
    }
    Ok(element_of_three(alloc, formula, conditions, a, b)?)
}

/// The value with the number of an operand.
fn operand<'a>(op: &Op, values: &'a [Tensor], at: usize) -> Result<&'a Tensor, Fail> {
    let name = op.operands.get(at).copied().ok_or("no such operand")?;
    Ok(values.get(name as usize).ok_or("no such value")?)
}

/// The values of all operands.
pub fn operands_in<'a>(
    alloc: Global,
    op: &Op,
    values: &'a [Tensor],
) -> Result<Vec<&'a Tensor>, Fail> {
    let mut found = Vec::new(alloc);
    for at in 0..op.operands.len() {
        found.push(operand(op, values, at)?)?;
    }
    Ok(found)
}

/// What an element operation gives, where its operands are the values of their numbers.
pub fn value_of(alloc: Global, op: &Op, values: &[Tensor]) -> Result<Tensor, Fail> {
    let formula = formula_of(op)?;
    let first = operand(op, values, 0)?;
    let given = match op.operands.len() {
        1 => of_one(alloc, formula, first)?,
        2 => of_two(alloc, formula, first, operand(op, values, 1)?)?,
        _ => of_three(
            alloc,
            formula,
            first,
            operand(op, values, 1)?,
            operand(op, values, 2)?,
        )?,
    };
    Ok(given.ok_or("a stuck cell")?)
}

/// The last value of operations, each of which takes values of smaller numbers.
pub fn last_value(alloc: Global, ops: &[Op], operands: Vec<Tensor>) -> Result<Tensor, Fail> {
    let mut values = operands;
    for op in ops {
        let value = value_of(alloc, op, values.as_slice())?;
        values.push(value)?;
    }
    Ok(values.pop().ok_or("no value")?)
}
