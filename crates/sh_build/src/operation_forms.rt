ghost use Rattle.std.specs.Prelude.{◌≡◌, IfOk};
ghost use Rattle.sh_grammar.specs.declared.forms.Form.TheVariants as form;
ghost use Rattle.sh_build.specs.Meaning.{defining as op_of_side, defining_in_body as op_of_arith, made, op_kind_of, selecting, side_of as side_of_part};
ghost use Rattle.sh_ir.specs.Written.{test_type as type_of_test};
ghost use Rattle.sh_build.specs.Rows.{firsts, past};

use crate::boxed::Boxed;
use crate::parts::{BodyTail, Mark, Part};
use crate::readings::discard;
use crate::row::Row;
use crate::sides::{arith, side, three_operands, two_operands};
use sh_base::{Duplicate, Ids, Mem, Width};
use sh_ir::{BodyKind, BodyOp, Compare, Op, OpKind, Return, Select, TensorType, ValueType};
use sh_literals::Rest;
use std::alloc::Global;

/// A region's operation as one of a function.
fn op_kind(kind: BodyKind) -> OpKind
    ensures { result ≡ op_kind_of kind }
{
    match kind {
        BodyKind::Constant(it) => OpKind::Constant(it),
        BodyKind::Binary(it) => OpKind::Binary(it),
        BodyKind::Compare(it) => OpKind::Compare(it),
        BodyKind::Select(it) => OpKind::Select(it),
        BodyKind::Cast(it) => OpKind::Cast(it),
        BodyKind::Index(_) => OpKind::Empty,
        BodyKind::IndexCast => OpKind::Empty,
    }
}

/// A right side.
pub(crate) fn side_of(alloc: Global, part: Part) -> Result<Part, Mem>
    ensures { IfOk result (λ r. r ≡ side_of_part part) }
{
    match part {
        Part::Arith(arith) => {
            let arith = arith.into_value();
            side(alloc, op_kind(arith.kind), arith.operands, arith.result)
        }
        other => Ok(other),
    }
}

/// An operation that defines a name.
fn defining(alloc: Global, name: Mark, part: Part) -> Result<Part, Mem>
    ensures { IfOk result (λ r. r ≡ op_of_side name part) }
{
    match part {
        Part::RightSide(side) => {
            let side = side.into_value();
            let op = Op {
                kind: side.kind,
                operands: side.operands,
                defines: Some(name.id),
                result: side.result,
                place: name.place,
            };
            Ok(Part::Op(Boxed::new(alloc, op)?))
        }
        other => {
            discard(other);
            Ok(Part::Nothing)
        }
    }
}

/// An operation of a region that defines a name.
fn defining_in_body(alloc: Global, name: Mark, part: Part) -> Result<Part, Mem>
    ensures { IfOk result (λ r. r ≡ op_of_arith name part) }
{
    match part {
        Part::Arith(arith) => {
            let arith = arith.into_value();
            let op = BodyOp {
                kind: arith.kind,
                operands: arith.operands,
                defines: name.id,
                result: arith.result,
                place: name.place,
            };
            Ok(Part::BodyOp(Boxed::new(alloc, op)?))
        }
        other => {
            discard(other);
            Ok(Part::Nothing)
        }
    }
}

/// `%r = ..`
#[tactic(auto, unfolding(crate::specs::Meaning::made))]
pub(crate) fn operation(alloc: Global, row: &mut Row) -> Result<Part, Mem>
    ensures made { IfOk result (λ part. part ≡ made form.Operation 0 (firsts 3 row.old)) }
    ensures rest { IfOk result (λ _. row.new ≡ past 3 row.old) }
{
    let name = row.next().mark();
    row.skip(1);
    let right = row.next();
    defining(alloc, name, right)
}

/// `%r = ..` in a region
#[tactic(auto, unfolding(crate::specs::Meaning::made))]
pub(crate) fn body_operation(alloc: Global, row: &mut Row) -> Result<Part, Mem>
    ensures made { IfOk result (λ part. part ≡ made form.BodyOperation 0 (firsts 3 row.old)) }
    ensures rest { IfOk result (λ _. row.new ≡ past 3 row.old) }
{
    let name = row.next().mark();
    row.skip(1);
    let right = row.next();
    defining_in_body(alloc, name, right)
}

/// The operations of a function
#[tactic(auto, unfolding(crate::specs::Meaning::made))]
pub(crate) fn operations(alloc: Global, row: &mut Row) -> Result<Part, Mem>
    ensures made { IfOk result (λ part. part ≡ made form.Operations 0 (firsts 2 row.old)) }
    ensures rest { IfOk result (λ _. row.new ≡ past 2 row.old) }
{
    let first = row.next().op();
    let more = row.next().ops(alloc);
    Ok(Part::Ops(more.before_some(first)?))
}

/// The return of a function
#[tactic(auto, unfolding(crate::specs::Meaning::made))]
pub(crate) fn last_operation(alloc: Global, row: &mut Row) -> Result<Part, Mem>
    ensures made { IfOk result (λ part. part ≡ made form.Operations 0 (firsts 1 row.old)) }
    ensures rest { IfOk result (λ _. row.new ≡ past 1 row.old) }
{
    let last = row.next().op();
    let none: Rest<Op> = Rest::new(alloc);
    Ok(Part::Ops(none.before_some(last)?))
}

/// `return %a : T`
#[tactic(auto, unfolding(crate::specs::Meaning::made))]
pub(crate) fn return_op(alloc: Global, row: &mut Row) -> Result<Part, Mem>
    ensures made { IfOk result (λ part. part ≡ made form.Return 0 (firsts 2 row.old)) }
    ensures rest { IfOk result (λ _. row.new ≡ past 2 row.old) }
{
    let place = row.next().mark().place;
    let operands = row.next().operands(alloc);
    let op = Op {
        kind: OpKind::Return(Return {
            operand_types: operands.types,
        }),
        operands: operands.values,
        defines: None,
        result: ValueType::Nothing,
        place,
    };
    Ok(Part::Op(Boxed::new(alloc, op)?))
}

/// `arith.cmpi PREDICATE, %a, %b : T`
#[tactic(auto, unfolding(crate::specs::Meaning::made))]
pub(crate) fn compare(alloc: Global, row: &mut Row) -> Result<Part, Mem>
    ensures made { IfOk result (λ part. part ≡ made form.Compare 0 (firsts 8 row.old)) }
    ensures rest { IfOk result (λ _. row.new ≡ past 8 row.old) }
{
    row.skip(1);
    let predicate = row.next().predicate();
    row.skip(1);
    let first = row.next().mark().id;
    row.skip(1);
    let operands = two_operands(alloc, first, row.next().mark().id)?;
    row.skip(1);
    let operand_type = row.next().value_type();
    let value_type = test_type(alloc, &operand_type)?;
    let kind = BodyKind::Compare(Compare {
        predicate,
        operand_type,
    });
    arith(alloc, kind, operands, value_type)
}

/// `arith.select %c, %a, %b : T, U`
#[tactic(auto, unfolding(crate::specs::Meaning::made))]
pub(crate) fn select(alloc: Global, row: &mut Row) -> Result<Part, Mem>
    ensures made { IfOk result (λ part. part ≡ made form.Select 0 (firsts 9 row.old)) }
    ensures rest { IfOk result (λ _. row.new ≡ past 9 row.old) }
{
    row.skip(1);
    let condition = row.next().mark().id;
    row.skip(1);
    let first = row.next().mark().id;
    row.skip(1);
    let operands = three_operands(alloc, condition, first, row.next().mark().id)?;
    row.skip(1);
    let condition_type = row.next().value_type();
    let more = row.next().types(alloc);
    selection(alloc, operands, condition_type, more.into_first())
}

/// A choice by its types: where one is written it is that of the value.
fn selection(
    alloc: Global,
    operands: Ids,
    first: ValueType,
    second: Option<ValueType>,
) -> Result<Part, Mem>
    ensures { IfOk result (λ part. part ≡ selecting operands first second) }
{
    let (condition_type, value_type) = match second {
        None => (ValueType::Scalar(Width::I1), first),
        Some(second) => (first, second),
    };
    arith(
        alloc,
        BodyKind::Select(Select { condition_type }),
        operands,
        value_type,
    )
}

/// The type of a test of values of this type.
fn test_type(alloc: Global, value_type: &ValueType) -> Result<ValueType, Mem>
    ensures { IfOk result (λ t. t ≡ type_of_test value_type.now) }
{
    match value_type {
        ValueType::Scalar(_) => Ok(ValueType::Scalar(Width::I1)),
        ValueType::Tensor(it) => Ok(ValueType::Tensor(TensorType {
            dims: it.dims.duplicate(alloc)?,
            width: Width::I1,
        })),
        ValueType::Nothing => Ok(ValueType::Nothing),
        ValueType::Sharding => Ok(ValueType::Sharding),
        ValueType::Index => Ok(ValueType::Index),
    }
}

/// `linalg.yield %v : i32`
#[tactic(auto, unfolding(crate::specs::Meaning::made))]
pub(crate) fn yield_op(alloc: Global, row: &mut Row) -> Part
    ensures made { result ≡ made form.Yield 0 (firsts 4 row.old) }
    ensures rest { row.new ≡ past 4 row.old }
{
    let place = row.next().mark().place;
    let yields = row.next().mark().id;
    row.skip(1);
    let width = row.next().width();
    Part::BodyTail(BodyTail {
        ops: Rest::new(alloc),
        yields,
        width,
        place,
    })
}

/// The operations of a region
#[tactic(auto, unfolding(crate::specs::Meaning::made))]
pub(crate) fn body(alloc: Global, row: &mut Row) -> Result<Part, Mem>
    ensures made { IfOk result (λ part. part ≡ made form.Body 0 (firsts 2 row.old)) }
    ensures rest { IfOk result (λ _. row.new ≡ past 2 row.old) }
{
    let first = row.next().body_op();
    let tail = row.next().tail(alloc);
    Ok(Part::BodyTail(BodyTail {
        ops: tail.ops.before_some(first)?,
        yields: tail.yields,
        width: tail.width,
        place: tail.place,
    }))
}
