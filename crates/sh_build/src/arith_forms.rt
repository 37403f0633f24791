ghost use Rattle.std.specs.Prelude.{◌≡◌, IfOk};
ghost use Rattle.sh_grammar.specs.declared.forms.Form.TheVariants as form;
ghost use Rattle.sh_build.specs.Meaning.{made};
ghost use Rattle.sh_build.specs.Rows.{firsts, past};

use crate::parts::Part;
use crate::row::Row;
use crate::sides::{arith, one_operand, two_operands};
use sh_base::{Items, Mem};
use sh_ir::{BodyKind, Cast, Index, ValueType};
use std::alloc::Global;

/// `arith.NAME %a, %b : T`
#[tactic(auto, unfolding(crate::specs::Meaning::made))]
pub(crate) fn binary(alloc: Global, row: &mut Row) -> Result<Part, Mem>
    ensures made { IfOk result (λ part. part ≡ made form.Binary 0 (firsts 6 row.old)) }
    ensures rest { IfOk result (λ _. row.new ≡ past 6 row.old) }
{
    let op = row.next().bin_op();
    let first = row.next().mark().id;
    row.skip(1);
    let operands = two_operands(alloc, first, row.next().mark().id)?;
    row.skip(1);
    let value_type = row.next().value_type();
    arith(alloc, BodyKind::Binary(op), operands, value_type)
}

/// `arith.NAME %a : T to U`
#[tactic(auto, unfolding(crate::specs::Meaning::made))]
pub(crate) fn cast(alloc: Global, row: &mut Row) -> Result<Part, Mem>
    ensures made { IfOk result (λ part. part ≡ made form.Cast 0 (firsts 6 row.old)) }
    ensures rest { IfOk result (λ _. row.new ≡ past 6 row.old) }
{
    let op = row.next().cast_op();
    let operands = one_operand(alloc, row.next().mark().id)?;
    row.skip(1);
    let operand_type = row.next().value_type();
    row.skip(1);
    let value_type = row.next().value_type();
    arith(
        alloc,
        BodyKind::Cast(Cast { op, operand_type }),
        operands,
        value_type,
    )
}

/// `linalg.index N : index`
#[tactic(auto, unfolding(crate::specs::Meaning::made))]
pub(crate) fn index(alloc: Global, row: &mut Row) -> Result<Part, Mem>
    ensures made { IfOk result (λ part. part ≡ made form.LoopIndex 0 (firsts 4 row.old)) }
    ensures rest { IfOk result (λ _. row.new ≡ past 4 row.old) }
{
    row.skip(1);
    let dimension = row.next().number();
    row.skip(2);
    arith(
        alloc,
        BodyKind::Index(Index { dimension }),
        Items::new(alloc),
        ValueType::Index,
    )
}

/// `arith.index_cast %i : index to WIDTH`
#[tactic(auto, unfolding(crate::specs::Meaning::made))]
pub(crate) fn index_cast(alloc: Global, row: &mut Row) -> Result<Part, Mem>
    ensures made { IfOk result (λ part. part ≡ made form.IndexCast 0 (firsts 6 row.old)) }
    ensures rest { IfOk result (λ _. row.new ≡ past 6 row.old) }
{
    row.skip(1);
    let operands = one_operand(alloc, row.next().mark().id)?;
    row.skip(3);
    let value_type = ValueType::Scalar(row.next().width());
    arith(alloc, BodyKind::IndexCast, operands, value_type)
}
