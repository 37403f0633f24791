ghost use Rattle.std.specs.Prelude.{◌≡◌, ◌++◌, IfOk};
ghost use Rattle.sh_grammar.specs.declared.forms.Form.TheVariants as form;
ghost use Rattle.sh_ir.specs.Written.{first_type as first_type_of};
ghost use Rattle.sh_build.specs.Meaning.{
  ins_outs_of,
  made,
  structured_kind as kind_of_structured,
};
ghost use Rattle.sh_build.specs.Rows.{firsts, past};

use crate::parts::{Operands, Part, StructuredName};
use crate::row::Row;
use crate::sides::side;
use sh_base::{Duplicate, Ids, Items, Mem};
use sh_ir::{Broadcast, InsOuts, OpKind, Transpose, Types, ValueType};
use std::alloc::Global;

/// One list behind another.
fn joined(first: Ids, second: &Ids) -> Result<Ids, Mem>
    ensures { IfOk result (λ ids. ids ≡ first ++ second.now) }
{
    let mut ids = first.into_vec();
    ids.extend_from_slice(second.as_slice())?;
    Ok(Items::from_vec(ids))
}

/// The operands of a structured operation: those of `ins`, those of `outs`, and the names of the
/// function that its region uses.
pub(crate) fn structured_operands(ins: Ids, outs: Ids, captured: &Ids) -> Result<Ids, Mem>
    ensures { IfOk result (λ ids. ids ≡ ins ++ (outs ++ captured.now)) }
{
    let behind = joined(outs, captured)?;
    joined(ins, &behind)
}

/// What `ins` and `outs` write, and the values that each of them names.
pub(crate) fn ins_outs(ins: Operands, outs: Operands) -> (InsOuts, Ids, Ids)
    ensures { result ≡ (ins_outs_of ins outs, ins.values, outs.values) }
{
    let written = InsOuts {
        ins_count: ins.values.len(),
        ins_types: ins.types,
        outs_count: outs.values.len(),
        outs_types: outs.types,
    };
    (written, ins.values, outs.values)
}

/// The first of some types; none where there is none.
pub(crate) fn first_type(alloc: Global, types: &Types) -> Result<ValueType, Mem>
    ensures { IfOk result (λ t. t ≡ first_type_of types.now) }
{
    match types.get(0) {
        Some(value_type) => value_type.duplicate(alloc),
        None => Ok(ValueType::Nothing),
    }
}

/// An operation without attributes, by its name.
fn structured_kind(name: StructuredName, written: InsOuts) -> OpKind
    ensures { result ≡ kind_of_structured name written }
{
    match name {
        StructuredName::Fill => OpKind::Fill(written),
        StructuredName::Matmul => OpKind::Matmul(written),
        StructuredName::BatchMatmul => OpKind::BatchMatmul(written),
        StructuredName::Matvec => OpKind::Matvec(written),
        StructuredName::Vecmat => OpKind::Vecmat(written),
        StructuredName::Dot => OpKind::Dot(written),
        StructuredName::Conv1d => OpKind::Conv1d(written),
        StructuredName::Conv2d => OpKind::Conv2d(written),
    }
}

/// `linalg.NAME ins(..) outs(..) -> T`
#[tactic(auto, unfolding(crate::specs::Meaning::made))]
pub(crate) fn structured(alloc: Global, row: &mut Row) -> Result<Part, Mem>
    ensures made { IfOk result (λ part. part ≡ made form.Structured 0 (firsts 5 row.old)) }
    ensures rest { IfOk result (λ _. row.new ≡ past 5 row.old) }
{
    let name = row.next().structured();
    let ins = row.next().operands(alloc);
    let outs = row.next().operands(alloc);
    row.skip(1);
    let value_type = row.next().value_type();
    let (written, ins, outs) = ins_outs(ins, outs);
    let operands = structured_operands(ins, outs, &Items::new(alloc))?;
    side(alloc, structured_kind(name, written), operands, value_type)
}

/// `linalg.transpose ins(%a : T) outs(%b : U) permutation = nums`
#[tactic(auto, unfolding(crate::specs::Meaning::made))]
pub(crate) fn transpose(alloc: Global, row: &mut Row) -> Result<Part, Mem>
    ensures made { IfOk result (λ part. part ≡ made form.Transpose 0 (firsts 6 row.old)) }
    ensures rest { IfOk result (λ _. row.new ≡ past 6 row.old) }
{
    row.skip(1);
    let ins = row.next().operands(alloc);
    let outs = row.next().operands(alloc);
    row.skip(2);
    let permutation = row.next().numbers(alloc).into_items();
    let value_type = first_type(alloc, &outs.types)?;
    let (ins_outs, ins, outs) = ins_outs(ins, outs);
    let operands = structured_operands(ins, outs, &Items::new(alloc))?;
    let kind = OpKind::Transpose(Transpose {
        ins_outs,
        permutation,
    });
    side(alloc, kind, operands, value_type)
}

/// `linalg.broadcast ins(%a : T) outs(%b : U) dimensions = nums`
#[tactic(auto, unfolding(crate::specs::Meaning::made))]
pub(crate) fn broadcast(alloc: Global, row: &mut Row) -> Result<Part, Mem>
    ensures made { IfOk result (λ part. part ≡ made form.Broadcast 0 (firsts 6 row.old)) }
    ensures rest { IfOk result (λ _. row.new ≡ past 6 row.old) }
{
    row.skip(1);
    let ins = row.next().operands(alloc);
    let outs = row.next().operands(alloc);
    row.skip(2);
    let dimensions = row.next().numbers(alloc).into_items();
    let value_type = first_type(alloc, &outs.types)?;
    let (ins_outs, ins, outs) = ins_outs(ins, outs);
    let operands = structured_operands(ins, outs, &Items::new(alloc))?;
    let kind = OpKind::Broadcast(Broadcast {
        ins_outs,
        dimensions,
    });
    side(alloc, kind, operands, value_type)
}
