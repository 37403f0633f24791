ghost use Rattle.std.specs.Prelude.{◌≡◌, IfOk};
ghost use Rattle.sh_grammar.specs.declared.forms.Form.TheVariants as form;
ghost use Rattle.sh_build.specs.Meaning.{made, slice_of};
ghost use Rattle.sh_build.specs.Rows.{first_part, firsts, past};

use crate::parts::Part;
use crate::row::Row;
use crate::sides::{one_operand, side, two_operands};
use sh_base::{Items, Mem};
use sh_ir::{
    Call, CollapseShape, ExpandShape, ExtractSlice, InsertSlice, OpKind, RawSharding, Slice,
    ValueType,
};
use std::alloc::Global;

/// `tensor.empty() : T`
#[tactic(auto, unfolding(crate::specs::Meaning::made))]
pub(crate) fn empty_tensor(alloc: Global, row: &mut Row) -> Result<Part, Mem>
    ensures made { IfOk result (λ part. part ≡ made form.EmptyTensor 0 (firsts 5 row.old)) }
    ensures rest { IfOk result (λ _. row.new ≡ past 5 row.old) }
{
    row.skip(4);
    let value_type = row.next().value_type();
    side(alloc, OpKind::Empty, Items::new(alloc), value_type)
}

/// Offsets, sizes and strides, each a list of numbers.
fn slice(alloc: Global, row: &mut Row) -> Slice
    ensures slice { result ≡ slice_of (first_part row.old)
        (first_part (past 1 row.old)) (first_part (past 2 row.old)) }
    ensures rest { row.new ≡ past 3 row.old }
{
    let offsets = row.next().numbers(alloc).into_items();
    let sizes = row.next().numbers(alloc).into_items();
    let strides = row.next().numbers(alloc).into_items();
    Slice {
        offsets,
        sizes,
        strides,
    }
}

/// `tensor.extract_slice %a OFFSETS SIZES STRIDES : T to U`
#[tactic(auto, unfolding(crate::specs::Meaning::made))]
pub(crate) fn extract_slice(alloc: Global, row: &mut Row) -> Result<Part, Mem>
    ensures made { IfOk result (λ part. part ≡ made form.ExtractSlice 0 (firsts 9 row.old)) }
    ensures rest { IfOk result (λ _. row.new ≡ past 9 row.old) }
{
    row.skip(1);
    let operands = one_operand(alloc, row.next().mark().id)?;
    let slice = slice(alloc, row);
    row.skip(1);
    let source_type = row.next().value_type();
    row.skip(1);
    let value_type = row.next().value_type();
    let kind = OpKind::ExtractSlice(ExtractSlice { slice, source_type });
    side(alloc, kind, operands, value_type)
}

/// `tensor.insert_slice %a into %b OFFSETS SIZES STRIDES : T into U`
#[tactic(auto, unfolding(crate::specs::Meaning::made))]
pub(crate) fn insert_slice(alloc: Global, row: &mut Row) -> Result<Part, Mem>
    ensures made { IfOk result (λ part. part ≡ made form.InsertSlice 0 (firsts 11 row.old)) }
    ensures rest { IfOk result (λ _. row.new ≡ past 11 row.old) }
{
    row.skip(1);
    let source = row.next().mark().id;
    row.skip(1);
    let operands = two_operands(alloc, source, row.next().mark().id)?;
    let slice = slice(alloc, row);
    row.skip(1);
    let source_type = row.next().value_type();
    row.skip(1);
    let value_type = row.next().value_type();
    let kind = OpKind::InsertSlice(InsertSlice { slice, source_type });
    side(alloc, kind, operands, value_type)
}

/// `tensor.collapse_shape %a lists : T into U`
#[tactic(auto, unfolding(crate::specs::Meaning::made))]
pub(crate) fn collapse_shape(alloc: Global, row: &mut Row) -> Result<Part, Mem>
    ensures made { IfOk result (λ part. part ≡ made form.CollapseShape 0 (firsts 7 row.old)) }
    ensures rest { IfOk result (λ _. row.new ≡ past 7 row.old) }
{
    row.skip(1);
    let operands = one_operand(alloc, row.next().mark().id)?;
    let reassociation = row.next().lists(alloc).into_items();
    row.skip(1);
    let source_type = row.next().value_type();
    row.skip(1);
    let value_type = row.next().value_type();
    let kind = OpKind::CollapseShape(CollapseShape {
        reassociation,
        source_type,
    });
    side(alloc, kind, operands, value_type)
}

/// `tensor.expand_shape %a lists output_shape nums : T into U`
#[tactic(auto, unfolding(crate::specs::Meaning::made))]
pub(crate) fn expand_shape(alloc: Global, row: &mut Row) -> Result<Part, Mem>
    ensures made { IfOk result (λ part. part ≡ made form.ExpandShape 0 (firsts 9 row.old)) }
    ensures rest { IfOk result (λ _. row.new ≡ past 9 row.old) }
{
    row.skip(1);
    let operands = one_operand(alloc, row.next().mark().id)?;
    let reassociation = row.next().lists(alloc).into_items();
    row.skip(1);
    let output_shape = row.next().numbers(alloc).into_items();
    row.skip(1);
    let source_type = row.next().value_type();
    row.skip(1);
    let value_type = row.next().value_type();
    let kind = OpKind::ExpandShape(ExpandShape {
        reassociation,
        output_shape,
        source_type,
    });
    side(alloc, kind, operands, value_type)
}

/// `shard.sharding @grid split_axes = lists : !shard.sharding`
#[tactic(auto, unfolding(crate::specs::Meaning::made))]
pub(crate) fn sharding(alloc: Global, row: &mut Row) -> Result<Part, Mem>
    ensures made { IfOk result (λ part. part ≡ made form.Sharding 0 (firsts 9 row.old)) }
    ensures rest { IfOk result (λ _. row.new ≡ past 9 row.old) }
{
    row.skip(1);
    let grid = row.next().symbol(alloc);
    row.skip(2);
    let split = row.next().lists(alloc).into_items();
    let halos = row.next().numbers(alloc).into_items();
    let offsets = row.next().numbers(alloc).into_items();
    row.skip(2);
    let kind = OpKind::Sharding(RawSharding {
        grid,
        split,
        halos,
        offsets,
    });
    side(alloc, kind, Items::new(alloc), ValueType::Sharding)
}

/// `call @f(%a, %b) : (T, U) -> V`
#[tactic(auto, unfolding(crate::specs::Meaning::made))]
pub(crate) fn call(alloc: Global, row: &mut Row) -> Result<Part, Mem>
    ensures made { IfOk result (λ part. part ≡ made form.Call 0 (firsts 11 row.old)) }
    ensures rest { IfOk result (λ _. row.new ≡ past 11 row.old) }
{
    row.skip(1);
    let callee = row.next().symbol(alloc);
    row.skip(1);
    let operands = row.next().ids(alloc).into_items();
    row.skip(3);
    let operand_types = row.next().types(alloc).into_items();
    row.skip(2);
    let value_type = row.next().value_type();
    let kind = OpKind::Call(Call {
        callee,
        operand_types,
    });
    side(alloc, kind, operands, value_type)
}
