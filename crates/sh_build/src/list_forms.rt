ghost use Rattle.std.specs.Prelude.{◌≡◌, [], ◌∷◌, IfOk};
ghost use Rattle.sh_grammar.specs.declared.forms.Form.TheVariants as form;
ghost use Rattle.sh_build.specs.declared.parts.Part.TheVariants as parts;
ghost use Rattle.sh_literals.specs.Fronts.{before};
ghost use Rattle.sh_build.specs.Meaning.{made, operands_of};
ghost use Rattle.sh_build.specs.Readings.{
  arg_in,
  args_in,
  constant_in,
  constants_in,
  cut_in,
  cuts_in,
  dim_in,
  dims_in,
  id_in,
  ids_in,
  lists_in,
  map_in,
  maps_in,
  numbers_in,
  signed_in,
  type_in,
  types_in,
};
ghost use Rattle.sh_build.specs.Rows.{first_part, firsts, past};

use crate::boxed::Boxed;
use crate::parts::{Operands, Part};
use crate::row::Row;
use sh_base::{Items, Mem};
use sh_ir::{Arg, Dim, TensorType, ValueType};
use sh_literals::Rest;
use std::alloc::Global;

/// `%a, %b`, or the words of a map
pub(crate) fn values(alloc: Global, row: &mut Row) -> Result<Part, Mem>
    ensures made { IfOk result (λ part. part ≡
        parts.Ids (id_in (first_part row.old) ∷ ids_in (first_part (past 1 row.old)))) }
    ensures rest { IfOk result (λ _. row.new ≡ past 2 row.old) }
{
    let first = row.next().mark().id;
    let more = row.next().ids(alloc);
    Ok(Part::Ids(more.before(first)?))
}

/// `T, U`
pub(crate) fn types(alloc: Global, row: &mut Row) -> Result<Part, Mem>
    ensures made { IfOk result (λ part. part ≡
        parts.Types (type_in (first_part row.old) ∷ types_in (first_part (past 1 row.old)))) }
    ensures rest { IfOk result (λ _. row.new ≡ past 2 row.old) }
{
    let first = row.next().value_type();
    let more = row.next().types(alloc);
    Ok(Part::Types(more.before(first)?))
}

/// `1, -2`
pub(crate) fn numbers(alloc: Global, row: &mut Row) -> Result<Part, Mem>
    ensures made { IfOk result (λ part. part ≡
        parts.Numbers (signed_in (first_part row.old) ∷ numbers_in (first_part (past 1 row.old)))) }
    ensures rest { IfOk result (λ _. row.new ≡ past 2 row.old) }
{
    let first = row.next().signed();
    let more = row.next().numbers(alloc);
    Ok(Part::Numbers(more.before(first)?))
}

/// `[0], [1]`
pub(crate) fn list_items(alloc: Global, row: &mut Row) -> Result<Part, Mem>
    ensures made { IfOk result (λ part. part ≡
        parts.Lists (numbers_in (first_part row.old) ∷ lists_in (first_part (past 1 row.old)))) }
    ensures rest { IfOk result (λ _. row.new ≡ past 2 row.old) }
{
    let first = row.next().numbers(alloc).into_items();
    let more = row.next().lists(alloc);
    Ok(Part::Lists(more.before(first)?))
}

/// `%a : T, %b : U`, or the same of a region
pub(crate) fn parameters(alloc: Global, row: &mut Row) -> Result<Part, Mem>
    ensures made { IfOk result (λ part. part ≡
        parts.Args (before (arg_in (first_part row.old)) (args_in (first_part (past 1 row.old))))) }
    ensures rest { IfOk result (λ _. row.new ≡ past 2 row.old) }
{
    let first = row.next().arg();
    let more = row.next().args(alloc);
    Ok(Part::Args(more.before_some(first)?))
}

/// Maps and aliases of maps
pub(crate) fn maps(alloc: Global, row: &mut Row) -> Result<Part, Mem>
    ensures made { IfOk result (λ part. part ≡
        parts.Maps (before (map_in (first_part row.old)) (maps_in (first_part (past 1 row.old))))) }
    ensures rest { IfOk result (λ _. row.new ≡ past 2 row.old) }
{
    let first = row.next().map();
    let more = row.next().maps(alloc);
    Ok(Part::Maps(more.before_some(first)?))
}

/// Cuts of a device item
pub(crate) fn cuts(alloc: Global, row: &mut Row) -> Result<Part, Mem>
    ensures made { IfOk result (λ part. part ≡
        parts.Cuts (before (cut_in (first_part row.old)) (cuts_in (first_part (past 1 row.old))))) }
    ensures rest { IfOk result (λ _. row.new ≡ past 2 row.old) }
{
    let first = row.next().cut();
    let more = row.next().cuts(alloc);
    Ok(Part::Cuts(more.before_some(first)?))
}

/// Arguments of a call item
pub(crate) fn arguments(alloc: Global, row: &mut Row) -> Result<Part, Mem>
    ensures made { IfOk result (λ part. part ≡
        parts.Constants (before (constant_in (first_part row.old))
        (constants_in (first_part (past 1 row.old))))) }
    ensures rest { IfOk result (λ _. row.new ≡ past 2 row.old) }
{
    let first = row.next().constant();
    let more = row.next().constants(alloc);
    Ok(Part::Constants(more.before_some(first)?))
}

/// `4x8x`
pub(crate) fn dims(alloc: Global, row: &mut Row) -> Result<Part, Mem>
    ensures made { IfOk result (λ part. part ≡
        parts.Dims (dim_in (first_part row.old) ∷ dims_in (first_part (past 1 row.old)))) }
    ensures rest { IfOk result (λ _. row.new ≡ past 2 row.old) }
{
    let first = row.next().dim();
    let more = row.next().dims(alloc);
    Ok(Part::Dims(more.before(first)?))
}

/// One result type
#[tactic(auto, unfolding(crate::specs::Meaning::made))]
pub(crate) fn one_type(alloc: Global, row: &mut Row) -> Result<Part, Mem>
    ensures made { IfOk result (λ part. part ≡ made form.ResultTypes 0 (firsts 1 row.old)) }
    ensures rest { IfOk result (λ _. row.new ≡ past 1 row.old) }
{
    let first = row.next().value_type();
    let none: Rest<ValueType> = Rest::new(alloc);
    Ok(Part::Types(none.before(first)?))
}

/// `, T`
#[tactic(auto, unfolding(crate::specs::Meaning::made))]
pub(crate) fn second_type(alloc: Global, row: &mut Row) -> Result<Part, Mem>
    ensures made { IfOk result (λ part. part ≡ made form.SelectTypes 0 (firsts 2 row.old)) }
    ensures rest { IfOk result (λ _. row.new ≡ past 2 row.old) }
{
    row.skip(1);
    let first = row.next().value_type();
    let none: Rest<ValueType> = Rest::new(alloc);
    Ok(Part::Types(none.before(first)?))
}

/// `tensor<4x8xi32>`
#[tactic(auto, unfolding(crate::specs::Meaning::made))]
pub(crate) fn tensor_type(alloc: Global, row: &mut Row) -> Part
    ensures made { result ≡ made form.ValueType 0 (firsts 5 row.old) }
    ensures rest { row.new ≡ past 5 row.old }
{
    row.skip(2);
    let dims = row.next().dims(alloc).into_items();
    let width = row.next().width();
    row.skip(1);
    Part::Type(ValueType::Tensor(TensorType { dims, width }))
}

/// `i32`
#[tactic(auto, unfolding(crate::specs::Meaning::made))]
pub(crate) fn scalar_type(row: &mut Row) -> Part
    ensures made { result ≡ made form.ValueType 0 (firsts 1 row.old) }
    ensures rest { row.new ≡ past 1 row.old }
{
    Part::Type(ValueType::Scalar(row.next().width()))
}

/// `%a : T`
#[tactic(auto, unfolding(crate::specs::Meaning::made))]
pub(crate) fn parameter(alloc: Global, row: &mut Row) -> Result<Part, Mem>
    ensures made { IfOk result (λ part. part ≡ made form.Parameter 0 (firsts 3 row.old)) }
    ensures rest { IfOk result (λ _. row.new ≡ past 3 row.old) }
{
    let id = row.next().mark().id;
    row.skip(1);
    let value_type = row.next().value_type();
    Ok(Part::Arg(Boxed::new(alloc, Arg { id, value_type })?))
}

/// `%in : i32`
#[tactic(auto, unfolding(crate::specs::Meaning::made))]
pub(crate) fn block_argument(alloc: Global, row: &mut Row) -> Result<Part, Mem>
    ensures made { IfOk result (λ part. part ≡ made form.BlockArgument 0 (firsts 3 row.old)) }
    ensures rest { IfOk result (λ _. row.new ≡ past 3 row.old) }
{
    let id = row.next().mark().id;
    row.skip(1);
    let value_type = ValueType::Scalar(row.next().width());
    Ok(Part::Arg(Boxed::new(alloc, Arg { id, value_type })?))
}

/// `2`
#[tactic(auto, unfolding(crate::specs::Meaning::made))]
pub(crate) fn number(row: &mut Row) -> Part
    ensures made { result ≡ made form.Num 0 (firsts 1 row.old) }
    ensures rest { row.new ≡ past 1 row.old }
{
    Part::Signed(i128::from(row.next().number()))
}

/// `-2`
#[tactic(auto, unfolding(crate::specs::Meaning::made))]
pub(crate) fn negative(row: &mut Row) -> Part
    ensures made { result ≡ made form.Num 0 (firsts 2 row.old) }
    ensures rest { row.new ≡ past 2 row.old }
{
    row.skip(1);
    Part::Signed(-i128::from(row.next().number()))
}

/// `2x4`
#[tactic(auto, unfolding(crate::specs::Meaning::made))]
pub(crate) fn extent(alloc: Global, row: &mut Row) -> Result<Part, Mem>
    ensures made { IfOk result (λ part. part ≡ made form.Extents 0 (firsts 2 row.old)) }
    ensures rest { IfOk result (λ _. row.new ≡ past 2 row.old) }
{
    let first = match row.next().dim() {
        Dim::Known(extent) => i128::from(extent),
        Dim::Differs => 0,
    };
    let more = row.next().numbers(alloc);
    Ok(Part::Numbers(more.before(first)?))
}

/// `4`
#[tactic(auto, unfolding(crate::specs::Meaning::made))]
pub(crate) fn last_extent(alloc: Global, row: &mut Row) -> Result<Part, Mem>
    ensures made { IfOk result (λ part. part ≡ made form.Extents 0 (firsts 1 row.old)) }
    ensures rest { IfOk result (λ _. row.new ≡ past 1 row.old) }
{
    let last = i128::from(row.next().number());
    let none: Rest<i128> = Rest::new(alloc);
    Ok(Part::Numbers(none.before(last)?))
}

/// `%a, %b : T, U`
#[tactic(auto, unfolding(crate::specs::Meaning::made))]
pub(crate) fn returned(alloc: Global, row: &mut Row) -> Part
    ensures made { result ≡ made form.Returned 0 (firsts 3 row.old) }
    ensures rest { row.new ≡ past 3 row.old }
{
    let values = row.next().ids(alloc).into_items();
    row.skip(1);
    let types = row.next().types(alloc).into_items();
    Part::Operands(Operands { values, types })
}

/// `ins(%a, %b : T, U)`
#[tactic(auto, unfolding(crate::specs::Meaning::made))]
pub(crate) fn ins(alloc: Global, row: &mut Row) -> Part
    ensures made { result ≡ made form.Ins 0 (firsts 6 row.old) }
    ensures rest { row.new ≡ past 6 row.old }
{
    row.skip(2);
    let values = row.next().ids(alloc).into_items();
    row.skip(1);
    let types = row.next().types(alloc).into_items();
    row.skip(1);
    Part::Operands(Operands { values, types })
}

/// `outs(%a : T)`
#[tactic(auto, unfolding(crate::specs::Meaning::made))]
pub(crate) fn outs(alloc: Global, row: &mut Row) -> Part
    ensures made { result ≡ made form.Outs 0 (firsts 6 row.old) }
    ensures rest { row.new ≡ past 6 row.old }
{
    row.skip(2);
    let values = row.next().ids(alloc).into_items();
    row.skip(1);
    let types = row.next().types(alloc).into_items();
    row.skip(1);
    Part::Operands(Operands { values, types })
}

/// No operands
pub(crate) fn no_operands(alloc: Global) -> Part
    ensures { result ≡ operands_of [] [] }
{
    Part::Operands(Operands {
        values: Items::new(alloc),
        types: Items::new(alloc),
    })
}
