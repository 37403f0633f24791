ghost use Rattle.std.specs.Prelude.{◌≡◌, IfOk};
ghost use Rattle.sh_grammar.specs.declared.symbols.Event.TheVariants as event;
ghost use Rattle.sh_build.specs.Building.{made_of};
ghost use Rattle.sh_build.specs.Meaning.{made};
ghost use Rattle.sh_build.specs.Rows.{firsts, past};
ghost use Rattle.sh_build.specs.Sections.{section_of};
ghost use Rattle.sh_build.specs.Sizes.{size_of};
ghost use Rattle.sh_build.specs.declared.sections.Section.TheVariants as section;

use crate::arith_forms::{binary, cast, index, index_cast};
use crate::item_forms::*;
use crate::list_forms::*;
use crate::literal_forms::*;
use crate::operation_forms::*;
use crate::parts::Part;
use crate::region_forms::{combiner, generic, long_reduce, short_reduce};
use crate::row::Row;
use crate::sections::{Section, which_section};
use crate::shard_forms::*;
use crate::small_forms::*;
use crate::structured_forms::{broadcast, structured, transpose};
use crate::tensor_forms::*;
use crate::words::*;
use sh_base::{Kind, Mem};
use sh_grammar::Form;
use sh_literals::{Literal, Rest, no_list};
use std::alloc::Global;

/// The row in which what a form makes stands in place of its first `size` parts.
pub fn open(alloc: Global, form: Form, alternative: u16, size: u16, row: Row) -> Result<Row, Mem>
    requires { size ≡ size_of form alternative }
    ensures { IfOk result (λ new. new ≡ made_of (event.Opened form alternative size) row) }
{
    let mut row = row;
    let part = make(alloc, form, alternative, &mut row)?;
    row.put(part)
}

/// What a form makes of the parts of its row.
pub(crate) fn make(alloc: Global, form: Form, alternative: u16, row: &mut Row) -> Result<Part, Mem>
    ensures made { IfOk result (λ part.
        part ≡ made form alternative (firsts (size_of form alternative) row.old)) }
    ensures rest { IfOk result (λ _. row.new ≡ past (size_of form alternative) row.old) }
{
    match which_section(form) {
        Section::Items => make_item(alloc, form, alternative, row),
        Section::Functions => make_function(alloc, form, alternative, row),
        Section::Literals => make_literal(alloc, form, alternative, row),
        Section::RightSides => make_right_side(alloc, form, alternative, row),
        Section::Regions => make_region(alloc, form, alternative, row),
        Section::Clauses => make_clause(alloc, form, alternative, row),
    }
}

/// Aliases, maps and the items of a module.
#[tactic(auto, unfolding(crate::specs::Meaning::made))]
fn make_item(alloc: Global, form: Form, alternative: u16, row: &mut Row) -> Result<Part, Mem>
    requires { section_of form ≡ section.Items }
    ensures made { IfOk result (λ part.
        part ≡ made form alternative (firsts (size_of form alternative) row.old)) }
    ensures rest { IfOk result (λ _. row.new ≡ past (size_of form alternative) row.old) }
{
    match (form, alternative) {
        (Form::File, _) => Ok(row.pass(1, 0)),
        (Form::Hash | Form::Name, _) => Ok(row.next()),
        (Form::Aliases, 0) => Ok(Part::Aliases(Rest::new(alloc))),
        (Form::Aliases, _) => aliases(alloc, row),
        (Form::Contents, 0) => named_module(alloc, row),
        (Form::Contents, _) => bare_module(alloc, row),
        (Form::ModuleName, 0) => Ok(Part::ModuleName(None)),
        (Form::ModuleName, _) => Ok(module_name(alloc, row)),
        (Form::Items, 0) => Ok(no_items(alloc)),
        (Form::Items, _) => items(alloc, row),
        (Form::Alias, _) => Ok(alias(alloc, row)),
        (Form::Map, _) => Ok(map(alloc, row)),
        (Form::Names | Form::MoreNames, 0) => Ok(Part::Ids(Rest::new(alloc))),
        (Form::Names, _) => values(alloc, row),
        (Form::MoreNames, _) => {
            row.skip(1);
            values(alloc, row)
        }
        (Form::Item, 0) => grid(alloc, row),
        (Form::Item, 1) => device_func(alloc, row),
        (Form::Item, 2) => Ok(row.next()),
        (Form::Item, _) => call_item(alloc, row),
        (Form::Extents, 0) => extent(alloc, row),
        (Form::Extents, _) => last_extent(alloc, row),
        (Form::Arguments | Form::MoreArguments, 0) => Ok(Part::Constants(Rest::new(alloc))),
        (Form::Arguments, _) => arguments(alloc, row),
        (Form::MoreArguments, _) => {
            row.skip(1);
            arguments(alloc, row)
        }
        (Form::Argument, _) => dense_constant(alloc, row),
        (Form::Device, _) => device(alloc, row),
        (Form::Cuts | Form::MoreCuts, 0) => Ok(Part::Cuts(Rest::new(alloc))),
        (Form::Cuts, _) => cuts(alloc, row),
        (Form::MoreCuts, _) => {
            row.skip(1);
            cuts(alloc, row)
        }
        (Form::Cut, _) => cut(alloc, row),
        (Form::MaybeHalo | Form::MaybeOffsets, 0) => Ok(Part::Numbers(Rest::new(alloc))),
        (Form::MaybeHalo | Form::MaybeOffsets, _) => Ok(row.next()),
        (Form::Halo | Form::Offsets, _) => Ok(row.pass(2, 0)),
        _ => unreachable!(),
    }
}

/// Functions and types.
#[tactic(auto, unfolding(crate::specs::Meaning::made))]
fn make_function(alloc: Global, form: Form, alternative: u16, row: &mut Row) -> Result<Part, Mem>
    requires { section_of form ≡ section.Functions }
    ensures made { IfOk result (λ part.
        part ≡ made form alternative (firsts (size_of form alternative) row.old)) }
    ensures rest { IfOk result (λ _. row.new ≡ past (size_of form alternative) row.old) }
{
    match (form, alternative) {
        (Form::Dim, _) => Ok(row.next()),
        (Form::Func, _) => func(alloc, row),
        (Form::Visibility, 0) => Ok(Part::Flag(false)),
        (Form::Visibility, _) => Ok(flag(alternative == 1, row)),
        (Form::Parameters | Form::MoreParameters, 0) => Ok(Part::Args(Rest::new(alloc))),
        (Form::Parameters, _) => parameters(alloc, row),
        (Form::MoreParameters, _) => {
            row.skip(1);
            parameters(alloc, row)
        }
        (Form::Parameter, _) => parameter(alloc, row),
        (Form::Results, 0) => Ok(Part::Types(Rest::new(alloc))),
        (Form::Results, _) => Ok(row.pass(1, 0)),
        (Form::ResultTypes, 0) => one_type(alloc, row),
        (Form::ResultTypes, _) => Ok(row.pass(1, 1)),
        (Form::Operations, 0) => operations(alloc, row),
        (Form::Operations, _) => last_operation(alloc, row),
        (Form::Return, _) => return_op(alloc, row),
        (Form::Returned, 0) => Ok(no_operands(alloc)),
        (Form::Returned, _) => Ok(returned(alloc, row)),
        (Form::ValueType, 0) => Ok(tensor_type(alloc, row)),
        (Form::ValueType, _) => Ok(scalar_type(row)),
        (Form::Dims, 0) => Ok(Part::Dims(Rest::new(alloc))),
        (Form::Dims, _) => dims(alloc, row),
        (Form::Types | Form::MoreTypes, 0) => Ok(Part::Types(Rest::new(alloc))),
        (Form::Types, _) => types(alloc, row),
        (Form::MoreTypes, _) => {
            row.skip(1);
            types(alloc, row)
        }
        (Form::Values | Form::MoreValues, 0) => Ok(Part::Ids(Rest::new(alloc))),
        (Form::Values, _) => values(alloc, row),
        (Form::MoreValues, _) => {
            row.skip(1);
            values(alloc, row)
        }
        (Form::Width, _) => {
            row.skip(1);
            Ok(Part::Width(width_word(alternative)))
        }
        _ => unreachable!(),
    }
}

/// Literals and lists of numbers.
#[tactic(auto, unfolding(crate::specs::Meaning::made))]
fn make_literal(alloc: Global, form: Form, alternative: u16, row: &mut Row) -> Result<Part, Mem>
    requires { section_of form ≡ section.Literals }
    ensures made { IfOk result (λ part.
        part ≡ made form alternative (firsts (size_of form alternative) row.old)) }
    ensures rest { IfOk result (λ _. row.new ≡ past (size_of form alternative) row.old) }
{
    match (form, alternative) {
        (Form::Dense, _) => Ok(row.pass(2, 1)),
        (Form::Cells, 0) => Ok(Part::Literal(Literal::Empty)),
        (Form::Cells, 1) => Ok(row.next()),
        (Form::Cells, _) => Ok(string(alloc, row)),
        (Form::Element, 0) => number_element(alloc, row),
        (Form::Element, 3) => Ok(row.pass(1, 1)),
        (Form::Element, _) => truth_element(alloc, alternative == 1, row),
        (Form::Elements | Form::MoreElements, 0) => Ok(Part::Literal(no_list(alloc)?)),
        (Form::Elements, _) => elements(row),
        (Form::MoreElements, _) => {
            row.skip(1);
            elements(row)
        }
        (Form::Num, 0) => Ok(number(row)),
        (Form::Num, _) => Ok(negative(row)),
        (Form::Nums | Form::Lists, _) => Ok(row.pass(1, 1)),
        (Form::Numbers | Form::MoreNumbers, 0) => Ok(Part::Numbers(Rest::new(alloc))),
        (Form::Numbers, _) => numbers(alloc, row),
        (Form::MoreNumbers, _) => {
            row.skip(1);
            numbers(alloc, row)
        }
        (Form::ListItems | Form::MoreListItems, 0) => Ok(Part::Lists(Rest::new(alloc))),
        (Form::ListItems, _) => list_items(alloc, row),
        (Form::MoreListItems, _) => {
            row.skip(1);
            list_items(alloc, row)
        }
        _ => unreachable!(),
    }
}

/// Operations of a function.
#[tactic(auto, unfolding(crate::specs::Meaning::made))]
fn make_right_side(alloc: Global, form: Form, alternative: u16, row: &mut Row) -> Result<Part, Mem>
    requires { section_of form ≡ section.RightSides }
    ensures made { IfOk result (λ part.
        part ≡ made form alternative (firsts (size_of form alternative) row.old)) }
    ensures rest { IfOk result (λ _. row.new ≡ past (size_of form alternative) row.old) }
{
    match (form, alternative) {
        (Form::Reduce, _) => Ok(row.pass(1, 0)),
        (Form::CallName, _) => Ok(row.next()),
        (Form::Operation, _) => operation(alloc, row),
        (Form::RightSide, _) => side_of(alloc, row.next()),
        (Form::EmptyTensor, _) => empty_tensor(alloc, row),
        (Form::ExtractSlice, _) => extract_slice(alloc, row),
        (Form::InsertSlice, _) => insert_slice(alloc, row),
        (Form::CollapseShape, _) => collapse_shape(alloc, row),
        (Form::ExpandShape, _) => expand_shape(alloc, row),
        (Form::Structured, _) => structured(alloc, row),
        (Form::StructuredName, _) => {
            row.skip(1);
            Ok(Part::Structured(structured_word(alternative)))
        }
        (Form::Transpose, _) => transpose(alloc, row),
        (Form::Broadcast, _) => broadcast(alloc, row),
        (Form::Generic, _) => generic(alloc, row),
        (Form::Sharding, _) => sharding(alloc, row),
        (Form::Shard, _) => shard(alloc, row),
        (Form::AllGather, _) => all_gather(alloc, row),
        (Form::AllSlice, _) => all_slice(alloc, row),
        (Form::AllReduce, _) => all_reduce(alloc, row),
        (Form::ReduceScatter, _) => reduce_scatter(alloc, row),
        (Form::AllToAll, _) => all_to_all(alloc, row),
        (Form::Shift, _) => shift(alloc, row),
        (Form::UpdateHalo, _) => update_halo(alloc, row),
        (Form::Take, _) => take(alloc, row),
        (Form::Pad, _) => pad(alloc, row),
        (Form::Join, _) => join(alloc, row),
        (Form::Call, _) => call(alloc, row),
        _ => unreachable!(),
    }
}

/// Operations of regions.
#[tactic(auto, unfolding(crate::specs::Meaning::made))]
fn make_region(alloc: Global, form: Form, alternative: u16, row: &mut Row) -> Result<Part, Mem>
    requires { section_of form ≡ section.Regions }
    ensures made { IfOk result (λ part.
        part ≡ made form alternative (firsts (size_of form alternative) row.old)) }
    ensures rest { IfOk result (λ _. row.new ≡ past (size_of form alternative) row.old) }
{
    match (form, alternative) {
        (Form::Arith | Form::GenericRightSide, _) => Ok(row.next()),
        (Form::BlockArguments | Form::MoreBlockArguments, 0) => Ok(Part::Args(Rest::new(alloc))),
        (Form::BlockArguments, _) => parameters(alloc, row),
        (Form::MoreBlockArguments, _) => {
            row.skip(1);
            parameters(alloc, row)
        }
        (Form::Constant, _) => constant(alloc, row),
        (Form::Literal, 0) => truth_constant(alloc, true, row),
        (Form::Literal, 1) => truth_constant(alloc, false, row),
        (Form::Literal, 2) => number_constant(alloc, row),
        (Form::Literal, _) => dense_constant(alloc, row),
        (Form::Binary, _) => binary(alloc, row),
        (Form::BinaryName, _) => {
            row.skip(1);
            Ok(Part::BinOp(bin_op_word(alternative)))
        }
        (Form::Compare, _) => compare(alloc, row),
        (Form::Predicate, _) => {
            row.skip(1);
            Ok(Part::Predicate(predicate_word(alternative)))
        }
        (Form::Select, _) => select(alloc, row),
        (Form::SelectTypes, 0) => Ok(Part::Types(Rest::new(alloc))),
        (Form::SelectTypes, _) => second_type(alloc, row),
        (Form::Cast, _) => cast(alloc, row),
        (Form::CastName, _) => {
            row.skip(1);
            Ok(Part::CastOp(cast_op_word(alternative)))
        }
        (Form::ReduceTail, 0) => short_reduce(alloc, row),
        (Form::ReduceTail, _) => long_reduce(alloc, row),
        (Form::Combiner, _) => Ok(combiner(alternative, row)),
        (Form::MaybeNoOverflow, 0) => Ok(Part::Nothing),
        (Form::MaybeNoOverflow, _) => {
            row.skip(1);
            Ok(Part::Nothing)
        }
        (Form::NoOverflow, _) => {
            row.skip(8);
            Ok(Part::Nothing)
        }
        (Form::Body | Form::GenericBody, 0) => body(alloc, row),
        (Form::Body | Form::GenericBody, _) => Ok(row.next()),
        (Form::BodyOperation | Form::GenericOperation, _) => body_operation(alloc, row),
        (Form::LoopIndex, _) => index(alloc, row),
        (Form::IndexCast, _) => index_cast(alloc, row),
        (Form::Yield, _) => Ok(yield_op(alloc, row)),
        (Form::BlockArgument, _) => block_argument(alloc, row),
        _ => unreachable!(),
    }
}

/// What stands in several operations.
#[tactic(auto, unfolding(crate::specs::Meaning::made))]
fn make_clause(alloc: Global, form: Form, alternative: u16, row: &mut Row) -> Result<Part, Mem>
    requires { section_of form ≡ section.Clauses }
    ensures made { IfOk result (λ part.
        part ≡ made form alternative (firsts (size_of form alternative) row.old)) }
    ensures rest { IfOk result (λ _. row.new ≡ past (size_of form alternative) row.old) }
{
    match (form, alternative) {
        (Form::MaybeAxes, 0) => Ok(Part::Numbers(Rest::new(alloc))),
        (Form::MaybeAxes, _) => Ok(row.pass(2, 0)),
        (Form::MaybeIns, 0) => Ok(no_operands(alloc)),
        (Form::MaybeIns, _) => Ok(row.next()),
        (Form::Ins, _) => Ok(ins(alloc, row)),
        (Form::Outs, _) => Ok(outs(alloc, row)),
        (Form::Maps | Form::MoreMaps, 0) => Ok(Part::Maps(Rest::new(alloc))),
        (Form::Maps, _) => maps(alloc, row),
        (Form::MoreMaps, _) => {
            row.skip(1);
            maps(alloc, row)
        }
        (Form::MapOrAlias, 0) => Ok(aliased_map(alloc, row)),
        (Form::MapOrAlias, _) => Ok(row.next()),
        (Form::Iterators | Form::MoreIterators, 0) => Ok(Part::Iterators(Rest::new(alloc))),
        (Form::Iterators, _) => iterators(alloc, row),
        (Form::MoreIterators, _) => {
            row.skip(1);
            iterators(alloc, row)
        }
        (Form::On, _) => Ok(on(alloc, row)),
        (Form::MaybeReduction, 0) => Ok(Part::Kind(Kind::Sum)),
        (Form::MaybeReduction, _) => Ok(row.pass(2, 0)),
        (Form::ReductionKind, 0) => Ok(row.next()),
        (Form::ReductionKind, _) => Ok(row.pass(1, 1)),
        (Form::KindName, _) => {
            row.skip(1);
            Ok(Part::Kind(kind_word(alternative)))
        }
        (Form::MaybeForUsers | Form::MaybeRotate, 0) => Ok(Part::Flag(false)),
        (Form::MaybeForUsers | Form::MaybeRotate, _) => Ok(flag(true, row)),
        _ => unreachable!(),
    }
}
