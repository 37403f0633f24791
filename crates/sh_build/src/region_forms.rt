ghost use Rattle.std.specs.Prelude.{◌≡◌, IfOk};
ghost use Rattle.sh_grammar.specs.declared.forms.Form.TheVariants as form;
ghost use Rattle.sh_build.specs.declared.parts.Part.TheVariants as parts;
ghost use Rattle.sh_ir.specs.Written.{first_type as first_type_of};
ghost use Rattle.sh_build.specs.Meaning.{
  cell_width as cell_width_of,
  combiner_body,
  generic as generic_of,
  made,
  reducing,
};
ghost use Rattle.sh_build.specs.Rows.{firsts, past};

use crate::parts::{Combiner, Operands, Part};
use crate::regions::{cell_width, combiner_region, region};
use crate::row::Row;
use crate::sides::side;
use crate::structured_forms::{first_type, ins_outs, structured_operands};
use crate::words::combiner_word;
use sh_base::{Mem, Numbers, Width};
use sh_ir::{AffineMaps, Body, Generic, IteratorTypes, OpKind, Reduce, Types, ValueType};
use sh_regions::captured_by;
use std::alloc::Global;

/// A reduction of these operands by this region.
fn reduction(
    alloc: Global,
    ins: Operands,
    outs: Operands,
    dimensions: Numbers,
    body: Body,
) -> Result<Part, Mem>
    ensures { IfOk result (λ part. part ≡ reducing ins outs dimensions body) }
{
    let value_type = first_type(alloc, &outs.types)?;
    let captured = captured_by(alloc, &body)?;
    let (ins_outs, ins, outs) = ins_outs(ins, outs);
    let operands = structured_operands(ins, outs, &captured)?;
    let kind = OpKind::Reduce(Reduce {
        ins_outs,
        dimensions,
        body,
    });
    side(alloc, kind, operands, value_type)
}

/// The width of the cells of the first of some types.
fn first_width(types: &Types) -> Width
    ensures { result ≡ cell_width_of (first_type_of types.now) }
{
    match types.get(0) {
        Some(value_type) => cell_width(value_type),
        None => Width::I1,
    }
}

/// The region that a combiner stands for between these operands.
fn short_region(
    alloc: Global,
    combiner: Combiner,
    ins: &Operands,
    outs: &Operands,
) -> Result<Body, Mem>
    ensures { IfOk result (λ body. body ≡ combiner_body combiner.op combiner.mark
        (cell_width_of (first_type_of ins.now.types))
        (cell_width_of (first_type_of outs.now.types))) }
{
    let input = first_width(&ins.types);
    let output = first_width(&outs.types);
    combiner_region(alloc, combiner.op, combiner.mark, input, output)
}

/// `{ COMBINER } ins(..) outs(..) dimensions = nums`
#[tactic(auto, unfolding(crate::specs::Meaning::made))]
pub(crate) fn short_reduce(alloc: Global, row: &mut Row) -> Result<Part, Mem>
    ensures made { IfOk result (λ part. part ≡ made form.ReduceTail 0 (firsts 9 row.old)) }
    ensures rest { IfOk result (λ _. row.new ≡ past 9 row.old) }
{
    row.skip(1);
    let combiner = row.next().combiner();
    row.skip(2);
    let ins = row.next().operands(alloc);
    let outs = row.next().operands(alloc);
    row.skip(2);
    let dimensions = row.next().numbers(alloc).into_items();
    let body = short_region(alloc, combiner, &ins, &outs)?;
    reduction(alloc, ins, outs, dimensions, body)
}

/// `ins(..) outs(..) dimensions = nums (..) { .. }`
#[tactic(auto, unfolding(crate::specs::Meaning::made))]
pub(crate) fn long_reduce(alloc: Global, row: &mut Row) -> Result<Part, Mem>
    ensures made { IfOk result (λ part. part ≡ made form.ReduceTail 1 (firsts 11 row.old)) }
    ensures rest { IfOk result (λ _. row.new ≡ past 11 row.old) }
{
    let ins = row.next().operands(alloc);
    let outs = row.next().operands(alloc);
    row.skip(2);
    let dimensions = row.next().numbers(alloc).into_items();
    row.skip(1);
    let args = row.next().args(alloc);
    row.skip(2);
    let tail = row.next().tail(alloc);
    row.skip(1);
    let body = region(alloc, args, tail)?;
    reduction(alloc, ins, outs, dimensions, body)
}

/// A generic of these operands by these maps, iterators and this region.
fn generic_side(
    alloc: Global,
    ins: Operands,
    outs: Operands,
    maps: AffineMaps,
    iterators: IteratorTypes,
    body: Body,
    value_type: ValueType,
) -> Result<Part, Mem>
    ensures { IfOk result (λ part. part ≡ generic_of ins outs (parts.Maps maps)
        (parts.Iterators iterators) body (parts.Type value_type)) }
{
    let captured = captured_by(alloc, &body)?;
    let (ins_outs, ins, outs) = ins_outs(ins, outs);
    let operands = structured_operands(ins, outs, &captured)?;
    let kind = OpKind::Generic(Generic {
        ins_outs,
        indexing_maps: maps,
        iterator_types: iterators,
        body,
    });
    side(alloc, kind, operands, value_type)
}

/// `linalg.generic {indexing_maps = [..], iterator_types = [..]} ins(..) outs(..) { .. } -> T`
#[tactic(auto, unfolding(crate::specs::Meaning::made))]
pub(crate) fn generic(alloc: Global, row: &mut Row) -> Result<Part, Mem>
    ensures made { IfOk result (λ part. part ≡ made form.Generic 0 (firsts 26 row.old)) }
    ensures rest { IfOk result (λ _. row.new ≡ past 26 row.old) }
{
    row.skip(5);
    let maps = row.next().maps(alloc).into_items();
    row.skip(5);
    let iterators = row.next().iterators(alloc).into_items();
    row.skip(2);
    let ins = row.next().operands(alloc);
    let outs = row.next().operands(alloc);
    row.skip(3);
    let args = row.next().args(alloc);
    row.skip(2);
    let tail = row.next().tail(alloc);
    row.skip(2);
    let value_type = row.next().value_type();
    let body = region(alloc, args, tail)?;
    generic_side(alloc, ins, outs, maps, iterators, body, value_type)
}

/// `arith.addi`, in a short reduction
#[tactic(auto, unfolding(crate::specs::Meaning::made))]
pub(crate) fn combiner(alternative: u16, row: &mut Row) -> Part
    ensures made { result ≡ made form.Combiner alternative (firsts 1 row.old) }
    ensures rest { row.new ≡ past 1 row.old }
{
    Part::Combiner(Combiner {
        op: combiner_word(alternative),
        mark: row.next().mark(),
    })
}
