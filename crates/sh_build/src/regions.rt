ghost use Rattle.std.specs.Prelude.{◌≡◌, map, IfOk};
ghost use Rattle.sh_build.specs.declared.parts.Part.TheVariants as part;
ghost use Rattle.sh_build.specs.Meaning.{
  body_of as region_of,
  cell_width as width_of_cells,
  combiner_body as region_of_combiner,
};

use crate::parts::{BodyTail, Mark};
use crate::sides::two_operands;
use sh_base::{BinOp, Ids, Items, Mem, Width, Widths};
use sh_ir::{Arg, Args, Body, BodyKind, BodyOp, ValueType};
use sh_literals::Rest;
use std::alloc::Global;

/// The width of a type's cells; `i1` where it has none.
pub(crate) fn cell_width(value_type: &ValueType) -> Width
    ensures { result ≡ width_of_cells value_type.now }
{
    match value_type {
        ValueType::Scalar(width) => *width,
        ValueType::Tensor(it) => it.width,
        ValueType::Nothing => Width::I1,
        ValueType::Sharding => Width::I1,
        ValueType::Index => Width::I1,
    }
}

/// The names of block arguments.
fn argument_ids(alloc: Global, args: &Args) -> Result<Ids, Mem>
    ensures { IfOk result (λ ids. ids ≡ map (λ arg. arg.id) args.now) }
{
    let mut ids: Vec<u32> = Vec::new(alloc);
    for arg in args.as_slice() {
        ids.push(arg.id)?;
    }
    Ok(Items::from_vec(ids))
}

/// The widths of block arguments.
fn argument_widths(alloc: Global, args: &Args) -> Result<Widths, Mem>
    ensures { IfOk result (λ widths. widths ≡ map (λ arg. width_of_cells arg.value_type) args.now) }
{
    let mut widths: Vec<Width> = Vec::new(alloc);
    for arg in args.as_slice() {
        widths.push(cell_width(&arg.value_type))?;
    }
    Ok(Items::from_vec(widths))
}

/// The region of these block arguments, operations and yield.
pub(crate) fn region(alloc: Global, args: Rest<Arg>, tail: BodyTail) -> Result<Body, Mem>
    ensures { IfOk result (λ body. body ≡ region_of args (part.BodyTail tail)) }
{
    let args = args.into_items();
    let ids = argument_ids(alloc, &args)?;
    let widths = argument_widths(alloc, &args)?;
    Ok(Body {
        args: ids,
        widths,
        ops: tail.ops.into_items(),
        yields: tail.yields,
        width: tail.width,
        place: tail.place,
    })
}

/// The region that a combiner of cells of these widths stands for. Its three names are numbered
/// from that of the combiner on.
pub(crate) fn combiner_region(
    alloc: Global,
    op: BinOp,
    at: Mark,
    input: Width,
    output: Width,
) -> Result<Body, Mem>
    ensures { IfOk result (λ body. body ≡ region_of_combiner op at input output) }
{
    let Some(last) = at.id.checked_add(2) else {
        return Err(Mem);
    };
    let args = two_operands(alloc, at.id, at.id + 1)?;
    let operands = two_operands(alloc, at.id + 1, at.id)?;
    let widths = Vec::from_array(alloc, [input, output])?;
    let op = BodyOp {
        kind: BodyKind::Binary(op),
        operands,
        defines: last,
        result: ValueType::Scalar(output),
        place: at.place,
    };
    let ops = Vec::from_array(alloc, [op])?;
    Ok(Body {
        args,
        widths: Items::from_vec(widths),
        ops: Items::from_vec(ops),
        yields: last,
        width: output,
        place: at.place,
    })
}
