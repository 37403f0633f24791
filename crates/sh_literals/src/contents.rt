ghost use Rattle.std.specs.Prelude.{◌≡◌, ◌+◌, ◌*◌, ◌≤◌, min, false, nat_eq, IfOk};
ghost use Rattle.std.specs.Option.{option_map_or};
ghost use Rattle.sh_ir.specs.Literals.{is_zero as is_zero_extent, known_count};
ghost use Rattle.sh_literals.specs.declared.literals.Literal.TheVariants as literal;
ghost use Rattle.sh_literals.specs.LiteralCells.{
  are_extents as are_extents_of,
  cells_of as cells_of_elements,
  dense as dense_constant,
  dense_contents as contents_of_dense,
  fills_or_fits as may_fill,
  has_none as has_no_cells,
  held as held_cells,
  is_one_or_all as may_be_count,
  scalar as scalar_constant,
  shortened as short_form,
  tensor_contents as contents_of_tensor,
};

use crate::elements::{are_equal, cell_of, cells_of};
use crate::literals::{Element, Literal, Nested};
use crate::quoted::quoted_cells;
use sh_base::{Cells, Items, Mem, Text, Width};
use sh_ir::{Constant, Contents, Dim, TensorType, ValueType};
use std::alloc::Global;

/// A product with one more extent, cut at one more than a count.
fn cut_product(count: usize, product: u128, extent: u64) -> u128
    requires { product ≤ count + 1 }
    ensures { result ≡ min (extent * product) (count + 1) }
{
    let limit = count as u128 + 1;
    (u128::from(extent) * product).min(limit)
}

/// Whether a type with these extents has so many cells.
#[tactic(auto, using(crate::proofs::Counts::no_extent))]
fn is_count(dims: &[Dim], count: usize) -> bool
    ensures { result ≡ option_map_or (nat_eq count) (known_count dims.now) false }
{
    let mut product: u128 = 1;
    for dim in dims {
        let Dim::Known(extent) = dim else {
            return false;
        };
        product = cut_product(count, product, *extent);
    }
    product == count as u128
}

/// Whether the extent is 0.
fn is_zero(dim: &Dim) -> bool
    ensures { result ≡ is_zero_extent dim.now }
{
    match dim {
        Dim::Known(extent) => *extent == 0,
        Dim::Differs => false,
    }
}

/// Whether a type with these extents has no cells.
fn has_none(dims: &[Dim]) -> bool
    ensures { result ≡ has_no_cells dims.now }
{
    for dim in dims {
        if is_zero(dim) {
            return true;
        }
    }
    false
}

/// Whether lists of these lengths are those of a type, up to the first extent that is 0.
#[tactic(auto, using(crate::proofs::Ended::no_more))]
fn are_extents(dims: &[Dim], extents: &[u64]) -> bool
    ensures { result ≡ are_extents_of dims.now extents.now }
{
    for (at, dim) in dims.iter().enumerate() {
        let Dim::Known(known) = dim else {
            return false;
        };
        if at >= extents.len() || extents[at] != *known {
            return false;
        }
        if *known == 0 {
            return true;
        }
    }
    dims.len() == extents.len()
}

/// Whether one cell fills the tensor, or lists of these lengths are those of the type.
fn fills_or_fits(dims: &[Dim], extents: &[u64]) -> bool
    ensures { result ≡ may_fill dims.now extents.now }
{
    extents.is_empty() || are_extents(dims, extents)
}

/// The cells in their short form.
fn shortened(alloc: Global, dims: &[Dim], cells: Cells) -> Cells
    ensures { result ≡ short_form dims.now cells }
{
    if has_none(dims) {
        return Items::new(alloc);
    }
    if !are_equal(cells.as_slice()) {
        return cells;
    }
    let mut cells = cells.into_vec();
    cells.truncate(1);
    Items::from_vec(cells)
}

/// These cells in their short form, if they fit.
fn held(alloc: Global, dims: &[Dim], fits: bool, cells: Option<Cells>) -> Contents
    ensures { result ≡ held_cells dims.now fits cells }
{
    match cells {
        Some(cells) if fits => Contents::Held(shortened(alloc, dims, cells)),
        _ => Contents::Broken,
    }
}

/// What nested lists hold.
fn nested_contents(alloc: Global, it: &TensorType, nested: Nested) -> Result<Contents, Mem>
    ensures { IfOk result (λ contents. contents ≡
        held_cells it.now.dims (may_fill it.now.dims nested.extents)
        (cells_of_elements it.now.width nested.elements)) }
{
    let extents = nested.extents.into_items();
    let elements = nested.elements.into_items();
    let dims = it.dims.as_slice();
    let fits = fills_or_fits(dims, extents.as_slice());
    let cells = cells_of(alloc, it.width, elements.as_slice())?;
    Ok(held(alloc, dims, fits, cells))
}

/// Whether there is one cell, or as many as the type has.
fn is_one_or_all(dims: &[Dim], count: usize) -> bool
    ensures { result ≡ may_be_count dims.now count }
{
    count == 1 || is_count(dims, count)
}

/// What a string holds.
fn quoted_contents(alloc: Global, it: &TensorType, text: Text) -> Result<Contents, Mem>
    ensures { IfOk result (λ contents. contents ≡ contents_of_tensor it.now (literal.Quoted text)) }
{
    let dims = it.dims.as_slice();
    let cells = quoted_cells(alloc, it.width, text.as_slice())?;
    let fits = match &cells {
        Some(cells) => is_one_or_all(dims, cells.len()),
        None => false,
    };
    Ok(held(alloc, dims, fits, cells))
}

/// What a literal of a tensor type holds.
fn tensor_contents(alloc: Global, it: &TensorType, literal: Literal) -> Result<Contents, Mem>
    ensures { IfOk result (λ contents. contents ≡ contents_of_tensor it.now literal) }
{
    match literal {
        Literal::Empty => Ok(if has_none(it.dims.as_slice()) {
            Contents::Held(Items::new(alloc))
        } else {
            Contents::Broken
        }),
        Literal::Nested(nested) => nested_contents(alloc, it, nested),
        Literal::Ragged => Ok(Contents::Broken),
        Literal::Quoted(text) => quoted_contents(alloc, it, text),
    }
}

/// What `dense<..>` holds.
fn dense_contents(alloc: Global, value_type: &ValueType, literal: Literal) -> Result<Contents, Mem>
    ensures { IfOk result (λ contents. contents ≡ contents_of_dense value_type.now literal) }
{
    match value_type {
        ValueType::Tensor(it) => tensor_contents(alloc, it, literal),
        ValueType::Scalar(_) => Ok(Contents::Broken),
        ValueType::Nothing => Ok(Contents::Broken),
        ValueType::Sharding => Ok(Contents::Broken),
        ValueType::Index => Ok(Contents::Broken),
    }
}

/// A constant `dense<..> : T`.
pub fn dense(alloc: Global, value_type: ValueType, literal: Literal) -> Result<Constant, Mem>
    ensures { IfOk result (λ constant. constant ≡ dense_constant value_type literal) }
{
    let contents = dense_contents(alloc, &value_type, literal)?;
    Ok(Constant {
        value_type,
        contents,
    })
}

/// A constant of one element.
pub fn scalar(alloc: Global, width: Width, element: Element) -> Result<Constant, Mem>
    ensures { IfOk result (λ constant. constant ≡ scalar_constant width element) }
{
    let contents = match cell_of(width, element) {
        Some(cell) => Contents::Held(Items::from_vec(Vec::from_array(alloc, [cell])?)),
        None => Contents::Broken,
    };
    Ok(Constant {
        value_type: ValueType::Scalar(width),
        contents,
    })
}
