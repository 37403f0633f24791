ghost use Rattle.std.specs.Prelude.{◌≡◌, ◌||◌, IfOk, nat_eq};
ghost use Rattle.std.specs.Cmp.Lexicographic.{pointwise};
ghost use Rattle.sh_literals.specs.LiteralCells.{
  in_front as in_front_of,
  no_list as list_of_none,
  single as one_element,
};
ghost use Rattle.sh_literals.specs.declared.literals.Literal.TheVariants as literal;

use crate::literals::{Element, Literal, Nested};
use crate::rests::Rest;
use sh_base::Mem;
use std::alloc::Global;

/// An element that is no list.
pub fn single(alloc: Global, element: Element) -> Result<Literal, Mem>
    ensures { IfOk result (λ it. it ≡ one_element element) }
{
    let none: Rest<Element> = Rest::new(alloc);
    Ok(Literal::Nested(Nested {
        extents: Rest::new(alloc),
        elements: none.before(element)?,
    }))
}

/// The list of no items.
pub fn no_list(alloc: Global) -> Result<Literal, Mem>
    ensures { IfOk result (λ it. it ≡ list_of_none) }
{
    let none: Rest<u64> = Rest::new(alloc);
    Ok(Literal::Nested(Nested {
        extents: none.before(0)?,
        elements: Rest::new(alloc),
    }))
}

/// A list with one more item in front. The elements of the item are moved, and not copied, where
/// the list had none.
pub fn in_front(item: Literal, items: Literal) -> Result<Literal, Mem>
    ensures { IfOk result (λ it. it ≡ in_front_of item items) }
{
    match (item, items) {
        (Literal::Nested(item), Literal::Nested(items)) => list_in_front(item, items),
        _ => Ok(Literal::Ragged),
    }
}

/// A list with one more item in front: an item of the shape of the others.
fn list_in_front(item: Nested, items: Nested) -> Result<Literal, Mem>
    ensures { IfOk result (λ it. it ≡ in_front_of (literal.Nested item) (literal.Nested items)) }
{
    let mut extents = items.extents;
    let Some(count) = extents.take_first() else {
        return Ok(Literal::Ragged);
    };
    if !is_fitting(count, &extents, &item.extents) {
        return Ok(Literal::Ragged);
    }
    let Some(count) = count.checked_add(1) else {
        return Err(Mem);
    };
    Ok(Literal::Nested(Nested {
        extents: item.extents.before(count)?,
        elements: items.elements.behind(item.elements)?,
    }))
}

/// Whether an item of these extents may join a list of so many items of others.
fn is_fitting(count: u64, others: &Rest<u64>, extents: &Rest<u64>) -> bool
    ensures { result ≡ (nat_eq count 0 || pointwise nat_eq others.now extents.now) }
{
    count == 0 || others.same(extents)
}
