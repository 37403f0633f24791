ghost use Rattle.std.specs.Prelude.{◌≡◌, ◌∷◌, IfOk};
ghost use Rattle.sh_grammar.specs.declared.forms.Form.TheVariants as form;
ghost use Rattle.sh_build.specs.declared.parts.Part.TheVariants as parts;
ghost use Rattle.sh_build.specs.Meaning.{constant_side, iterator_of as iterator_in_text, made};
ghost use Rattle.sh_build.specs.Readings.{iterators_in, quoted_in};
ghost use Rattle.sh_build.specs.Rows.{first_part, firsts, past};

use crate::parts::Part;
use crate::readings::discard;
use crate::row::Row;
use crate::sides::arith;
use sh_base::{Duplicate, Items, Mem, Text};
use sh_ir::{BodyKind, GridAxes, IteratorType};
use std::alloc::Global;

/// `on @g grid_axes = nums`
#[tactic(auto, unfolding(crate::specs::Meaning::made))]
pub(crate) fn on(alloc: Global, row: &mut Row) -> Part
    ensures made { result ≡ made form.On 0 (firsts 3 row.old) }
    ensures rest { row.new ≡ past 3 row.old }
{
    row.skip(1);
    let grid = row.next().symbol(alloc);
    let grid_axes = row.next().numbers(alloc).into_items();
    Part::On(GridAxes { grid, grid_axes })
}

/// An iterator by its string.
fn iterator_of(text: &Text) -> IteratorType
    ensures { result ≡ iterator_in_text text.now }
{
    if text.as_slice() == b"parallel".as_slice() {
        return IteratorType::Parallel;
    }
    if text.as_slice() == b"reduction".as_slice() {
        return IteratorType::Reduction;
    }
    IteratorType::Unknown
}

/// `"parallel", "reduction"`
pub(crate) fn iterators(alloc: Global, row: &mut Row) -> Result<Part, Mem>
    ensures made { IfOk result (λ part. part ≡
        parts.Iterators (iterator_in_text (quoted_in (first_part row.old))
        ∷ iterators_in (first_part (past 1 row.old)))) }
    ensures rest { IfOk result (λ _. row.new ≡ past 2 row.old) }
{
    let first = iterator_of(&row.next().quoted(alloc));
    let more = row.next().iterators(alloc);
    Ok(Part::Iterators(more.before(first)?))
}

/// An alias among maps
#[tactic(auto, unfolding(crate::specs::Meaning::made))]
pub(crate) fn aliased_map(alloc: Global, row: &mut Row) -> Part
    ensures made { result ≡ made form.MapOrAlias 0 (firsts 1 row.old) }
    ensures rest { row.new ≡ past 1 row.old }
{
    Part::Map(row.next().alias(alloc).map)
}

/// A constant as a right side.
fn constant_of(alloc: Global, part: Part) -> Result<Part, Mem>
    ensures { IfOk result (λ it. it ≡ constant_side part) }
{
    match part {
        Part::Constant(constant) => {
            let constant = constant.into_value();
            let value_type = constant.value_type.duplicate(alloc)?;
            let kind = BodyKind::Constant(constant);
            arith(alloc, kind, Items::new(alloc), value_type)
        }
        other => {
            discard(other);
            Ok(Part::Nothing)
        }
    }
}

/// `arith.constant LITERAL`
#[tactic(auto, unfolding(crate::specs::Meaning::made))]
pub(crate) fn constant(alloc: Global, row: &mut Row) -> Result<Part, Mem>
    ensures made { IfOk result (λ part. part ≡ made form.Constant 0 (firsts 2 row.old)) }
    ensures rest { IfOk result (λ _. row.new ≡ past 2 row.old) }
{
    row.skip(1);
    constant_of(alloc, row.next())
}

/// A word that is written, as what it says.
pub(crate) fn flag(says: bool, row: &mut Row) -> Part
    ensures made { result ≡ parts.Flag says }
    ensures rest { row.new ≡ past 1 row.old }
{
    row.skip(1);
    Part::Flag(says)
}
