ghost use Rattle.std.specs.Prelude.{◌≡◌, IfOk};
ghost use Rattle.sh_grammar.specs.declared.forms.Form.TheVariants as form;
ghost use Rattle.sh_literals.specs.LiteralCells.{
  in_front as literal_in_front,
  scalar as scalar_constant,
  single as one_element,
};
ghost use Rattle.sh_base.specs.declared.numbers.Width.TheVariants as width;
ghost use Rattle.sh_literals.specs.declared.literals.Element.TheVariants as element;
ghost use Rattle.sh_build.specs.declared.parts.Part.TheVariants as parts;
ghost use Rattle.sh_build.specs.Meaning.{made};
ghost use Rattle.sh_build.specs.Readings.{literal_in};
ghost use Rattle.sh_build.specs.Rows.{first_part, firsts, past};

use crate::boxed::Boxed;
use crate::parts::Part;
use crate::row::Row;
use sh_base::{Mem, Width};
use sh_literals::{Element, Literal, dense, in_front, scalar, single};
use std::alloc::Global;

/// `"0x01"`
#[tactic(auto, unfolding(crate::specs::Meaning::made))]
pub(crate) fn string(alloc: Global, row: &mut Row) -> Part
    ensures made { result ≡ made form.Cells 2 (firsts 1 row.old) }
    ensures rest { row.new ≡ past 1 row.old }
{
    Part::Literal(Literal::Quoted(row.next().quoted(alloc)))
}

/// `1`
#[tactic(auto, unfolding(crate::specs::Meaning::made))]
pub(crate) fn number_element(alloc: Global, row: &mut Row) -> Result<Part, Mem>
    ensures made { IfOk result (λ part. part ≡ made form.Element 0 (firsts 1 row.old)) }
    ensures rest { IfOk result (λ _. row.new ≡ past 1 row.old) }
{
    let element = Element::Number(row.next().signed());
    Ok(Part::Literal(single(alloc, element)?))
}

/// `true` or `false`
pub(crate) fn truth_element(alloc: Global, truth: bool, row: &mut Row) -> Result<Part, Mem>
    ensures made { IfOk result (λ part. part ≡ parts.Literal (one_element (element.Truth truth))) }
    ensures rest { IfOk result (λ _. row.new ≡ past 1 row.old) }
{
    row.skip(1);
    Ok(Part::Literal(single(alloc, Element::Truth(truth))?))
}

/// `1, 2`
pub(crate) fn elements(row: &mut Row) -> Result<Part, Mem>
    ensures made { IfOk result (λ part. part ≡
        parts.Literal (literal_in_front (literal_in (first_part row.old))
        (literal_in (first_part (past 1 row.old))))) }
    ensures rest { IfOk result (λ _. row.new ≡ past 2 row.old) }
{
    let first = row.next().literal();
    let more = row.next().literal();
    Ok(Part::Literal(in_front(first, more)?))
}

/// `true` or `false`, as a constant
pub(crate) fn truth_constant(alloc: Global, truth: bool, row: &mut Row) -> Result<Part, Mem>
    ensures made { IfOk result (λ part. part ≡
        parts.Constant (scalar_constant width.I1 (element.Truth truth))) }
    ensures rest { IfOk result (λ _. row.new ≡ past 1 row.old) }
{
    row.skip(1);
    let constant = scalar(alloc, Width::I1, Element::Truth(truth))?;
    Ok(Part::Constant(Boxed::new(alloc, constant)?))
}

/// `7 : i32`
#[tactic(auto, unfolding(crate::specs::Meaning::made))]
pub(crate) fn number_constant(alloc: Global, row: &mut Row) -> Result<Part, Mem>
    ensures made { IfOk result (λ part. part ≡ made form.Literal 2 (firsts 3 row.old)) }
    ensures rest { IfOk result (λ _. row.new ≡ past 3 row.old) }
{
    let number = row.next().signed();
    row.skip(1);
    let width = row.next().width();
    let constant = scalar(alloc, width, Element::Number(number))?;
    Ok(Part::Constant(Boxed::new(alloc, constant)?))
}

/// `dense<..> : T`
#[tactic(auto, unfolding(crate::specs::Meaning::made))]
pub(crate) fn dense_constant(alloc: Global, row: &mut Row) -> Result<Part, Mem>
    ensures made { IfOk result (λ part. part ≡ made form.Argument 0 (firsts 3 row.old)) }
    ensures rest { IfOk result (λ _. row.new ≡ past 3 row.old) }
{
    let literal = row.next().literal();
    row.skip(1);
    let value_type = row.next().value_type();
    let constant = dense(alloc, value_type, literal)?;
    Ok(Part::Constant(Boxed::new(alloc, constant)?))
}
