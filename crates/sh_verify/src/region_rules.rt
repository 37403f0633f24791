ghost use Rattle.std.specs.Prelude.{◌≡◌};
ghost use Rattle.sh_base.specs.declared.numbers.Width.TheVariants.{I1};
ghost use Rattle.sh_ir.specs.declared.types.ValueType.TheVariants as value_types;
ghost use Rattle.sh_ir.specs.Agreement.{same_type};
ghost use Rattle.sh_ir.specs.Literals as literals;
ghost use Rattle.sh_ir.specs.RegionRules as rules_of_region;

use crate::agreement::cell_bits;
use crate::typing::{changes_bits, is_scalar};
use sh_base::Width;
use sh_ir::{BodyKind, Contents, ValueType};

pub(crate) fn is_broken(contents: &Contents) -> bool
    ensures { result ≡ literals.is_broken contents.now }
{
    match contents {
        Contents::Broken => true,
        Contents::Held(_) => false,
    }
}

fn is_test(value_type: &ValueType) -> bool
    ensures { result ≡ same_type value_type.now (value_types.Scalar I1) }
{
    match value_type {
        ValueType::Scalar(width) => *width == Width::I1,
        ValueType::Nothing | ValueType::Tensor(_) | ValueType::Sharding | ValueType::Index => false,
    }
}

/// Whether an operation of a region is on scalars, chooses by an `i1`, and widens or narrows.
#[tactic(auto, unfolding(sh_ir::specs::RegionRules::is_scalar_op))]
pub(crate) fn is_scalar_op(kind: &BodyKind, result_type: &ValueType) -> bool
    ensures { result ≡ rules_of_region.is_scalar_op kind.now result_type.now }
{
    match kind {
        BodyKind::Constant(_) | BodyKind::Binary(_) | BodyKind::IndexCast => is_scalar(result_type),
        BodyKind::Compare(x) => is_scalar(&x.operand_type),
        BodyKind::Select(x) => is_scalar(result_type) && is_test(&x.condition_type),
        BodyKind::Cast(x) => {
            let bits = changes_bits(x.op, cell_bits(&x.operand_type), cell_bits(result_type));
            is_scalar(&x.operand_type) && is_scalar(result_type) && bits
        }
        BodyKind::Index(_) => true,
    }
}

/// Whether a number in a region is in its range: a literal, and the number of a loop.
#[tactic(auto, unfolding(sh_ir::specs::RegionRules::body_number_fits))]
pub(crate) fn body_number_fits(loops: u64, kind: &BodyKind) -> bool
    ensures { result ≡ rules_of_region.body_number_fits loops kind.now }
{
    match kind {
        BodyKind::Constant(x) => !is_broken(&x.contents),
        BodyKind::Index(x) => x.dimension < loops,
        BodyKind::Binary(_)
        | BodyKind::Compare(_)
        | BodyKind::Select(_)
        | BodyKind::Cast(_)
        | BodyKind::IndexCast => true,
    }
}
