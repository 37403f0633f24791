ghost use Rattle.std.specs.Prelude.{◌≡◌};
ghost use Rattle.sh_ir.specs.Agreement.{dims_of as dims_of_type};
ghost use Rattle.sh_sem.specs.Scalars.{width_of as width_of_type};

use sh_base::Width;
use sh_ir::{Dim, ValueType};

/// The width of a type's cells; of a type without cells any.
pub fn width_of(value_type: &ValueType) -> Width
    ensures { result ≡ width_of_type value_type.now }
{
    match value_type {
        ValueType::Tensor(t) => t.width,
        ValueType::Scalar(w) => *w,
        _ => Width::I1,
    }
}

/// The extents of a tensor type; none of another type.
pub fn dims_of(value_type: &ValueType) -> &[Dim]
    ensures { result.now ≡ dims_of_type value_type.now }
{
    match value_type {
        ValueType::Tensor(t) => t.dims.as_slice(),
        _ => &[],
    }
}
