//! The local part of an operation.
ghost use Rattle.std.specs.Prelude.{◌≡◌, IfOk};
ghost use Rattle.std.specs.List.{range_with_len};
ghost use Rattle.sh_sharding.specs.LocalTypes.{local_dims};
ghost use Rattle.sh_iface.specs.Elements.{tensor_of};

use sh_base::{Ids, Items, Kind, Mem, Width};
use sh_ir::{Ops, TensorType, ValueType};
use sh_sharding::{Sharding, local_extent, rank};
use std::alloc::Global;

/// What an operation becomes on a device.
///
/// The names in `ops` are numbers. First come the tensor operands in order, then the scalars that
/// the operation uses, by first use, then the values that `ops` defines, the last of which is the
/// result, and then the names inside regions.
#[derive(Drop)]
pub struct LocalPart {
    pub ops: Ops,
    /// Where a reduction loop is split each device has a part of the result: how these are
    /// combined, over the group along the axes of the split reduction loops, and then with the
    /// outs, which are the last operand.
    pub combine: Option<Kind>,
}

/// The type of the local tensors of a width.
///
/// Errors: `Mem` where memory is wanting.
#[tactic(auto, using(crate::proofs::PartLaws::local_dims_more, crate::proofs::PartLaws::local_dims_end))]
pub fn local_type(alloc: Global, s: &Sharding, width: Width) -> Result<ValueType, Mem>
    ensures { IfOk result (λ made. made ≡ tensor_of (local_dims s.now) width) }
{
    let mut dims = Items::new(alloc);
    for dim in 0..rank(s) {
        dims.push(local_extent(s, dim))?;
    }
    Ok(ValueType::Tensor(TensorType { dims, width }))
}

/// The names of so many operands of a local part.
///
/// Errors: `Mem` where memory is wanting.
#[tactic(auto, using(crate::proofs::PartLaws::names_more))]
pub fn operand_names(alloc: Global, count: u32) -> Result<Ids, Mem>
    ensures { IfOk result (λ names. names ≡ range_with_len 0 count) }
{
    let mut names = Items::new(alloc);
    for name in 0..count {
        names.push(name)?;
    }
    Ok(names)
}
