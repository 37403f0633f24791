//! A slice of local tensors.
ghost use Rattle.std.specs.Prelude.{◌≡◌, ◌++◌, ◌∷◌, ◌<◌, [], IfOk, OnOk, length};
ghost use Rattle.sh_sharding.specs.LocalTypes.{local_dims};
ghost use Rattle.sh_sharding.specs.Sharding.{HasNoHalos, dimension_of, largest_local};
ghost use Rattle.sh_iface.specs.Elements.{tensor_of};
ghost use Rattle.sh_iface_tensor.specs.SliceOf.{sliced_by};
ghost use Rattle.sh_iface_tensor.specs.Slices.{kind_at, largest_sizes, local_op, result_by, slice_by, written};

use crate::{SliceIface, SliceKind};
use sh_base::{Items, Mem, Numbers};
use sh_iface::{local_type, operand_names};
use sh_ir::{ExtractSlice, InsertSlice, OpKind, Ops, Slice, ValueType, push_op};
use sh_sharding::{Sharding, offset, part_count, rank};
use std::alloc::Global;

/// The largest local size along a dimension of a tensor without halos.
fn largest_size(s: &Sharding, dim: u64) -> u64
    requires dim { dim < length s.now.dimensions }
    requires plain { HasNoHalos s.now.dimensions }
    ensures { result ≡ largest_local s.now.grid.extents (dimension_of s.now dim) }
{
    let mut largest: u64 = 0;
    for part in 0..part_count(s, dim) {
        let size = offset(s, dim, part + 1).saturating_sub(offset(s, dim, part));
        largest = largest.max(size);
    }
    largest
}

/// The largest local sizes of a tensor without halos.
#[tactic(auto, using(crate::proofs::LocalLaws::sizes_more, crate::proofs::LocalLaws::sizes_end))]
fn local_sizes(alloc: Global, s: &Sharding) -> Result<Numbers, Mem>
    requires { HasNoHalos s.now.dimensions }
    ensures { IfOk result (λ sizes. sizes ≡ written (largest_sizes s.now)) }
{
    let mut sizes = Items::new(alloc);
    for dim in 0..rank(s) {
        sizes.push(i128::from(largest_size(s, dim)))?;
    }
    Ok(sizes)
}

/// The numbers again.
fn copied(alloc: Global, numbers: &[i128]) -> Result<Numbers, Mem>
    ensures { IfOk result (λ out. out ≡ numbers.now) }
{
    let mut out = Items::new(alloc);
    for number in numbers {
        out.push(*number)?;
    }
    Ok(out)
}

/// The slice, with the largest sizes that a device has of it.
fn local_slice(alloc: Global, x: &SliceIface<'_>, part: &Sharding) -> Result<Slice, Mem>
    requires { HasNoHalos part.now.dimensions }
    ensures { IfOk result (λ local. local ≡ slice_by
        (sliced_by x.now.kind x.now.slice.now x.now.dims.now x.now.width x.now.place).ranges
        (largest_sizes part.now)) }
{
    Ok(Slice {
        offsets: copied(alloc, x.slice.offsets.as_slice())?,
        sizes: local_sizes(alloc, part)?,
        strides: copied(alloc, x.slice.strides.as_slice())?,
    })
}

/// The operation's kind, on local tensors.
fn local_kind(
    alloc: Global,
    x: &SliceIface<'_>,
    sliced: &Sharding,
    part: &Sharding,
) -> Result<OpKind, Mem>
    requires { HasNoHalos part.now.dimensions }
    ensures { IfOk result (λ local. local ≡ kind_at x.now.kind
        (sliced_by x.now.kind x.now.slice.now x.now.dims.now x.now.width x.now.place).ranges
        (largest_sizes part.now) x.now.width (local_dims sliced.now) (local_dims part.now)) }
{
    let slice = local_slice(alloc, x, part)?;
    Ok(match x.kind {
        SliceKind::Extract => OpKind::ExtractSlice(ExtractSlice {
            slice,
            source_type: local_type(alloc, sliced, x.width)?,
        }),
        SliceKind::Insert => OpKind::InsertSlice(InsertSlice {
            slice,
            source_type: local_type(alloc, part, x.width)?,
        }),
    })
}

/// The type of its value, on local tensors.
fn result_type(
    alloc: Global,
    x: &SliceIface<'_>,
    sliced: &Sharding,
    part: &Sharding,
) -> Result<ValueType, Mem>
    ensures { IfOk result (λ made. made ≡ tensor_of (result_by x.now.kind
        (local_dims sliced.now) (local_dims part.now)) x.now.width) }
{
    match x.kind {
        SliceKind::Extract => local_type(alloc, part, x.width),
        SliceKind::Insert => local_type(alloc, sliced, x.width),
    }
}

/// Appends the operation on local tensors, where the tensor that is sliced and the slice are split
/// so, of operands 0, 1, .. and with the name after them.
pub(crate) fn push_local(
    alloc: Global,
    ops: &mut Ops,
    x: &SliceIface<'_>,
    sliced: &Sharding,
    part: &Sharding,
) -> Result<(), Mem>
    requires { HasNoHalos part.now.dimensions }
    ensures { OnOk result (ops.new ≡ ops.old ++ local_op
        (sliced_by x.now.kind x.now.slice.now x.now.dims.now x.now.width x.now.place)
        sliced.now part.now ∷ []) }
{
    let count = x.kind.operand_count();
    let names = operand_names(alloc, count)?;
    let kind = local_kind(alloc, x, sliced, part)?;
    let local = result_type(alloc, x, sliced, part)?;
    push_op(ops, kind, names, Some(count), local, x.place)
}
