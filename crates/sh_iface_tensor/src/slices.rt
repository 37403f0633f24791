//! A slice that an operation takes or writes, read off its kind and its types.
ghost use Rattle.std.proofs.Props.{props};
ghost use Rattle.std.specs.Prelude.{◌≡◌, MatchOption, false};
ghost use Rattle.sh_iface.specs.Verified.{IsOfVerified};
ghost use Rattle.sh_iface.specs.Whole.{IsInterfaceOf};
ghost use Rattle.sh_iface_tensor.specs.SliceOf.{IsSliceRead, is_slice, meaning_by};

use sh_base::{Place, Width};
use sh_ir::{Dim, Op, OpKind, Slice};
use sh_sem::{dims_of, width_of};

/// Which of the two an operation does.
#[derive(Clone, Copy)]
pub enum SliceKind {
    /// It reads a slice of a tensor.
    Extract,
    /// It writes a slice into a tensor.
    Insert,
}

/// A slice of a verified function in source form, borrowed.
#[derive(Clone, Copy)]
pub struct SliceIface<'a> {
    pub(crate) kind: SliceKind,
    pub(crate) slice: &'a Slice,
    /// The dimensions of the tensor that is sliced.
    pub(crate) dims: &'a [Dim],
    pub(crate) width: Width,
    pub(crate) place: Place,
    ghost read: { IsSliceRead kind slice.now dims.now width place } by { Prim.hlevel props },
}

/// The interface of an operation, if it reads or writes a slice. It takes no memory.
pub fn slice_of(op: &Op) -> Option<SliceIface<'_>>
    requires { IsOfVerified op.now }
    ensures { MatchOption result (is_slice op.now.kind ≡ false)
        (λ x. IsInterfaceOf op.now (meaning_by x.kind x.slice.now x.dims.now x.width x.place)) }
{
    let (kind, slice, dims) = match &op.kind {
        OpKind::ExtractSlice(x) => (SliceKind::Extract, &x.slice, dims_of(&x.source_type)),
        OpKind::InsertSlice(x) => (SliceKind::Insert, &x.slice, dims_of(&op.result)),
        _ => return None,
    };
    Some(SliceIface {
        kind,
        slice,
        dims,
        width: width_of(&op.result),
        place: op.place,
    })
}
