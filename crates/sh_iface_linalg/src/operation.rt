//! What a structured operation is, read off its kind and its types.
ghost use Rattle.std.specs.Prelude.{◌≡◌, ◌-◌, MatchOption, None, get_or, length, map};
ghost use Rattle.sh_ir.specs.Shapes.{extent_of, shape_of};
ghost use Rattle.sh_ir.specs.Written.{first_type};
ghost use Rattle.sh_ir.specs.declared.types.ValueType.TheVariants.{Nothing};
ghost use Rattle.sh_sem.specs.Scalars.{width_of};
ghost use Rattle.sh_iface.specs.Verified.{IsOfVerified};
ghost use Rattle.sh_iface.specs.Whole.{IsInterfaceOf};
ghost use Rattle.sh_iface_linalg.specs.Reading.{form_of, kind_with, meaning_by, meant, structured_of};
ghost use Rattle.sh_iface_linalg.specs.Propositions.{structured-prop};
ghost use Rattle.sh_iface_linalg.specs.Structured.{IsStructured};

use crate::LinalgKind;
use sh_base::{Place, Width};
use sh_ir::{Dim, InsOuts, Op, OpKind, ValueType};

/// A structured operation of a verified function in source form, borrowed.
#[derive(Clone, Copy)]
pub struct LinalgIface<'a> {
    pub(crate) kind: LinalgKind<'a>,
    /// The extents of its result.
    pub(crate) dims: &'a [Dim],
    /// The extent of the loop that is reduced, if one is.
    pub(crate) reduced: u64,
    /// The widths of its inputs, and of its result.
    pub(crate) first: Width,
    pub(crate) second: Width,
    pub(crate) width: Width,
    pub(crate) place: Place,
    ghost structured: { IsStructured (structured_of kind dims.now reduced first second width place) } by { structured-prop (structured_of kind dims.now reduced first second width place) },
}

/// A kind, with what it says of its operands.
#[derive(Clone, Copy)]
struct Written<'a> {
    kind: LinalgKind<'a>,
    ins_outs: &'a InsOuts,
}

/// An extent that is known.
pub(crate) fn extent_of(dim: Dim) -> u64
    ensures { result ≡ extent_of dim }
{
    match dim {
        Dim::Known(extent) => extent,
        Dim::Differs => 0,
    }
}

/// The width of a type.
fn width_of(t: &ValueType) -> Width
    ensures { result ≡ width_of t.now }
{
    match t {
        ValueType::Tensor(tensor) => tensor.width,
        ValueType::Scalar(width) => *width,
        ValueType::Nothing | ValueType::Sharding | ValueType::Index => Width::I1,
    }
}

/// The width of the type at a place.
fn width_at(types: &[ValueType], at: usize) -> Width
    ensures { result ≡ width_of (get_or types.now at Nothing) }
{
    match types.get(at) {
        Some(t) => width_of(t),
        None => Width::I1,
    }
}

/// The extents of a tensor type; none of another type.
fn dims_of(t: &ValueType) -> &[Dim]
    ensures { map extent_of result.now ≡ shape_of t.now }
{
    match t {
        ValueType::Tensor(tensor) => tensor.dims.as_slice(),
        _ => &[],
    }
}

/// The last extent of the first type; 0 where there is none.
fn last_extent(types: &[ValueType]) -> u64
    ensures { result ≡ get_or (shape_of (first_type types.now))
        (length (shape_of (first_type types.now)) - 1) 0 }
{
    match types.first() {
        Some(t) => match dims_of(t).last() {
            Some(dim) => extent_of(*dim),
            None => 0,
        },
        None => 0,
    }
}

/// Which structured operation it is, if it is one.
fn read_kind(kind: &OpKind) -> Option<Written<'_>>
    ensures { MatchOption result (form_of kind.now ≡ None)
        (λ x. kind.now ≡ kind_with (meant x.kind) x.ins_outs.now) }
{
    let (kind, ins_outs) = match kind {
        OpKind::Fill(x) => (LinalgKind::Fill, x),
        OpKind::Matmul(x) => (LinalgKind::Matmul, x),
        OpKind::BatchMatmul(x) => (LinalgKind::BatchMatmul, x),
        OpKind::Matvec(x) => (LinalgKind::Matvec, x),
        OpKind::Vecmat(x) => (LinalgKind::Vecmat, x),
        OpKind::Dot(x) => (LinalgKind::Dot, x),
        OpKind::Transpose(x) => (LinalgKind::Transpose(x.permutation.as_slice()), &x.ins_outs),
        OpKind::Broadcast(x) => (LinalgKind::Broadcast(x.dimensions.as_slice()), &x.ins_outs),
        _ => return None,
    };
    Some(Written { kind, ins_outs })
}

/// The interface of an operation, if it is a fill, a product or a copy of cells; not yet of a reduction
/// or a generic. It takes no memory.
pub fn linalg_of(op: &Op) -> Option<LinalgIface<'_>>
    requires { IsOfVerified op.now }
    ensures { MatchOption result (form_of op.now.kind ≡ None)
        (λ x. IsInterfaceOf op.now
        (meaning_by x.kind x.dims.now x.reduced x.first x.second x.width x.place)) }
{
    let found = read_kind(&op.kind)?;
    let ins = found.ins_outs.ins_types.as_slice();
    Some(LinalgIface {
        kind: found.kind,
        dims: dims_of(&op.result),
        reduced: last_extent(ins),
        first: width_at(ins, 0),
        second: width_at(ins, 1),
        width: width_of(&op.result),
        place: op.place,
    })
}
