//! What an element operation is, read off its kind and its type.
ghost use Rattle.std.specs.Prelude.{◌≡◌, ◌≢◌, MatchOption, map};
ghost use Rattle.sh_ir.specs.Classes.{class_of};
ghost use Rattle.sh_ir.specs.Shapes.{extent_of, shape_of};
ghost use Rattle.sh_ir.specs.declared.classification.OpClass.TheVariants.{Element};
ghost use Rattle.sh_sem.specs.Scalars.{width_of};
ghost use Rattle.sh_iface.specs.Elements.{IsElement};
ghost use Rattle.sh_iface.specs.Verified.{IsOfVerified};
ghost use Rattle.sh_iface.specs.Whole.{IsInterfaceOf};
ghost use Rattle.sh_iface_elem.specs.ElementOf.{IsWhatOf, element_by, meaning_by};

use sh_base::{BinOp, CastOp, Place, Predicate, Width};
use sh_ir::{Dim, Op, OpKind, ValueType};

/// What an element operation does.
#[derive(Clone, Copy)]
pub enum ElementKind {
    Binary(BinOp),
    /// A comparison of operands of this width.
    Compare(Predicate, Width),
    Select,
    /// A cast from this width.
    Cast(CastOp, Width),
}

/// An element operation of a verified function in source form, borrowed.
#[derive(Clone, Copy)]
pub struct ElemIface<'a> {
    pub(crate) kind: ElementKind,
    /// The width of its result.
    pub(crate) width: Width,
    /// The extents of its result, and of its operands.
    pub(crate) dims: &'a [Dim],
    pub(crate) place: Place,
    ghost element: { IsElement (element_by kind width dims.now place) },
}

/// The width of a type.
fn width_of(t: &ValueType) -> Width
    ensures { result ≡ width_of t.now }
{
    match t {
        ValueType::Tensor(tensor) => tensor.width,
        ValueType::Scalar(width) => *width,
        ValueType::Nothing | ValueType::Sharding | ValueType::Index => Width::I1,
    }
}

/// The extents of a tensor type; none of another type.
fn dims_of(t: &ValueType) -> &[Dim]
    ensures { map extent_of result.now ≡ shape_of t.now }
{
    match t {
        ValueType::Tensor(tensor) => tensor.dims.as_slice(),
        _ => &[],
    }
}

/// What an operation does, if it is an element operation.
fn kind_of(kind: &OpKind) -> Option<ElementKind>
    ensures { MatchOption result (class_of kind.now ≢ Element) (IsWhatOf kind.now) }
{
    match kind {
        OpKind::Binary(op) => Some(ElementKind::Binary(*op)),
        OpKind::Compare(x) => Some(ElementKind::Compare(x.predicate, width_of(&x.operand_type))),
        OpKind::Select(_) => Some(ElementKind::Select),
        OpKind::Cast(x) => Some(ElementKind::Cast(x.op, width_of(&x.operand_type))),
        _ => None,
    }
}

/// The interface of an operation, if it is an element operation. It takes no memory.
pub fn elem_of(op: &Op) -> Option<ElemIface<'_>>
    requires { IsOfVerified op.now }
    ensures { MatchOption result (class_of op.now.kind ≢ Element)
        (λ x. IsInterfaceOf op.now (meaning_by x.kind x.width x.dims.now x.place)) }
{
    let kind = kind_of(&op.kind)?;
    Some(ElemIface {
        kind,
        width: width_of(&op.result),
        dims: dims_of(&op.result),
        place: op.place,
    })
}
