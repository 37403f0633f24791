//! The bodies of reductions and generics: by which kind they combine the output's value with another.
ghost use Rattle.std.specs.Prelude.{◌≡◌, option_map};
ghost use Rattle.std.specs.List.{list_all};
ghost use Rattle.sh_ir.specs.Regions.{is_among};
ghost use Rattle.sh_iface.specs.BodyKinds.{combining_kind, defining, has_once, kind_by, kind_of_body, uses_neither};

use sh_base::{BinOp, Kind};
use sh_ir::{Body, BodyKind, BodyOp};

/// The kind that combines by an operation, if one does.
fn kind_by(op: BinOp) -> Option<Kind>
    ensures { result ≡ kind_by op }
{
    match op {
        BinOp::Addi => Some(Kind::Sum),
        BinOp::Muli => Some(Kind::Product),
        BinOp::Maxsi => Some(Kind::Max),
        BinOp::Minsi => Some(Kind::Min),
        BinOp::Andi => Some(Kind::And),
        BinOp::Ori => Some(Kind::Or),
        BinOp::Xori => Some(Kind::Xor),
        BinOp::Subi
        | BinOp::Divui
        | BinOp::Divsi
        | BinOp::Remui
        | BinOp::Remsi
        | BinOp::Maxui
        | BinOp::Minui
        | BinOp::Shli
        | BinOp::Shrui
        | BinOp::Shrsi => None,
    }
}

/// The kind by which an operation of a region combines.
fn combining_kind(kind: &BodyKind) -> Option<Kind>
    ensures { result ≡ combining_kind kind.now }
{
    match kind {
        BodyKind::Binary(op) => kind_by(*op),
        BodyKind::Constant(_)
        | BodyKind::Compare(_)
        | BodyKind::Select(_)
        | BodyKind::Cast(_)
        | BodyKind::Index(_)
        | BodyKind::IndexCast => None,
    }
}

/// Whether there are two operands, one of which is the name.
#[tactic(auto, using(crate::proofs::BodyCode::once_of_two))]
fn has_once(name: u32, operands: &[u32]) -> bool
    ensures { result ≡ has_once name operands.now }
{
    match operands {
        [first, second] => *first != *second && (*first == name || *second == name),
        _ => false,
    }
}

fn is_among(names: &[u32], name: u32) -> bool
    ensures { result ≡ is_among names.now name }
{
    for other in names {
        if *other == name {
            return true;
        }
    }
    false
}

/// Whether an operation defines the yielded value, or uses neither that nor the output's value.
fn uses_neither(out: u32, yielded: u32, op: &BodyOp) -> bool
    ensures { result ≡ uses_neither out yielded op.now }
{
    let operands = op.operands.as_slice();
    op.defines == yielded || (!is_among(operands, out) && !is_among(operands, yielded))
}

/// Whether all operations do.
fn all_use_neither(out: u32, yielded: u32, ops: &[BodyOp]) -> bool
    ensures { result ≡ list_all (uses_neither out yielded) ops.now }
{
    for op in ops {
        if !uses_neither(out, yielded, op) {
            return false;
        }
    }
    true
}

/// The operation that defines a name, if there is one.
fn defining(name: u32, ops: &[BodyOp]) -> Option<&BodyOp>
    ensures { option_map (λ op. op.now) result ≡ defining name ops.now }
{
    for op in ops {
        if op.defines == name {
            return Some(op);
        }
    }
    None
}

/// The kind of a body: by which operation it combines the output's value with one that doesn't
/// depend on it. It has none where a further operation uses the output's value or what is yielded.
/// It takes no memory.
#[tactic(auto, using(crate::proofs::BodyCode::last_is), unfolding(sh_iface::specs::BodyKinds::kind_of_body))]
pub fn body_kind(body: &Body) -> Option<Kind>
    ensures { result ≡ kind_of_body body.now }
{
    let out = *body.args.as_slice().last()?;
    let ops = body.ops.as_slice();
    let op = defining(body.yields, ops)?;
    if has_once(out, op.operands.as_slice()) && all_use_neither(out, body.yields, ops) {
        combining_kind(&op.kind)
    } else {
        None
    }
}
