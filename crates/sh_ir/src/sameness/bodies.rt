ghost use Rattle.std.specs.Prelude.{◌≡◌, ◌↔◌, IsTrue};

use crate::bodies::{Body, BodyKind, BodyOp};
use sh_base::Same;

impl Same for BodyKind {
    fn same(&self, other: &BodyKind) -> bool {
        match (self, other) {
            (BodyKind::Constant(left), BodyKind::Constant(right)) => left.same(right),
            (BodyKind::Binary(left), BodyKind::Binary(right)) => *left == *right,
            (BodyKind::Compare(left), BodyKind::Compare(right)) => left.same(right),
            (BodyKind::Select(left), BodyKind::Select(right)) => left.same(right),
            (BodyKind::Cast(left), BodyKind::Cast(right)) => left.same(right),
            (BodyKind::Index(left), BodyKind::Index(right)) => *left == *right,
            (BodyKind::IndexCast, BodyKind::IndexCast) => true,
            _ => false,
        }
    }
}

impl Same for BodyOp {
    fn same(&self, other: &BodyOp) -> bool {
        self.operands.same(&other.operands)
            && self.defines == other.defines
            && self.result.same(&other.result)
            && self.place == other.place
            && self.kind.same(&other.kind)
    }
}

impl Same for Body {
    fn same(&self, other: &Body) -> bool {
        self.args.same(&other.args)
            && self.widths.same(&other.widths)
            && self.yields == other.yields
            && self.width == other.width
            && self.place == other.place
            && self.ops.same(&other.ops)
    }
}
