ghost use Rattle.std.specs.Prelude.{◌≡◌, ◌↔◌, IsTrue};

use crate::arith_ops::{Cast, Compare, Constant, Contents, Select};
use sh_base::Same;

impl Same for Contents {
    fn same(&self, other: &Contents) -> bool {
        match (self, other) {
            (Contents::Held(left), Contents::Held(right)) => left.same(right),
            (Contents::Broken, Contents::Broken) => true,
            _ => false,
        }
    }
}

impl Same for Constant {
    fn same(&self, other: &Constant) -> bool {
        self.value_type.same(&other.value_type) && self.contents.same(&other.contents)
    }
}

impl Same for Compare {
    fn same(&self, other: &Compare) -> bool {
        self.predicate == other.predicate && self.operand_type.same(&other.operand_type)
    }
}

impl Same for Select {
    fn same(&self, other: &Select) -> bool {
        self.condition_type.same(&other.condition_type)
    }
}

impl Same for Cast {
    fn same(&self, other: &Cast) -> bool {
        self.op == other.op && self.operand_type.same(&other.operand_type)
    }
}
