ghost use Rattle.std.specs.Prelude.{◌≡◌, ◌↔◌, IsTrue};

use crate::calls::Call;
use sh_base::Same;

impl Same for Call {
    fn same(&self, other: &Call) -> bool {
        self.callee.same(&other.callee) && self.operand_types.same(&other.operand_types)
    }
}
