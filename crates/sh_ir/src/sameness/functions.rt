ghost use Rattle.std.specs.Prelude.{◌≡◌, ◌↔◌, IsTrue};

use crate::functions::{Arg, Carry, Cut, Func, Note};
use sh_base::Same;

impl Same for Arg {
    fn same(&self, other: &Arg) -> bool {
        self.id == other.id && self.value_type.same(&other.value_type)
    }
}

impl Same for Cut {
    fn same(&self, other: &Cut) -> bool {
        self.whole.same(&other.whole) && self.sharding.same(&other.sharding)
    }
}

impl Same for Carry {
    fn same(&self, other: &Carry) -> bool {
        self.grid.same(&other.grid)
            && self.args.same(&other.args)
            && self.results.same(&other.results)
    }
}

impl Same for Func {
    fn same(&self, other: &Func) -> bool {
        self.name.same(&other.name)
            && self.private == other.private
            && self.args.same(&other.args)
            && self.results.same(&other.results)
            && self.place == other.place
            && self.carry.same(&other.carry)
            && self.ops.same(&other.ops)
    }
}

impl Same for Note {
    fn same(&self, other: &Note) -> bool {
        self.value == other.value
            && self.for_users == other.for_users
            && self.sharding.same(&other.sharding)
    }
}
