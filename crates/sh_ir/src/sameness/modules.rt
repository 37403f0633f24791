ghost use Rattle.std.specs.Prelude.{◌≡◌, ◌↔◌, IsTrue};

use crate::modules::{CallItem, GridItem, Module};
use sh_base::Same;

impl Same for CallItem {
    fn same(&self, other: &CallItem) -> bool {
        self.callee.same(&other.callee) && self.place == other.place && self.args.same(&other.args)
    }
}

impl Same for GridItem {
    fn same(&self, other: &GridItem) -> bool {
        self.name.same(&other.name)
            && self.extents.same(&other.extents)
            && self.place == other.place
    }
}

impl Same for Module {
    fn same(&self, other: &Module) -> bool {
        self.name.same(&other.name)
            && self.grids.same(&other.grids)
            && self.calls.same(&other.calls)
            && self.funcs.same(&other.funcs)
    }
}
