ghost use Rattle.std.specs.Prelude.{◌≡◌, ◌==◌, IfOk, None, OnOk, option_map};
ghost use Rattle.std.specs.Option.{option_copied};
ghost use Rattle.sh_eval.specs.Stores.{values_in};
ghost use Rattle.sh_eval.specs.Uses.{changed_at};
ghost use Rattle.sh_sem.specs.Meaning.{with_value};

use indexmap::IndexMap;
use sh_base::Mem;
use sh_tensor::Tensor;
use std::alloc::Global;
use std::rc::Rc;

/// The tensors of values by their names. Values that are one share one tensor.
#[derive(Drop)]
pub(crate) struct Store {
    tensors: IndexMap<u32, Rc<Tensor>>,
}

impl Store {
    /// No values.
    #[tactic(auto, unfolding(crate::specs::Stores::values_in))]
    pub(crate) fn new(alloc: Global) -> Store
        ensures { values_in result ≡ (λ name. None) }
    {
        Store {
            tensors: IndexMap::new(alloc),
        }
    }

    /// The tensor of a name.
    #[tactic(auto, unfolding(crate::specs::Stores::values_in))]
    pub(crate) fn get(&self, name: u32) -> Option<&Tensor>
        ensures { option_copied result ≡ values_in self.now name }
    {
        match self.tensors.get(&name) {
            Some(t) => Some(t.as_ref()),
            None => None,
        }
    }

    /// The tensor of a name, for one name more.
    #[tactic(auto, unfolding(crate::specs::Stores::values_in))]
    pub(crate) fn shared(&self, name: u32) -> Result<Option<Rc<Tensor>>, Mem>
        ensures { IfOk result (λ t. option_map (λ t. t.value) t ≡ values_in self.now name) }
    {
        match self.tensors.get(&name) {
            Some(t) => Ok(Some(t.clone()?)),
            None => Ok(None),
        }
    }

    /// Gives a name its tensor, where there is a name.
    #[tactic(auto, unfolding(crate::specs::Stores::values_in))]
    pub(crate) fn define(&mut self, name: Option<u32>, t: Rc<Tensor>) -> Result<(), Mem>
        ensures { OnOk result (values_in self.new ≡ with_value name t.value (values_in self.old)) }
    {
        if let Some(name) = name {
            self.tensors.insert(name, t)?;
        }
        Ok(())
    }

    /// Lets go of the tensor of a name.
    #[tactic(auto, unfolding(crate::specs::Stores::values_in))]
    pub(crate) fn forget(&mut self, name: u32)
        ensures { values_in self.new
            ≡ changed_at (λ other. name == other) None (values_in self.old) }
    {
        self.tensors.swap_remove(&name);
    }
}
