ghost use Rattle.std.specs.Prelude.{◌≡◌, None, OnOk};
ghost use Rattle.std.specs.Option.{option_copied};
ghost use Rattle.sh_lockstep.specs.Tables.{values_in, with_row};

use indexmap::IndexMap;
use sh_base::{Items, Mem};
use sh_tensor::Tensor;
use std::alloc::Global;

/// The values of all devices by their names: for each name a row of one tensor a device.
#[derive(Drop)]
pub(crate) struct Table {
    rows: IndexMap<u32, Items<Tensor>>,
}

impl Table {
    /// No values.
    #[tactic(auto, unfolding(crate::specs::Tables::values_in))]
    pub(crate) fn new(alloc: Global) -> Table
        ensures { values_in result ≡ (λ device name. None) }
    {
        Table {
            rows: IndexMap::new(alloc),
        }
    }

    /// The tensor of a name on a device.
    #[tactic(auto, unfolding(crate::specs::Tables::values_in))]
    pub(crate) fn get(&self, device: u64, name: u32) -> Option<&Tensor>
        ensures { option_copied result ≡ values_in self.now device name }
    {
        match self.rows.get(&name) {
            Some(row) => row.get(device as usize),
            None => None,
        }
    }

    /// Gives a name its row, where there is a name.
    #[tactic(auto, unfolding(crate::specs::Tables::values_in))]
    pub(crate) fn define(&mut self, name: Option<u32>, row: Items<Tensor>) -> Result<(), Mem>
        ensures { OnOk result (values_in self.new ≡ with_row name row (values_in self.old)) }
    {
        if let Some(name) = name {
            self.rows.insert(name, row)?;
        }
        Ok(())
    }
}
