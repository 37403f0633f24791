ghost use Rattle.std.specs.Prelude.{◌≡◌, ◌∷◌, List, None, [], IfOk, OnOk};
ghost use Rattle.sh_names.specs.Names.{Mention, keeps_rules};
ghost use Rattle.sh_names.specs.Tables.{AreKept, device_in, fits_by, mention};

use crate::scopes::{Role, Scope};
use indexmap::IndexSet;
use sh_base::Mem;
use std::alloc::Global;

/// What the rules on names ask of the tokens so far.
#[derive(Drop)]
pub(crate) struct Rules<'a> {
    pub aliases: IndexSet<&'a [u8]>,
    /// The function that the last device item is said of, where none has stood behind it yet.
    pub device: Option<&'a [u8]>,
}

impl<'a> Rules<'a> {
    pub(crate) fn new(alloc: Global) -> Rules<'a>
        ensures { AreKept result [] }
    {
        Rules {
            aliases: IndexSet::new(alloc),
            device: None,
        }
    }

    /// Whether a token with this role and text keeps the rules, which know it from then on.
    pub(crate) fn keep(&mut self, role: Role, text: &'a [u8], scope: Scope) -> Result<bool, Mem>
        ensures kept { IfOk result (λ kept. (before : List Mention) → AreKept self.old before
            → kept ≡ keeps_rules role text.entry.now before) }
        ensures known { OnOk result ((before : List Mention) → AreKept self.old before
            → AreKept self.new (mention role text.entry.now scope ∷ before)) }
    {
        match role {
            Role::NewAlias => Ok(self.aliases.insert(text)?),
            Role::Alias => Ok(self.aliases.contains(&text)),
            Role::DeviceName => {
                self.device = Some(text);
                Ok(true)
            }
            Role::FuncName => Ok(self.fits(text)),
            Role::Nothing | Role::Value | Role::Own | Role::Combiner | Role::Word => Ok(true),
        }
    }

    /// Whether a function of this name may stand here. No device item waits for one from then on.
    fn fits(&mut self, name: &[u8]) -> bool
        ensures fits { result ≡ fits_by (device_in self.old) name.now }
        ensures rest { self.new ≡ record self.old { device = None } }
    {
        let device = self.device;
        self.device = None;
        match device {
            None => true,
            Some(wanted) => wanted == name,
        }
    }
}
