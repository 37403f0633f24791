ghost use Rattle.std.specs.Prelude.{◌≡◌, ◌∷◌, ◌++◌, [], List, IfOk, OnOk, reverse, true};
ghost use Rattle.sh_names.specs.Names.{Mention, keeps_rules};
ghost use Rattle.sh_names.specs.Tables.{IsNumbering, IsPassing, mention};

use crate::numbers::Numbers;
use crate::rules::Rules;
use crate::scopes::{Role, Scope};
use sh_base::Mem;
use std::alloc::Global;

/// A pass over the names of a text.
#[derive(Drop)]
pub(crate) struct Pass<'a> {
    pub numbers: Numbers<'a>,
    pub rules: Rules<'a>,
    /// The numbers of the tokens' names, one a token, and 0 where it has none.
    pub ids: Vec<u32>,
}

impl<'a> Pass<'a> {
    pub(crate) fn new(alloc: Global) -> Pass<'a>
        ensures { IsPassing result [] }
    {
        Pass {
            numbers: Numbers::new(alloc),
            rules: Rules::new(alloc),
            ids: Vec::new(alloc),
        }
    }

    /// Passes a token, or says that it breaks a rule.
    pub(crate) fn take(&mut self, role: Role, text: &'a [u8], scope: Scope) -> Result<bool, Mem>
        requires { IsNumbering self.old.numbers.numbering }
        ensures kept { IfOk result (λ kept. (ms : List Mention) → IsPassing self.old ms
            → kept ≡ keeps_rules role text.entry.now (reverse ms)) }
        ensures passing { IfOk result (λ kept. (ms : List Mention) → IsPassing self.old ms
            → kept ≡ true → IsPassing self.new (ms ++ mention role text.entry.now scope ∷ [])) }
    {
        if !self.rules.keep(role, text, scope)? {
            return Ok(false);
        }
        let id = self.numbers.number(role, text, scope)?;
        self.ids.push(id)?;
        Ok(true)
    }
}
