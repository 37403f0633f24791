ghost use Rattle.std.specs.Prelude.{◌≡◌, ◌∷◌, ◌++◌, List, [], None, IfOk, OnOk};
ghost use Rattle.sh_names.specs.Names.{
  Mention,
  Role as RoleIn,
  first_number,
  names_by_role,
  number_among,
  region_of_use as region_used,
  value_name as name_of_value,
};
ghost use Rattle.sh_names.specs.Tables.{
  AreDefiners,
  IsNumbering,
  combiner_names,
  mention,
  names_in,
  owned_of,
  steps_at,
  with_name,
  with_names,
};
ghost use Rattle.sh_names.specs.declared.scopes.Role.TheVariants as role;

use crate::definers::{Defined, Definers};
use crate::numbering::{Name, Numbering};
use crate::scopes::{Role, Scope};
use sh_base::Mem;
use std::alloc::Global;

/// The names of a text, as far as it is read, and their numbers.
#[derive(Drop)]
pub(crate) struct Numbers<'a> {
    pub numbering: Numbering<'a>,
    pub definers: Definers<'a>,
}

/// The name of a value of a function or of a region.
fn value_name<'a>(text: &'a [u8], region: Option<usize>, scope: Scope) -> Name<'a>
    ensures { owned_of result ≡ name_of_value (mention role.Value text.now scope) region text.now }
{
    Name {
        unit: scope.func,
        region,
        text,
    }
}

impl<'a> Numbers<'a> {
    pub(crate) fn new(alloc: Global) -> Numbers<'a>
        ensures numbering { IsNumbering result.numbering }
        ensures names { names_in result.numbering ≡ [] }
        ensures definers { AreDefiners result.definers [] }
    {
        Numbers {
            numbering: Numbering::new(alloc),
            definers: Definers::new(alloc),
        }
    }

    /// The region whose name it is that is used here; none where it is the function's.
    fn region_of_use(&self, text: &'a [u8], scope: Scope) -> Option<usize>
        ensures { (before : List Mention) (r : RoleIn) → AreDefiners self.now.definers before
            → result ≡ region_used before (mention r text.now scope) }
    {
        let name = Defined { op: scope.op, text };
        if !scope.in_region {
            return None;
        }
        if self.definers.has_other(name, scope.step) {
            Some(scope.op)
        } else {
            None
        }
    }

    /// The number of the first of a combiner's names: its input's, its output's, its result's.
    fn combiner(&mut self, scope: Scope) -> Result<u32, Mem>
        requires { IsNumbering self.old.numbering }
        ensures numbering { OnOk result (IsNumbering self.new.numbering) }
        ensures names { OnOk result (names_in self.new.numbering
            ≡ with_names (names_in self.old.numbering) (combiner_names scope)) }
        ensures number { IfOk result (λ n.
            n ≡ first_number (names_in self.new.numbering) (combiner_names scope)) }
        ensures definers { OnOk result (self.new.definers ≡ self.old.definers) }
    {
        let region = Some(scope.op);
        let input = self.numbering.number(value_name(b"input", region, scope))?;
        self.numbering.number(value_name(b"output", region, scope))?;
        self.numbering.number(value_name(b"result", region, scope))?;
        Ok(input)
    }

    /// The number of a token's name, the first one of a combiner's, and 0 where it has none.
    pub(crate) fn number(&mut self, role: Role, text: &'a [u8], scope: Scope) -> Result<u32, Mem>
        requires { IsNumbering self.old.numbering }
        ensures numbering { OnOk result (IsNumbering self.new.numbering) }
        ensures names { OnOk result ((before : List Mention) → AreDefiners self.old.definers before
            → names_in self.new.numbering ≡ with_names (names_in self.old.numbering)
            (names_by_role role before (mention role text.entry.now scope))) }
        ensures number { IfOk result (λ n. (before : List Mention)
            → AreDefiners self.old.definers before → n ≡ first_number (names_in self.new.numbering)
            (names_by_role role before (mention role text.entry.now scope))) }
        ensures definers { OnOk result ((before : List Mention)
            → AreDefiners self.old.definers before
            → AreDefiners self.new.definers (before ++ mention role text.entry.now scope ∷ [])) }
    {
        match role {
            Role::Value => {
                let region = self.region_of_use(text, scope);
                self.numbering.number(value_name(text, region, scope))
            }
            Role::Own => {
                let name = Defined { op: scope.op, text };
                self.definers.define(name, scope.step)?;
                let name = value_name(text, Some(scope.op), scope);
                self.numbering.number(name)
            }
            Role::Combiner => self.combiner(scope),
            Role::Word => {
                let name = Name {
                    unit: scope.map,
                    region: None,
                    text,
                };
                self.numbering.number(name)
            }
            _ => Ok(0),
        }
    }
}
