ghost use Rattle.std.specs.Prelude.{◌≡◌, ℕ, suc, [], ◌∷◌, ◌++◌, IfOk, OnOk, nat_eq, if◌then◌else◌};
ghost use Rattle.std.specs.List.{position_or_len};
ghost use Rattle.sh_names.specs.Names.{number_among, same_owned};
ghost use Rattle.sh_names.specs.Tables.{IsNumbering, count_by, owned_of, names_in, with_name};

use indexmap::{IndexMap, IndexSet};
use sh_base::Mem;
use std::alloc::Global;

/// A name, by what it belongs to.
#[derive(Clone, Copy, PartialEq, Eq, Hash)]
pub(crate) struct Name<'a> {
    /// The function, or the map.
    pub unit: usize,
    /// The operation in whose region it is defined.
    pub region: Option<usize>,
    pub text: &'a [u8],
}

/// The names so far, each once, and their numbers within what they belong to.
#[derive(Drop)]
pub(crate) struct Numbering<'a> {
    pub names: IndexSet<Name<'a>>,
    /// The number of each name.
    pub numbers: Vec<u32>,
    /// How many names each function and each map has.
    pub counts: IndexMap<usize, u32>,
}

impl<'a> Numbering<'a> {
    pub(crate) fn new(alloc: Global) -> Numbering<'a>
        ensures numbering { IsNumbering result }
        ensures names { names_in result ≡ [] }
    {
        Numbering {
            names: IndexSet::new(alloc),
            numbers: Vec::new(alloc),
            counts: IndexMap::new(alloc),
        }
    }

    /// The number of a name, which is the next one where the name is new.
    pub(crate) fn number(&mut self, name: Name<'a>) -> Result<u32, Mem>
        requires { IsNumbering self.old }
        ensures numbering { OnOk result (IsNumbering self.new) }
        ensures names { OnOk result
            (names_in self.new ≡ with_name (names_in self.old) (owned_of name.entry)) }
        ensures number { IfOk result (λ n.
            n ≡ number_among (names_in self.new) (owned_of name.entry)) }
    {
        let at = self.place(name)?;
        Ok(self.numbers[at])
    }

    /// The place of a name among all, which is the next one where the name is new.
    fn place(&mut self, name: Name<'a>) -> Result<usize, Mem>
        requires { IsNumbering self.old }
        ensures numbering { OnOk result (IsNumbering self.new) }
        ensures names { OnOk result
            (names_in self.new ≡ with_name (names_in self.old) (owned_of name.entry)) }
        ensures place { IfOk result (λ at.
            at ≡ position_or_len (same_owned (owned_of name.entry)) (names_in self.old)) }
    {
        let (at, is_new) = self.names.insert_full(name)?;
        if is_new {
            self.add(name.unit)?;
        }
        Ok(at)
    }

    /// Counts one more name of a function or a map, and gives it its number.
    fn add(&mut self, unit: usize) -> Result<(), Mem>
        ensures names { OnOk result (self.new.names ≡ self.old.names) }
        ensures numbers { OnOk result (self.new.numbers.items
            ≡ self.old.numbers.items ++ count_by self.old.counts unit ∷ []) }
        ensures counts { OnOk result ((other : ℕ) → count_by self.new.counts other
            ≡ (if nat_eq unit other then suc (count_by self.old.counts other)
            else count_by self.old.counts other)) }
    {
        let count = self.count(unit);
        let Some(more) = count.checked_add(1) else {
            return Err(Mem);
        };
        self.counts.insert(unit, more)?;
        self.numbers.push(count)?;
        Ok(())
    }

    /// How many names a function or a map has so far.
    fn count(&self, unit: usize) -> u32
        ensures { result ≡ count_by self.now.counts unit }
    {
        match self.counts.get(&unit) {
            Some(count) => *count,
            None => 0,
        }
    }
}
