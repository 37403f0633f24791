ghost use Rattle.std.specs.Prelude.{◌≡◌, ℕ, List, None, OnOk, Some};
ghost use Rattle.sh_names.specs.Tables.{AddsStep, added as step_added, has_other, steps_at};

use indexmap::IndexMap;
use sh_base::Mem;
use std::alloc::Global;

/// Which operations and block arguments of a region define a name.
#[derive(Clone, Copy)]
pub(crate) enum Steps {
    /// This one alone.
    One(usize),
    Several,
}

/// A name that a region defines.
#[derive(Clone, Copy, PartialEq, Eq, Hash)]
pub(crate) struct Defined<'a> {
    /// The operation whose region it is.
    pub op: usize,
    pub text: &'a [u8],
}

/// The names that regions define so far, and by which steps.
#[derive(Drop)]
pub(crate) struct Definers<'a> {
    pub steps: IndexMap<Defined<'a>, Steps>,
}

/// One more step that defines a name.
fn added(steps: Option<Steps>, step: usize) -> Steps
    ensures { Some result ≡ step_added steps step }
{
    match steps {
        None => Steps::One(step),
        Some(Steps::One(first)) => {
            if first == step {
                Steps::One(first)
            } else {
                Steps::Several
            }
        }
        Some(Steps::Several) => Steps::Several,
    }
}

impl<'a> Definers<'a> {
    pub(crate) fn new(alloc: Global) -> Definers<'a>
        ensures { (op : ℕ) (text : List ℕ) → steps_at result op text ≡ None }
    {
        Definers {
            steps: IndexMap::new(alloc),
        }
    }

    /// The steps that define a name.
    fn get(&self, name: Defined<'a>) -> Option<Steps>
        ensures { result ≡ steps_at self.now name.entry.op name.entry.text.now }
    {
        match self.steps.get(&name) {
            None => None,
            Some(steps) => Some(*steps),
        }
    }

    /// Whether another step than this one defines the name.
    pub(crate) fn has_other(&self, name: Defined<'a>, step: usize) -> bool
        ensures { result ≡ has_other (steps_at self.now name.entry.op name.entry.text.now) step }
    {
        match self.get(name) {
            None => false,
            Some(Steps::One(first)) => first != step,
            Some(Steps::Several) => true,
        }
    }

    /// Notes that a step defines a name.
    pub(crate) fn define(&mut self, name: Defined<'a>, step: usize) -> Result<(), Mem>
        ensures { OnOk result (AddsStep self.old self.new name.entry.op name.entry.text.now step) }
    {
        let steps = added(self.get(name), step);
        self.steps.insert(name, steps)?;
        Ok(())
    }
}
