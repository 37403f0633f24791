ghost use Rattle.std.specs.Prelude.{◌≡◌, [], ◌∷◌, ◌++◌, IfOk, drop, length, nat_eq, slice_get};
ghost use Rattle.std.specs.Cmp.Lexicographic.{pointwise};
ghost use Rattle.sh_literals.specs.Fronts.{before};

use sh_base::{Items, Mem};
use std::alloc::Global;
use std::marker::Model;

/// The rest of a list, which is made from its end: a `Vec` of the elements from the last to the
/// first.
#[derive(Drop)]
pub struct Rest<T> {
    backwards: Vec<T>,
}

impl<T> Model for Rest<T> {
    ghost use Rattle.std.specs.Prelude.{List, reverse};
    ghost use Rattle.std.specs.Coded.{coded_list};

    ghost Value = { List T };

    ghost coded = { coded_list T.code };

    ghost view = { λ it. reverse it.backwards.items };
}

impl<T> Rest<T> {
    /// The end of a list. It takes no memory.
    pub fn new(alloc: Global) -> Rest<T>
        ensures { result ≡ [] }
    {
        Rest {
            backwards: Vec::new(alloc),
        }
    }

    /// The elements as a list. It takes no memory.
    pub fn into_items(self) -> Items<T>
        ensures { result ≡ self }
    {
        let mut items = self.backwards;
        items.reverse();
        Items::from_vec(items)
    }

    /// How many elements there are.
    pub fn len(&self) -> usize
        ensures { result ≡ length self.now }
    {
        self.backwards.len()
    }
}

impl<T: Drop> Rest<T> {
    /// The first element, where there is one.
    pub fn into_first(self) -> Option<T>
        ensures { result ≡ slice_get self 0 }
    {
        let items = self.into_items().into_vec();
        items.into_iter().next()
    }

    /// Takes the first element, where there is one.
    pub fn take_first(&mut self) -> Option<T>
        ensures first { result ≡ slice_get self.old 0 }
        ensures rest { self.new ≡ drop 1 self.old }
    {
        self.backwards.pop()
    }

    /// The list behind another.
    pub fn behind(self, front: Rest<T>) -> Result<Rest<T>, Mem>
        ensures { IfOk result (λ rest. rest ≡ front ++ self) }
    {
        if self.backwards.is_empty() {
            return Ok(front);
        }
        let mut backwards = self.backwards;
        let mut front = front.backwards;
        backwards.append(&mut front)?;
        Ok(Rest { backwards })
    }

    /// The list with one more element in front.
    pub fn before(self, item: T) -> Result<Rest<T>, Mem>
        ensures { IfOk result (λ rest. rest ≡ item ∷ self) }
    {
        let mut backwards = self.backwards;
        backwards.push(item)?;
        Ok(Rest { backwards })
    }
    /// The list with one more element in front, where there is one.
    pub fn before_some(self, item: Option<T>) -> Result<Rest<T>, Mem>
        ensures { IfOk result (λ rest. rest ≡ before item self) }
    {
        match item {
            None => Ok(self),
            Some(item) => self.before(item),
        }
    }
}

impl Rest<u64> {
    /// Whether the lists are equal.
    #[tactic(auto, using(crate::proofs::Reversed::same_reversed))]
    pub fn same(&self, other: &Rest<u64>) -> bool
        ensures { result ≡ pointwise nat_eq self.now other.now }
    {
        self.backwards == other.backwards
    }
}
