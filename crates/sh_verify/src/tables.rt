ghost use Rattle.std.specs.Prelude.{◌≡◌, ◌++◌, ◌∷◌, [], IfOk, List, OnOk, Some, ℕ, length, map, slice_get, take};
ghost use Rattle.std.specs.Option.{option_copied};
ghost use Rattle.sh_ir.specs.Faults.{is_new_func, is_new_grid};
ghost use Rattle.sh_ir.specs.Scope.{func_item, grid_item};
ghost use Rattle.sh_verify.specs.Tables.{HasPlaces, place_of};

use indexmap::IndexMap;
use sh_base::Mem;
use sh_ir::{Func, GridItem, Module};
use std::alloc::Global;
use std::marker::Model;

/// Where the first of each name stands in a list.
type Places<'m> = IndexMap<&'m [u8], usize>;

/// Enters the name that comes next, with its place.
fn enter<'m>(places: &mut Places<'m>, name: &'m [u8], at: usize) -> Result<(), Mem>
    ensures { OnOk result ((names : List (List ℕ)) → length names ≡ at
        → HasPlaces places.old.entries names
        → HasPlaces places.new.entries (names ++ name.now ∷ [])) }
{
    if !places.contains_key(name) {
        places.insert(name, at)?;
    }
    Ok(())
}

fn grid_places<'m>(alloc: Global, grids: &'m [GridItem]) -> Result<Places<'m>, Mem>
    ensures { IfOk result (λ places. HasPlaces places.entries (map (λ g. g.name) grids.now)) }
{
    let mut places: Places<'m> = IndexMap::new(alloc);
    for (at, g) in grids.iter().enumerate() {
        enter(&mut places, g.name.as_slice(), at)?;
    }
    Ok(places)
}

fn func_places<'m>(alloc: Global, funcs: &'m [Func]) -> Result<Places<'m>, Mem>
    ensures { IfOk result (λ places. HasPlaces places.entries (map (λ f. f.name) funcs.now)) }
{
    let mut places: Places<'m> = IndexMap::new(alloc);
    for (at, f) in funcs.iter().enumerate() {
        enter(&mut places, f.name.as_slice(), at)?;
    }
    Ok(places)
}

/// The place of a name.
fn find(places: &Places<'_>, name: &[u8]) -> Option<usize>
    ensures { (names : List (List ℕ)) → HasPlaces places.now.entries names
        → result ≡ place_of names name.now }
{
    places.get(name).copied()
}

/// A module with its grids and functions by their names. Of two of one name the first counts.
#[derive(Drop)]
pub(crate) struct Tables<'m> {
    m: &'m Module,
    grids: Places<'m>,
    funcs: Places<'m>,
}

impl<'m> Model for Tables<'m> {
    ghost use Rattle.std.specs.Prelude.{map};
    ghost use Rattle.sh_ir.specs.declared.modules.Module.{Module};
    ghost use Rattle.sh_verify.specs.Tables.{HasPlaces};

    ghost Value = { Module };

    ghost view = { λ t. t.m.now };

    ghost invariant = { λ t. HasPlaces t.grids.entries (map (λ g. g.name) t.m.now.grids)
        × HasPlaces t.funcs.entries (map (λ f. f.name) t.m.now.funcs) };
}

impl<'m> Tables<'m> {
    pub(crate) fn new(alloc: Global, m: &'m Module) -> Result<Tables<'m>, Mem>
        ensures { IfOk result (λ tables. tables ≡ m.now) }
    {
        let grids = grid_places(alloc, m.grids.as_slice())?;
        let funcs = func_places(alloc, m.funcs.as_slice())?;
        Ok(Tables { m, grids, funcs })
    }

    /// The first grid of a name.
    pub(crate) fn grid(&self, name: &[u8]) -> Option<&'m GridItem>
        ensures { option_copied result ≡ grid_item self.now.grids name.now }
    {
        match find(&self.grids, name) {
            Some(at) => self.m.grids.get(at),
            None => None,
        }
    }

    /// The first function of a name.
    pub(crate) fn func(&self, name: &[u8]) -> Option<&'m Func>
        ensures { option_copied result ≡ func_item self.now.funcs name.now }
    {
        match find(&self.funcs, name) {
            Some(at) => self.m.funcs.get(at),
            None => None,
        }
    }

    /// Whether no grid before has the name of the grid at this place.
    pub(crate) fn is_new_grid(&self, at: usize, g: &GridItem) -> bool
        requires { slice_get self.now.grids at ≡ Some g.now }
        ensures { result ≡ is_new_grid (take at self.now.grids) g.now }
    {
        match find(&self.grids, g.name.as_slice()) {
            Some(first) => first == at,
            None => false,
        }
    }

    /// Whether no function before has the name of the function at this place.
    pub(crate) fn is_new_func(&self, at: usize, f: &Func) -> bool
        requires { slice_get self.now.funcs at ≡ Some f.now }
        ensures { result ≡ is_new_func (take at self.now.funcs) f.now }
    {
        match find(&self.funcs, f.name.as_slice()) {
            Some(first) => first == at,
            None => false,
        }
    }
}
