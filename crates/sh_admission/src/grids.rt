ghost use Rattle.std.specs.Prelude.{◌≡◌, ◌++◌, ◌∷◌, [], IfOk, List, OnOk, ℕ, length, map};
ghost use Rattle.std.specs.Option.{SomeIff, option_copied};
ghost use Rattle.sh_base.specs.Limits.{max_devices};
ghost use Rattle.sh_grid.specs.Grid.{IsGrid};
ghost use Rattle.sh_ir.specs.Numbers.{as_natural};
ghost use Rattle.sh_ir.specs.Scope.{grid_item};
ghost use Rattle.sh_sharding.specs.Carried.{grid_of};
ghost use Rattle.sh_admission.specs.Places.{HasPlaces, place_of};
ghost use Rattle.std.specs.Prelude.{◌+◌, min};

use indexmap::IndexMap;
use sh_base::{Duplicate, MAX_RANK, Mem, shape};
use sh_grid::{Grid, MAX_DEVICES, make};
use sh_ir::{GridItem, GridItems};
use std::alloc::Global;
use std::marker::Model;

/// Where the first of each name stands in a list.
type Places<'m> = IndexMap<&'m [u8], usize>;

/// Enters the name that comes next, with its place.
fn enter<'m>(places: &mut Places<'m>, name: &'m [u8], at: usize) -> Result<(), Mem>
    ensures { OnOk result ((names : List (List ℕ)) → length names ≡ at
        → HasPlaces places.old.entries names
        → HasPlaces places.new.entries (names ++ name.now ∷ [])) }
{
    if !places.contains_key(name) {
        places.insert(name, at)?;
    }
    Ok(())
}

fn grid_places<'m>(alloc: Global, grids: &'m [GridItem]) -> Result<Places<'m>, Mem>
    ensures { IfOk result (λ places. HasPlaces places.entries (map (λ g. g.name) grids.now)) }
{
    let mut places: Places<'m> = IndexMap::new(alloc);
    for (at, g) in grids.iter().enumerate() {
        enter(&mut places, g.name.as_slice(), at)?;
    }
    Ok(places)
}

/// The place of a name.
fn find(places: &Places<'_>, name: &[u8]) -> Option<usize>
    ensures { (names : List (List ℕ)) → HasPlaces places.now.entries names
        → result ≡ place_of names name.now }
{
    places.get(name).copied()
}

/// The grids of a module by their names. Of two of one name the first counts.
#[derive(Drop)]
pub(crate) struct GridTable<'m> {
    grids: &'m GridItems,
    places: Places<'m>,
}

impl<'m> Model for GridTable<'m> {
    ghost use Rattle.std.specs.Prelude.{List, map};
    ghost use Rattle.sh_ir.specs.declared.modules.GridItem.{GridItem};
    ghost use Rattle.sh_admission.specs.Places.{HasPlaces};

    ghost Value = { List GridItem };

    ghost view = { λ t. t.grids.now };

    ghost invariant = { λ t. HasPlaces t.places.entries (map (λ g. g.name) t.grids.now) };
}

impl<'m> GridTable<'m> {
    pub(crate) fn new(alloc: Global, grids: &'m GridItems) -> Result<GridTable<'m>, Mem>
        ensures { IfOk result (λ table. table ≡ grids.now) }
    {
        let places = grid_places(alloc, grids.as_slice())?;
        Ok(GridTable { grids, places })
    }

    /// The first grid of a name.
    pub(crate) fn item(&self, name: &[u8]) -> Option<&'m GridItem>
        ensures { option_copied result ≡ grid_item self.now name.now }
    {
        match find(&self.places, name) {
            Some(at) => self.grids.get(at),
            None => None,
        }
    }
}

/// A written number, as one that isn't negative and is cut where it is greater than the most devices.
fn device_extent(extent: &i128) -> u64
    ensures { result ≡ min (max_devices + 1) (as_natural extent.now) }
{
    let written = *extent;
    if written > MAX_DEVICES as i128 {
        MAX_DEVICES + 1
    } else if written < 0 {
        0
    } else {
        written as u64
    }
}

/// The grid of a grid item, if there can be such a grid.
pub(crate) fn grid_of_item(alloc: Global, item: &GridItem) -> Result<Option<Grid>, Mem>
    ensures { IfOk result (λ found.
        SomeIff found (IsGrid (grid_of item.now).extents) (grid_of item.now)) }
{
    let mut extents: Vec<u64> = Vec::new(alloc);
    for extent in item.extents.as_slice() {
        extents.push(device_extent(extent))?;
    }
    if extents.len() > MAX_RANK {
        return Ok(None);
    }
    let name = item.name.duplicate(alloc)?;
    Ok(make(name, shape(alloc, extents.as_slice())))
}
