ghost use Rattle.std.specs.Prelude.{◌≡◌, [], Some, IfOk, OnOk, filter_map, map, option_map};
ghost use Rattle.sh_pieces.specs.Instructions.{last_place};
ghost use Rattle.sh_turns.specs.Program.{all_there};
ghost use Rattle.sh_world.specs.Scripts.{places_in, with_place};

use indexmap::IndexMap;
use sh_base::Mem;
use sh_ir::Arg;
use std::alloc::Global;

/// The place of each name among the values of a device. A name that is defined again stands for its
/// newest value.
#[derive(Drop)]
pub(crate) struct Places {
    last: IndexMap<u32, usize>,
}

impl Places {
    /// No names.
    #[tactic(auto, unfolding(crate::specs::Scripts::places_in))]
    fn new(alloc: Global) -> Places
        ensures { places_in result ≡ last_place [] }
    {
        Places {
            last: IndexMap::new(alloc),
        }
    }

    /// The place of a name.
    #[tactic(auto, unfolding(crate::specs::Scripts::places_in))]
    pub(crate) fn get(&self, name: u32) -> Option<usize>
        ensures { result ≡ places_in self.now name }
    {
        match self.last.get(&name) {
            Some(place) => Some(*place),
            None => None,
        }
    }

    /// Gives a name its place, where there is a name.
    #[tactic(auto, unfolding(crate::specs::Scripts::places_in))]
    pub(crate) fn define(&mut self, name: Option<u32>, place: usize) -> Result<(), Mem>
        ensures { OnOk result (places_in self.new ≡ with_place name place (places_in self.old)) }
    {
        if let Some(name) = name {
            self.last.insert(name, place)?;
        }
        Ok(())
    }
}

/// The places of a function's parameters.
pub(crate) fn parameters(alloc: Global, params: &[Arg]) -> Result<Places, Mem>
    ensures { IfOk result (λ places. places_in places
        ≡ last_place (map (λ name. Some name) (map (λ a. a.id) params.now))) }
{
    let mut places = Places::new(alloc);
    for at in 0..params.len() {
        places.define(Some(params[at].id), at)?;
    }
    Ok(places)
}

/// The places of names, if each has one.
pub(crate) fn places_of(
    alloc: Global,
    places: &Places,
    names: &[u32],
) -> Result<Option<Vec<usize>>, Mem>
    ensures { IfOk result (λ found. option_map (λ f. f.items) found
        ≡ all_there (map (places_in places.now) names.now)) }
{
    let mut found: Vec<usize> = Vec::with_capacity(alloc, names.len())?;
    for name in names {
        match places.get(*name) {
            Some(place) => found.push(place)?,
            None => return Ok(None),
        }
    }
    Ok(Some(found))
}

/// The places of those of the names that have one.
pub(crate) fn known_places(alloc: Global, places: &Places, names: &[u32]) -> Result<Vec<usize>, Mem>
    ensures { IfOk result (λ found. found.items ≡ filter_map (places_in places.now) names.now) }
{
    let mut found: Vec<usize> = Vec::new(alloc);
    for name in names {
        if let Some(place) = places.get(*name) {
            found.push(place)?;
        }
    }
    Ok(found)
}
