ghost use Rattle.std.specs.Prelude.{◌≡◌, IfOk, List, []};
ghost use Rattle.sh_build.specs.declared.parts.Alias.{Alias as AliasOf};
ghost use Rattle.sh_parse.specs.Leaves.{AreMapsOf, map_at};
ghost use Rattle.sh_parse.specs.Reads.{map_of};

use indexmap::IndexMap;
use sh_base::{Duplicate, Items, Mem};
use sh_build::Alias;
use sh_ir::AffineMap;
use std::alloc::Global;

/// The maps of a file's aliases, by their names.
#[derive(Drop)]
pub(crate) struct Maps<'a> {
    pub by_name: IndexMap<&'a [u8], &'a AffineMap>,
}

impl<'a> Maps<'a> {
    /// No maps, as among the aliases themselves.
    pub(crate) fn none(alloc: Global) -> Maps<'a>
        ensures { AreMapsOf result [] }
    {
        Maps {
            by_name: IndexMap::new(alloc),
        }
    }

    /// The maps of these aliases; of one name it is the first.
    pub(crate) fn new(alloc: Global, aliases: &'a [Alias]) -> Result<Maps<'a>, Mem>
        ensures { IfOk result (λ maps. AreMapsOf maps aliases.now) }
    {
        let mut maps = Maps::none(alloc);
        let mut rest = aliases;
        while let Some((alias, front)) = rest.split_last() {
            rest = front;
            maps.by_name.insert(alias.name.as_slice(), &alias.map)?;
        }
        Ok(maps)
    }

    /// The map of an alias; an empty one where there is no alias of this name.
    pub(crate) fn map(&self, alloc: Global, name: &[u8]) -> Result<AffineMap, Mem>
        ensures { IfOk result (λ map. map ≡ map_at self.now name.now) }
    {
        match self.by_name.get(&name) {
            Some(map) => map.duplicate(alloc),
            None => Ok(AffineMap {
                loops: Items::new(alloc),
                results: Items::new(alloc),
            }),
        }
    }
}
