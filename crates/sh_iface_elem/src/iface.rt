//! The interface of an element operation.
ghost use Rattle.std.specs.Prelude.{◌≡◌, ◌<◌, length, map};
ghost use Rattle.sh_base.specs.declared.numbers.Width.{Width};
ghost use Rattle.sh_ir.specs.Shapes.{extent_of};
ghost use Rattle.sh_iface.specs.Elements.{widths_by};
ghost use Rattle.sh_iface_elem.specs.ElementOf.{element_by, meaning_by, meant};
ghost use Rattle.sh_iface.proofs.ElementLaws.{element_lawful};

use crate::local::push_local;
use crate::{ElemIface, ElementKind};
use sh_base::{Items, Kind, Mem};
use sh_grid::Grid;
use sh_iface::{
    Follow, HasLoops, How, LocalPart, LoopOption, ShardIface, implied_sharding, is_valid,
};
use sh_ir::Dim;
use sh_sharding::Sharding;
use std::alloc::Global;

/// An extent that is known.
fn extent_of(dim: Dim) -> u64
    ensures { result ≡ extent_of dim }
{
    match dim {
        Dim::Known(extent) => extent,
        Dim::Differs => 0,
    }
}

impl ElementKind {
    /// How many operands there are.
    pub(crate) fn operand_count(self) -> u32
        ensures { (w : Width) → result ≡ length (widths_by (meant self) w) }
    {
        match self {
            ElementKind::Binary(_) | ElementKind::Compare(_, _) => 2,
            ElementKind::Select => 3,
            ElementKind::Cast(_, _) => 1,
        }
    }
}

impl HasLoops for ElemIface<'_> {
    ghost meaning = { λ x. meaning_by x.kind x.width x.dims.now x.place };

    fn loop_count(&self) -> u64 {
        self.dims.len() as u64
    }

    fn loop_extent(&self, l: u64) -> u64 {
        extent_of(self.dims[l as usize])
    }

    fn operands(&self) -> u64 {
        u64::from(self.kind.operand_count())
    }

    fn rank(&self, _v: u64) -> u64 {
        self.dims.len() as u64
    }

    fn extent(&self, _v: u64, dim: u64) -> u64 {
        extent_of(self.dims[dim as usize])
    }

    fn follows(&self, _v: u64, dim: u64) -> Option<Follow> {
        Some(Follow {
            loop_index: dim,
            how: How::Same,
        })
    }

    fn splittable(&self, _l: u64) -> bool {
        true
    }

    fn reduction_kind(&self, _l: u64) -> Option<Kind> {
        None
    }
}

impl ShardIface for ElemIface<'_> {
    ghost lawful = { λ x. element_lawful (element_by x.kind x.width x.dims.now x.place) x.element };

    fn admits(&self, g: &Grid, o: &LoopOption) -> bool {
        is_valid(self, g, o)
    }

    fn implied(&self, alloc: Global, g: &Grid, o: &LoopOption, v: u64) -> Result<Sharding, Mem> {
        implied_sharding(alloc, self, g, o, v)
    }

    fn localize(&self, alloc: Global, g: &Grid, o: &LoopOption) -> Result<LocalPart, Mem> {
        let sharding = implied_sharding(alloc, self, g, o, self.operands())?;
        let mut ops = Items::new(alloc);
        push_local(alloc, &mut ops, self, &sharding)?;
        Ok(LocalPart { ops, combine: None })
    }
}
