ghost use Rattle.std.specs.Prelude.{ℕ, List, ◌<◌};
ghost use Rattle.std.specs.List.{AllByRecursion};
ghost use Rattle.sh_base.specs.Shape.{IsIndexOf, cell_count};
ghost use Rattle.sh_sharding.specs.LocalTypes.{IsLocalDim, local_dim};
ghost use Rattle.sh_sharding.specs.Cut.{CutsDetermine, CutsElementwise, HasOneOwner, HoldsOwned, SizesSum};
ghost use Rattle.sh_sharding.specs.Laws.{AdmissionLaws, EqualityLaws};
ghost use Rattle.sh_sharding.specs.Sharding.{HasNoHalos, whole_of};
ghost use Rattle.sh_sharding.specs.Windows.{CutsByWindows};

use crate::{Sharding, whole};

/// The laws of owners: in the group of each device along all axes of the sharding, in order of
/// dimensions, exactly one device owns each index of the whole; a part begins where the sizes of
/// the parts before it end, and the sizes of all sum to the extent.
pub fn owner_laws(s: &Sharding)
    ensures owner { (device : ℕ) (i : List ℕ) → device < cell_count s.now.grid.extents
        → IsIndexOf (whole_of s.now) i → HasOneOwner s.now device i }
    ensures sizes { AllByRecursion (SizesSum s.now.grid.extents) s.now.dimensions }
{
    let _whole = whole(s);
}

/// The laws of cuts: a cut holds the tensor's cells at the indices that its device owns, the cuts
/// determine the tensor, and without halos they commute with element operations on any number of
/// tensors. An extent of the local type is that of each device's local tensor, or `?` where two
/// devices differ in it. A cut is the windows of the tensor along each dimension by itself, one
/// after the other.
pub fn cut_laws(s: &Sharding)
    ensures holds { HoldsOwned s.now }
    ensures determine { CutsDetermine s.now }
    ensures elementwise { HasNoHalos s.now.dimensions → CutsElementwise s.now }
    ensures types { AllByRecursion
        (λ d. IsLocalDim s.now.grid.extents d (local_dim s.now.grid.extents d)) s.now.dimensions }
    ensures windows { CutsByWindows s.now }
{
    let _whole = whole(s);
}

/// The laws of admission: a value is an admitted sharding exactly where a written sharding that
/// keeps the rules stands for it; this is a proposition; and it stays one without halos, wherever a
/// halo-free one's axes, marks and offsets are in order, and as the dimensions of a halo-free one
/// change.
pub fn admission_laws()
    ensures { AdmissionLaws }
{}

/// The laws of equality: admitted shardings are equal that are the same and of one whole shape; the
/// order of halo-free ones is total, and those of one whole shape on one grid that it doesn't tell
/// apart are equal.
pub fn equality_laws()
    ensures { EqualityLaws }
{}
