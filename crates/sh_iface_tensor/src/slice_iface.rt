//! The interface of a slice.
ghost use Rattle.std.specs.Prelude.{◌≡◌, ◌<◌, ◌≤◌, false, true, get_or, length, map};
ghost use Rattle.sh_ir.specs.Numbers.{as_natural, as_naturals};
ghost use Rattle.sh_ir.specs.Shapes.{extent_of};
ghost use Rattle.sh_iface.specs.Table.{takes_whole};
ghost use Rattle.sh_iface_tensor.specs.SliceOf.{follows_at, is_sliced, meaning_by, sliced_by};
ghost use Rattle.sh_iface_tensor.specs.Slices.{operand_count, sizes_of};
ghost use Rattle.sh_iface_tensor.specs.SliceLawful.{sliced_lawful};

use crate::slice_local::push_local;
use crate::{SliceIface, SliceKind};
use sh_base::{Items, Kind, Mem};
use sh_grid::Grid;
use sh_iface::{
    Follow, HasLoops, How, LocalPart, LoopOption, ShardIface, implied_sharding, is_valid,
};
use sh_ir::Dim;
use sh_sharding::Sharding;
use std::alloc::Global;

/// An extent that is known.
fn extent_of(dim: Dim) -> u64
    ensures { result ≡ extent_of dim }
{
    match dim {
        Dim::Known(extent) => extent,
        Dim::Differs => 0,
    }
}

impl SliceKind {
    /// How many operands there are: the tensor that is read, or the slice that is written and the
    /// tensor into which it goes.
    pub(crate) fn operand_count(self) -> u32
        ensures { result ≡ operand_count self }
    {
        match self {
            SliceKind::Extract => 1,
            SliceKind::Insert => 2,
        }
    }

    /// Whether the value is the tensor that is sliced, not the slice.
    fn is_sliced(self, v: u64) -> bool
        ensures { result ≡ is_sliced self v }
    {
        match self {
            SliceKind::Extract => v == 0,
            SliceKind::Insert => v > 0,
        }
    }

    /// The number of the tensor that is sliced, and that of the slice.
    fn numbers(self) -> (u64, u64)
        ensures sliced { is_sliced self result.0 ≡ true }
        ensures part { is_sliced self result.1 ≡ false }
        ensures first { result.0 ≤ operand_count self }
        ensures second { result.1 ≤ operand_count self }
    {
        match self {
            SliceKind::Extract => (0, 1),
            SliceKind::Insert => (1, 0),
        }
    }
}

/// A number that isn't negative; 0 in the place of others.
fn natural(number: i128) -> u128
    ensures { result ≡ as_natural number }
{
    if number < 0 { 0 } else { number.unsigned_abs() }
}

/// The number at a place of a list.
fn number_at(numbers: &[i128], at: u64) -> u128
    requires { at < length numbers.now }
    ensures { result ≡ get_or (as_naturals numbers.now) at 0 }
{
    natural(numbers[at as usize])
}

/// Whether a dimension is taken whole, from 0 on, by one.
fn takes_whole(x: &SliceIface<'_>, dim: u64) -> bool
    requires { dim < length x.now.dims.now }
    ensures { result ≡ takes_whole x.now.slice.now (map extent_of x.now.dims.now) dim }
{
    let offset = number_at(x.slice.offsets.as_slice(), dim);
    let stride = number_at(x.slice.strides.as_slice(), dim);
    let size = number_at(x.slice.sizes.as_slice(), dim);
    let extent = u128::from(extent_at(x, dim));
    (offset == 0) & (stride == 1) & (size == extent)
}

/// Whether a dimension of an operand, or of the result, follows the loop of its number.
fn follows_at(x: &SliceIface<'_>, v: u64, dim: u64) -> bool
    requires { dim < length x.now.dims.now }
    ensures { result ≡ follows_at
        (takes_whole x.now.slice.now (map extent_of x.now.dims.now)) v dim }
{
    v > 0 || takes_whole(x, dim)
}

/// The size of the slice along a dimension.
fn size_at(x: &SliceIface<'_>, dim: u64) -> u64
    requires { dim < length x.now.dims.now }
    ensures { result ≡ get_or (sizes_of (sliced_by x.now.kind x.now.slice.now x.now.dims.now
        x.now.width x.now.place).ranges) dim 0 }
{
    number_at(x.slice.sizes.as_slice(), dim) as u64
}

/// The extent of the tensor that is sliced.
fn extent_at(x: &SliceIface<'_>, dim: u64) -> u64
    requires { dim < length x.now.dims.now }
    ensures { result ≡ get_or (map extent_of x.now.dims.now) dim 0 }
{
    extent_of(x.dims[dim as usize])
}

impl HasLoops for SliceIface<'_> {
    ghost meaning = { λ x. meaning_by x.kind x.slice.now x.dims.now x.width x.place };

    fn loop_count(&self) -> u64 {
        self.dims.len() as u64
    }

    fn loop_extent(&self, l: u64) -> u64 {
        match self.kind {
            SliceKind::Extract => size_at(self, l),
            SliceKind::Insert => extent_at(self, l),
        }
    }

    fn operands(&self) -> u64 {
        u64::from(self.kind.operand_count())
    }

    fn rank(&self, _v: u64) -> u64 {
        self.dims.len() as u64
    }

    fn extent(&self, v: u64, dim: u64) -> u64 {
        if self.kind.is_sliced(v) {
            extent_at(self, dim)
        } else {
            size_at(self, dim)
        }
    }

    fn follows(&self, v: u64, dim: u64) -> Option<Follow> {
        if follows_at(self, v, dim) {
            Some(Follow {
                loop_index: dim,
                how: How::Same,
            })
        } else {
            None
        }
    }

    fn splittable(&self, l: u64) -> bool {
        takes_whole(self, l)
    }

    fn reduction_kind(&self, _l: u64) -> Option<Kind> {
        None
    }
}

impl ShardIface for SliceIface<'_> {
    ghost lawful = { λ x. sliced_lawful (sliced_by x.kind x.slice.now x.dims.now x.width x.place)
        x.read.sliced };

    fn admits(&self, g: &Grid, o: &LoopOption) -> bool {
        is_valid(self, g, o)
    }

    fn implied(&self, alloc: Global, g: &Grid, o: &LoopOption, v: u64) -> Result<Sharding, Mem> {
        implied_sharding(alloc, self, g, o, v)
    }

    fn localize(&self, alloc: Global, g: &Grid, o: &LoopOption) -> Result<LocalPart, Mem> {
        let (sliced, part) = self.kind.numbers();
        let sliced = implied_sharding(alloc, self, g, o, sliced)?;
        let part = implied_sharding(alloc, self, g, o, part)?;
        let mut ops = Items::new(alloc);
        push_local(alloc, &mut ops, self, &sliced, &part)?;
        Ok(LocalPart { ops, combine: None })
    }
}
