//! The loops of a structured operation, and what its values follow.
ghost use Rattle.std.specs.Prelude.{◌≡◌, ◌<◌, ◌≤◌, ◌&&◌, get_or, is_some, length};
ghost use Rattle.sh_iface.specs.Splits.{split_at};
ghost use Rattle.sh_iface_linalg.specs.Ifaces.{structured_in, value_in};
ghost use Rattle.sh_iface_linalg.specs.Structured.{combining_kind, is_fill, loop_by, splits_reduction, structured_nest, tensor_ins};

use crate::LinalgIface;
use crate::operation::extent_of;
use sh_base::{Kind, Width};
use sh_iface::LoopOption;

impl<'a> LinalgIface<'a> {
    /// How many inputs there are.
    pub(crate) fn input_count(&self) -> u32
        ensures value { result ≡ length (structured_in self.now).ins }
        ensures few { result ≤ 2 }
    {
        self.kind.input_count(self.dims.len())
    }

    /// Whether its input is a scalar.
    pub(crate) fn is_fill(&self) -> bool
        ensures { result ≡ is_fill (structured_in self.now).form }
    {
        self.kind.is_fill()
    }

    /// How many of its inputs are tensors.
    pub(crate) fn tensor_inputs(&self) -> u32
        ensures value { result ≡ length (tensor_ins (structured_in self.now)) }
        ensures few { result ≤ 2 }
    {
        if self.is_fill() {
            0
        } else {
            self.input_count()
        }
    }

    /// The width of an input that is a tensor, or of the result.
    pub(crate) fn width_at(&self, v: u64) -> Width
        ensures { result ≡ (value_in (structured_in self.now) v).width }
    {
        if v >= u64::from(self.tensor_inputs()) {
            self.width
        } else if v == 0 {
            self.first
        } else {
            self.second
        }
    }

    /// The loop that a dimension of an input that is a tensor, or of the result, follows.
    pub(crate) fn loop_at(&self, v: u64, dim: u64) -> u64
        requires { dim < length (value_in (structured_in self.now) v).dims }
        ensures { result ≡ get_or (value_in (structured_in self.now) v).dims dim 0 }
    {
        if v < u64::from(self.tensor_inputs()) {
            self.kind.input_loops(self.dims.len(), v).at(dim)
        } else {
            dim
        }
    }

    /// How many dimensions an input that is a tensor, or the result, has.
    pub(crate) fn rank_at(&self, v: u64) -> u64
        ensures { result ≡ length (value_in (structured_in self.now) v).dims }
    {
        if v < u64::from(self.tensor_inputs()) {
            self.kind.input_loops(self.dims.len(), v).count()
        } else {
            self.dims.len() as u64
        }
    }

    /// The extent of a loop.
    pub(crate) fn extent_along(&self, l: u64) -> u64
        requires { l < length (structured_in self.now).extents }
        ensures { result ≡ get_or (structured_in self.now).extents l 0 }
    {
        match self.dims.get(l as usize) {
            Some(dim) => extent_of(*dim),
            None => self.reduced,
        }
    }

    /// How the parts of a reduction along a loop are combined.
    pub(crate) fn kind_along(&self, l: u64) -> Option<Kind>
        ensures { result ≡ (loop_by (structured_in self.now) l).kind }
    {
        if l < self.dims.len() as u64 {
            None
        } else {
            self.kind.reduction()
        }
    }

    /// How many loops there are.
    pub(crate) fn count_loops(&self) -> u64
        ensures { result ≡ length (structured_in self.now).extents }
    {
        self.dims.len() as u64 + u64::from(self.kind.reduction().is_some())
    }

    /// Whether a loop is reduced, and split.
    fn splits_reduced(&self, o: &LoopOption, l: u64) -> bool
        ensures { result ≡ (is_some (loop_by (structured_in self.now) l).kind
            && is_some (split_at o.now l)) }
    {
        self.kind_along(l).is_some() && is_split(o, l)
    }

    /// Whether a loop that is reduced is split.
    fn splits_reduction(&self, o: &LoopOption) -> bool
        ensures { result ≡ splits_reduction (structured_nest (structured_in self.now)).loops o.now }
    {
        for l in 0..self.count_loops() {
            if self.splits_reduced(o, l) {
                return true;
            }
        }
        false
    }

    /// By which kind parts have to be combined, if they have.
    #[tactic(auto, using(crate::proofs::NestLaws::kind_where, crate::proofs::NestLaws::none_where))]
    pub(crate) fn combining_kind(&self, o: &LoopOption) -> Option<Kind>
        ensures { result ≡ combining_kind (structured_in self.now) o.now }
    {
        if self.splits_reduction(o) {
            self.kind.reduction()
        } else {
            None
        }
    }
}

/// Whether an option splits a loop.
fn is_split(o: &LoopOption, l: u64) -> bool
    ensures { result ≡ is_some (split_at o.now l) }
{
    matches!(o.get(l as usize), Some(Some(_)))
}
