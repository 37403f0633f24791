ghost use Rattle.std.specs.Prelude.{◌≡◌, ◌≤◌, List, ℕ, length, take};
ghost use Rattle.sh_base.specs.Shape.{max_rank};
ghost use Rattle.sh_grid.specs.Grid.{IsGrid};
ghost use Rattle.sh_sharding.specs.Sharding.{IsMarked};
ghost use Rattle.sh_sharding.specs.Views.{AreOwnViews, AreViewsOf, IsMarkView, IsOwnView, IsUnsplitView, IsViewOf, axes_in};

use crate::reading::dimensions;
use crate::{Dimension, Mark, Sharding, whole};
use sh_base::MAX_RANK;

/// A list of at most six grid axes, kept by value.
#[derive(Clone, Copy, Debug)]
pub struct AxisList {
    axes: [u64; MAX_RANK],
    count: usize,
}

impl AxisList {
    /// The list of these axes.
    pub fn new(axes: &[u64]) -> AxisList
        requires { length axes.now ≤ max_rank }
        ensures { axes_in result ≡ axes.now }
    {
        let mut list = AxisList {
            axes: [0; MAX_RANK],
            count: axes.len(),
        };
        for (at, axis) in axes.iter().enumerate() {
            list.axes[at] = *axis;
        }
        list
    }

    /// The axes in order.
    #[tactic(auto, unfolding(crate::specs::Views::axes_in))]
    pub fn as_slice(&self) -> &[u64]
        ensures value { result.now ≡ axes_in self.now }
        ensures short { length result.now ≤ max_rank }
    {
        &self.axes[..self.count.min(MAX_RANK)]
    }
}

/// Offsets in a list that is borrowed: the start of each part, then the extent.
#[derive(Clone, Copy, Debug)]
pub enum Listing<'a> {
    /// As a sharding keeps them.
    Offsets(&'a [u64]),
    /// Numbers, each times a factor.
    Scaled(&'a [i128], u64),
}

/// Where the parts of a dimension begin, without taking memory.
#[derive(Clone, Copy, Debug)]
pub enum MarkView<'a> {
    /// No offsets are listed: the division is balanced.
    Balanced,
    /// At these offsets.
    Listed(Listing<'a>),
}

/// How one dimension is divided, without taking memory: a description, which may be that of no
/// admitted sharding.
#[derive(Clone, Copy, Debug)]
pub struct DimensionView<'a> {
    /// The extent of the whole tensor.
    pub extent: u64,
    /// The grid axes that split the dimension, the outermost first.
    pub axes: AxisList,
    /// Where the parts begin. Offsets that are the balanced ones may be listed.
    pub mark: MarkView<'a>,
    /// How many cells a shard holds besides its own at its start.
    pub low: u64,
    /// The same at its end.
    pub high: u64,
}

/// The view of a mark.
pub fn mark_view(mark: &Mark) -> MarkView<'_>
    ensures { IsMarkView result mark.now }
{
    match mark {
        Mark::Balanced => MarkView::Balanced,
        Mark::Offsets(offsets) => MarkView::Listed(Listing::Offsets(offsets.as_slice())),
    }
}

/// The view of a dimension.
pub fn view(d: &Dimension) -> DimensionView<'_>
    ensures value { IsViewOf result d.now }
    ensures own { (g : List ℕ) → IsGrid g → IsMarked g d.now → IsOwnView g result d.now }
{
    DimensionView {
        extent: d.extent,
        axes: AxisList::new(d.axes.extents()),
        mark: mark_view(&d.mark),
        low: d.low,
        high: d.high,
    }
}

/// The view of a dimension that isn't split.
pub fn unsplit_view<'a>(extent: u64) -> DimensionView<'a>
    ensures { IsUnsplitView result extent }
{
    DimensionView {
        extent,
        axes: AxisList::new(&[]),
        mark: MarkView::Balanced,
        low: 0,
        high: 0,
    }
}

/// The views of the dimensions of a tensor, the first of the array.
pub(crate) fn dimension_views(dimensions: &[Dimension]) -> [DimensionView<'_>; MAX_RANK]
    requires { length dimensions.now ≤ max_rank }
    ensures long { length result ≡ max_rank }
    ensures views { AreViewsOf (take (length dimensions.now) result) dimensions.now }
{
    let mut views = [unsplit_view(0); MAX_RANK];
    for (at, dimension) in dimensions.iter().enumerate() {
        views[at] = view(dimension);
    }
    views
}

/// The views of the dimensions of a sharding, the first of the array.
pub fn views_of(s: &Sharding) -> [DimensionView<'_>; MAX_RANK]
    ensures long { length result ≡ max_rank }
    ensures rank { length s.now.dimensions ≤ max_rank }
    ensures own { AreOwnViews s.now.grid.extents
        (take (length s.now.dimensions) result) s.now.dimensions }
{
    let _admitted = whole(s);
    dimension_views(dimensions(s))
}
