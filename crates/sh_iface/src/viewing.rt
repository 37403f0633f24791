//! What an option implies of each dimension of a value, without taking memory.
ghost use Rattle.std.specs.Prelude.{◌≡◌, ◌≤◌, ◌<◌, length, option_map};
ghost use Rattle.sh_base.specs.Shape.{max_rank};
ghost use Rattle.sh_iface.specs.ImpliedViews.{AreImpliedViews, IsImpliedView};
ghost use Rattle.sh_iface.specs.LoopNest.{HasNoWindows, IsPlainFollow, IsPlainHow, dim_at, value_at};
ghost use Rattle.sh_iface.specs.ScaledViews.{IsScaledView};
ghost use Rattle.sh_iface.specs.Splits.{factor_of, split_at};

use crate::{HasLoops, How, LoopOption, Split};
use sh_base::MAX_RANK;
use sh_sharding::{AxisList, DimensionView, Listing, MarkView, unsplit_view};

/// The split of a loop, where it is split.
fn split_of(o: &LoopOption, l: u64) -> Option<&Split>
    ensures { option_map (λ split. split.now) result ≡ split_at o.now l }
{
    match o.get(l as usize) {
        Some(Some(split)) => Some(split),
        _ => None,
    }
}

/// A dimension whose parts are so many times as long as those of the loop.
pub(crate) fn scaled_view<'a>(extent: u64, split: &'a Split, factor: u64) -> DimensionView<'a>
    ensures { IsScaledView result extent split.now factor }
{
    DimensionView {
        extent,
        axes: AxisList::new(split.axes.extents()),
        mark: MarkView::Listed(Listing::Scaled(split.starts.as_slice(), factor)),
        low: 0,
        high: 0,
    }
}

/// A dimension of this extent that follows a loop, where the loop is split so. It isn't read through
/// a window.
fn divided_view<'a>(extent: u64, split: &'a Split, how: How) -> DimensionView<'a>
    requires { IsPlainHow how }
    ensures { IsScaledView result extent split.now (factor_of how) }
{
    match how {
        How::Same => scaled_view(extent, split, 1),
        How::Scale(factor) => scaled_view(extent, split, factor),
        How::Window(_) => unreachable!(),
    }
}

/// How a dimension of operand `v`, or of the result, is divided under an option.
pub(crate) fn implied_view<'a, O: HasLoops>(
    op: &O,
    o: &'a LoopOption,
    v: u64,
    dim: u64,
) -> DimensionView<'a>
    requires v { v ≤ length (O.meaning op.now).nest.operands }
    requires dim { dim < length (value_at (O.meaning op.now).nest v).dims }
    requires plain { IsPlainFollow (dim_at (value_at (O.meaning op.now).nest v) dim).follow }
    ensures { IsImpliedView (O.meaning op.now).nest o.now
        (value_at (O.meaning op.now).nest v) dim result }
{
    let extent = op.extent(v, dim);
    let Some(follow) = op.follows(v, dim) else {
        return unsplit_view(extent);
    };
    match split_of(o, follow.loop_index) {
        Some(split) => divided_view(extent, split, follow.how),
        None => unsplit_view(extent),
    }
}

/// The dimensions of operand `v`, or of the result, under an option: the first of the array.
#[tactic(auto, using(crate::proofs::ImpliedViewLaws::views_start, crate::proofs::ImpliedViewLaws::views_more, crate::proofs::ImpliedViewLaws::views_end, crate::proofs::SplitLists::all_at))]
pub(crate) fn implied_views<'a, O: HasLoops>(
    op: &O,
    o: &'a LoopOption,
    v: u64,
) -> [DimensionView<'a>; MAX_RANK]
    requires v { v ≤ length (O.meaning op.now).nest.operands }
    requires short { length (value_at (O.meaning op.now).nest v).dims ≤ max_rank }
    requires plain { HasNoWindows (value_at (O.meaning op.now).nest v) }
    ensures long { length result ≡ max_rank }
    ensures views { AreImpliedViews (O.meaning op.now).nest o.now
        (value_at (O.meaning op.now).nest v) (length (value_at (O.meaning op.now).nest v).dims)
        result }
{
    let mut views = [unsplit_view(0); MAX_RANK];
    for dim in 0..op.rank(v) {
        views[dim as usize] = implied_view(op, o, v, dim);
    }
    views
}
