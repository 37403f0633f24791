ghost use Rattle.std.specs.Prelude.{◌≡◌, ◌<◌, ◌≤◌, ℕ, List, length, set, take, true};
ghost use Rattle.sh_base.specs.Shape.{max_rank};
ghost use Rattle.sh_sharding.specs.Made.{IsState};
ghost use Rattle.sh_sharding.specs.Sharding.{whole_of};
ghost use Rattle.sh_sharding.specs.Views.{AreOwnViews, IsViewOf};
ghost use Rattle.sh_sharding.specs.declared.shardings.Mark.TheVariants.{Balanced};
ghost use Rattle.sh_plan.specs.Moves.{IsNamedAt, after, may_be, with_axis, without_last};

use crate::Move;
use crate::allowed::last_axis_along;
use crate::moving::appended;
use sh_base::MAX_RANK;
use sh_sharding::{
    AxisList, Dimension, DimensionView, MarkView, Sharding, dimension, unsplit_view, view, views_of,
};

/// The view of a dimension without the axis that splits it innermost.
fn shorter_view(d: &Dimension) -> DimensionView<'_>
    requires { d.now.mark ≡ Balanced }
    ensures { IsViewOf result (without_last d.now) }
{
    let axes = d.axes.extents();
    DimensionView {
        extent: d.extent,
        axes: AxisList::new(&axes[..axes.len().saturating_sub(1)]),
        mark: MarkView::Balanced,
        low: d.low,
        high: d.high,
    }
}

/// The view of a dimension with one more axis, the innermost.
fn longer_view(d: &Dimension, axis: u64) -> DimensionView<'_>
    requires balanced { d.now.mark ≡ Balanced }
    requires few { length d.now.axes < max_rank }
    ensures { IsViewOf result (with_axis d.now axis) }
{
    let own = d.axes.extents();
    let axes = appended(own, axis);
    DimensionView {
        extent: d.extent,
        axes: AxisList::new(&axes[..own.len() + 1]),
        mark: MarkView::Balanced,
        low: d.low,
        high: d.high,
    }
}

/// Views with another in place of one.
fn with_view<'a>(
    views: [DimensionView<'a>; MAX_RANK],
    dim: u64,
    other: DimensionView<'a>,
) -> [DimensionView<'a>; MAX_RANK]
    requires { dim < max_rank }
    ensures { result ≡ set views.entry dim other.entry }
{
    let mut all = views;
    all[dim as usize] = other;
    all
}

/// What a move that may be made leads to, without making it: the views of the dimensions, the first
/// of the array. It takes no memory.
#[tactic(auto, unfolding(crate::specs::Moves::may, crate::specs::Moves::after))]
pub(crate) fn moved_views<'a>(
    s: &'a Sharding,
    to: &'a Sharding,
    m: Move,
) -> [DimensionView<'a>; MAX_RANK]
    requires state { IsState s.now }
    requires target { IsState to.now }
    requires grid { s.now.grid ≡ to.now.grid }
    requires whole { whole_of s.now ≡ whole_of to.now }
    requires named { IsNamedAt s.now m }
    requires may { may_be s.now to.now m ≡ true }
    ensures long { length result ≡ max_rank }
    ensures views { AreOwnViews s.now.grid.extents (take (length s.now.dimensions) result)
        (after to.now.dimensions s.now.dimensions m) }
{
    let views = views_of(s);
    match m {
        Move::M1 { d } => with_view(views, d, shorter_view(dimension(s, d))),
        Move::M2 { d, a } => with_view(views, d, longer_view(dimension(s, d), a)),
        Move::M3 { d, e } => {
            let shorter = with_view(views, d, shorter_view(dimension(s, d)));
            let axis = last_axis_along(s, d);
            with_view(shorter, e, longer_view(dimension(s, e), axis))
        }
        Move::M4 { d } => with_view(views, d, unsplit_view(dimension(s, d).extent)),
        Move::M5 { d } => with_view(views, d, view(dimension(to, d))),
    }
}
