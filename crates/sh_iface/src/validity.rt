//! Whether an option is valid, without taking memory.
ghost use Rattle.std.specs.Prelude.{◌≡◌, ◌≢◌, ◌↔◌, ◌≤◌, ◌<◌, ℕ, IsTrue, List, length, All, drop};
ghost use Rattle.std.specs.List.{AllByRecursion};
ghost use Rattle.sh_base.specs.Shape.{max_cells, max_rank};
ghost use Rattle.sh_iface.specs.LoopNest.{HasNoWindows, IsPlainNest, loop_at, value_at};
ghost use Rattle.sh_iface.specs.Lawful.{IsNest};
ghost use Rattle.sh_iface.specs.Splits.{implied_of};
ghost use Rattle.sh_iface.specs.Valid.{AreAdmitted, AreApart, AreSplits, HaveOwnAxes, IsApartFrom, IsApartFromAll, IsSplit, IsValid, MayBeSplit};
ghost use Rattle.sh_sharding.specs.Sharding.{IsSharding};

use crate::viewing::{implied_views, scaled_view};
use crate::{HasLoops, LoopOption, Split};
use sh_grid::{Grid, extents};
use sh_sharding::is_admitted;

/// Whether a loop of this extent is split along distinct axes of the grid, with the start of each
/// part in order.
fn is_split(g: &Grid, extent: u64, split: &Split) -> bool
    requires { extent ≤ max_cells }
    ensures { IsTrue result ↔ IsSplit g.now.extents extent split.now }
{
    let _grid = extents(g);
    is_admitted(g, &[scaled_view(extent, split, 1)])
}

/// Whether two lists of axes have none in common.
fn are_apart(axes: &[u64], others: &[u64]) -> bool
    ensures { IsTrue result ↔ AreApart axes.now others.now }
{
    axes.iter().all(|a| others.iter().all(|b| a != b))
}

/// Whether another loop's split, if it is split, has none of these axes.
fn is_apart_from(axes: &[u64], other: &Option<Split>) -> bool
    ensures { IsTrue result ↔ IsApartFrom axes.now other.now }
{
    match other {
        None => true,
        Some(split) => are_apart(axes, split.axes.extents()),
    }
}

/// Whether none of the other loops is split along an axis of this one, if it is split.
fn is_apart_from_all(split: &Option<Split>, others: &[Option<Split>]) -> bool
    ensures { IsTrue result ↔ IsApartFromAll others.now split.now }
{
    match split {
        None => true,
        Some(split) => {
            let axes = split.axes.extents();
            others.iter().all(|other| is_apart_from(axes, other))
        }
    }
}

/// Whether no axis is in two splits.
fn have_own_axes(o: &[Option<Split>]) -> bool
    ensures { IsTrue result ↔ HaveOwnAxes o.now }
{
    let mut rest = o;
    while let Some((first, others)) = rest.split_first() {
        if !is_apart_from_all(first, others) {
            return false;
        }
        rest = others;
    }
    true
}

/// Whether a loop may be split so.
fn may_be_split<O: HasLoops>(op: &O, g: &Grid, l: u64, split: &Option<Split>) -> bool
    requires l { l < length (O.meaning op.now).nest.loops }
    requires small { (loop_at (O.meaning op.now).nest l).extent ≤ max_cells }
    ensures { IsTrue result
        ↔ MayBeSplit g.now.extents (loop_at (O.meaning op.now).nest l) split.now }
{
    match split {
        None => true,
        Some(split) => op.splittable(l) && is_split(g, op.loop_extent(l), split),
    }
}

/// Whether each loop has its split, or none.
#[tactic(auto, using(crate::proofs::SplitLists::all_at, crate::proofs::SplitLists::split_in, crate::proofs::SplitLists::splits_of))]
fn are_splits<O: HasLoops>(op: &O, g: &Grid, o: &LoopOption) -> bool
    requires { AllByRecursion (λ l. l.extent ≤ max_cells) (O.meaning op.now).nest.loops }
    ensures { IsTrue result ↔ AreSplits g.now.extents (O.meaning op.now).nest.loops o.now }
{
    if o.len() as u64 != op.loop_count() {
        return false;
    }
    for (at, split) in o.as_slice().iter().enumerate() {
        if !may_be_split(op, g, at as u64, split) {
            return false;
        }
    }
    true
}

/// Whether the sharding that an option implies of operand `v`, or of the result, is admitted.
fn is_value_admitted<O: HasLoops>(op: &O, g: &Grid, o: &LoopOption, v: u64) -> bool
    requires v { v ≤ length (O.meaning op.now).nest.operands }
    requires short { length (value_at (O.meaning op.now).nest v).dims ≤ max_rank }
    requires plain { HasNoWindows (value_at (O.meaning op.now).nest v) }
    requires splits { AreSplits g.now.extents (O.meaning op.now).nest.loops o.now }
    ensures { IsTrue result ↔ IsSharding (implied_of g.now (O.meaning op.now).nest o.now
        (value_at (O.meaning op.now).nest v)) }
{
    let views = implied_views(op, o, v);
    is_admitted(g, &views[..op.rank(v) as usize])
}

/// Whether the shardings that an option implies of the operands and of the result are admitted.
fn are_values_admitted<O: HasLoops>(op: &O, g: &Grid, o: &LoopOption) -> bool
    requires nest { IsNest (O.meaning op.now).nest }
    requires plain { IsPlainNest (O.meaning op.now).nest }
    requires splits { AreSplits g.now.extents (O.meaning op.now).nest.loops o.now }
    ensures { IsTrue result ↔ AreAdmitted (O.meaning op.now).nest g.now o.now }
{
    for v in 0..op.operands() {
        if !is_value_admitted(op, g, o, v) {
            return false;
        }
    }
    is_value_admitted(op, g, o, op.operands())
}

/// Whether an option is valid: no axis is in two splits, the loops may be split so, and the
/// shardings that it implies are admitted. It takes no memory. No value is read through a window.
pub fn is_valid<O: HasLoops>(op: &O, g: &Grid, o: &LoopOption) -> bool
    requires nest { IsNest (O.meaning op.now).nest }
    requires plain { IsPlainNest (O.meaning op.now).nest }
    ensures { IsTrue result ↔ IsValid (O.meaning op.now).nest g.now o.now }
{
    if !are_splits(op, g, o) {
        return false;
    }
    if !have_own_axes(o.as_slice()) {
        return false;
    }
    are_values_admitted(op, g, o)
}
