//! Whether an option that begins so can be the least one, before its other loops are looked at.
ghost use Rattle.std.specs.Prelude.{◌≡◌, ◌<◌, ◌≤◌, ◌++◌, ◌∷◌, ◌&&◌, [], true, All, length};
ghost use Rattle.sh_iface.specs.Splits.{OptionValue};
ghost use Rattle.sh_iface.specs.Valid.{HaveOwnAxes, IsApartFrom, IsValid};
ghost use Rattle.sh_choose.specs.Bounds.{IsPast, IsSplitOtherwise};
ghost use Rattle.sh_choose.specs.Least.{IsKnown, weight_in};
ghost use Rattle.sh_choose.specs.Weights.{IsLess, differing, differs, is_of, weight_of};
ghost use Rattle.sh_choose.specs.declared.chosen.Weight.{Weight};

use crate::{Chosen, Known};
use sh_grid::Grid;
use sh_iface::{LoopOption, ShardIface, Split};
use sh_sharding::{axes, rank};

/// Whether another loop is split along one of these axes.
fn is_split_along(axes: &[u64], other: &Option<Split>) -> bool
    ensures { result ≡ true → ¬ IsApartFrom axes.now other.now }
{
    match other {
        None => false,
        Some(split) => split.axes.extents().iter().any(|b| axes.contains(b)),
    }
}

/// Whether two loops are split along one axis.
fn share_an_axis(split: &Option<Split>, other: &Option<Split>) -> bool
    ensures { result ≡ true → ¬ HaveOwnAxes (split.now ∷ other.now ∷ []) }
{
    match split {
        None => false,
        Some(split) => is_split_along(split.axes.extents(), other),
    }
}

/// Whether the last loop so far is split along an axis of an earlier one.
fn is_axis_shared(o: &[Option<Split>]) -> bool
    ensures { result ≡ true → (rest : OptionValue) → ¬ HaveOwnAxes (o.now ++ rest) }
{
    let Some((last, earlier)) = o.split_last() else {
        return false;
    };
    for split in earlier {
        if share_an_axis(split, last) {
            return true;
        }
    }
    false
}

/// Whether a dimension of a known sharding is split along other axes than the loop that it follows,
/// if that is one of the loops so far.
fn is_split_otherwise<O: ShardIface>(op: &O, g: &Grid, o: &LoopOption, k: &Known, dim: u64) -> bool
    requires known { IsKnown (O.meaning op.now).nest g.now k.now }
    requires dim { dim < length k.now.sharding.dimensions }
    ensures { result ≡ true → IsSplitOtherwise (O.meaning op.now).nest o.now k.now dim }
{
    let axes = axes(&k.sharding, dim).extents();
    if axes.is_empty() {
        return false;
    }
    let Some(follow) = op.follows(k.v, dim) else {
        return true;
    };
    match o.get(follow.loop_index as usize) {
        None => false,
        Some(None) => true,
        Some(Some(split)) => split.axes.extents() != axes,
    }
}

/// Whether a known sharding differs from what any valid option implies that begins so.
fn must_differ<O: ShardIface>(op: &O, g: &Grid, o: &LoopOption, k: &Known) -> bool
    requires { IsKnown (O.meaning op.now).nest g.now k.now }
    ensures { result ≡ true → (rest : OptionValue)
        → IsValid (O.meaning op.now).nest g.now (o.now ++ rest)
        → differs (O.meaning op.now).nest g.now (o.now ++ rest) k.now ≡ true }
{
    for dim in 0..rank(&k.sharding) {
        if is_split_otherwise(op, g, o, k, dim) {
            return true;
        }
    }
    false
}

/// Whether it is one of a user's, or one of the others, and differs so.
fn must_count<O: ShardIface>(op: &O, g: &Grid, o: &LoopOption, user: bool, k: &Known) -> bool
    requires { IsKnown (O.meaning op.now).nest g.now k.now }
    ensures { result ≡ true → (rest : OptionValue)
        → IsValid (O.meaning op.now).nest g.now (o.now ++ rest)
        → (is_of user k.now && differs (O.meaning op.now).nest g.now (o.now ++ rest) k.now) ≡ true }
{
    if k.user == user {
        must_differ(op, g, o, k)
    } else {
        false
    }
}

/// How many of a user's shardings, or of the others, surely differ from what any valid option
/// implies that begins so.
fn least_differing<O: ShardIface>(
    op: &O,
    g: &Grid,
    o: &LoopOption,
    user: bool,
    known: &[Known],
) -> u64
    requires { All (IsKnown (O.meaning op.now).nest g.now) known.now }
    ensures { (rest : OptionValue) → IsValid (O.meaning op.now).nest g.now (o.now ++ rest)
        → result ≤ differing (O.meaning op.now).nest g.now (o.now ++ rest) user known.now }
{
    let mut count = 0u64;
    for k in known {
        if must_count(op, g, o, user, k) {
            count += 1;
        }
    }
    count
}

/// Whether the best so far differs from fewer.
fn is_past(best: &Chosen, user_differ: u64, other_differ: u64) -> bool
    ensures { result ≡ true → (w : Weight) → user_differ ≤ w.user_differ
        → other_differ ≤ w.other_differ → IsLess (weight_in best.now) w }
{
    best.user_differ < user_differ
        || (best.user_differ == user_differ && best.other_differ < other_differ)
}

/// Whether no valid option that begins so is as little as the best so far.
pub(crate) fn is_hopeless<O: ShardIface>(
    op: &O,
    g: &Grid,
    known: &[Known],
    o: &LoopOption,
    best: &Option<Chosen>,
) -> bool
    requires { All (IsKnown (O.meaning op.now).nest g.now) known.now }
    ensures { result ≡ true → (rest : OptionValue)
        → IsValid (O.meaning op.now).nest g.now (o.now ++ rest)
        → IsPast best.now (weight_of (O.meaning op.now).nest g.now known.now (o.now ++ rest)) }
{
    if is_axis_shared(o.as_slice()) {
        return true;
    }
    match best {
        None => false,
        Some(best) => is_past(
            best,
            least_differing(op, g, o, true, known),
            least_differing(op, g, o, false, known),
        ),
    }
}
