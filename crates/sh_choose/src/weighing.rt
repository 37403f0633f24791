//! By which numbers options are compared.
ghost use Rattle.std.specs.Prelude.{◌≡◌, ◌<◌, ◌&&◌, true, false, All, IfOk, length};
ghost use Rattle.sh_iface.specs.Lawful.{IsNest};
ghost use Rattle.sh_iface.specs.LoopNest.{loop_at};
ghost use Rattle.sh_iface.specs.Splits.{split_at};
ghost use Rattle.sh_iface.specs.Valid.{IsValid};
ghost use Rattle.sh_sharding.specs.AxisLists.{natural};
ghost use Rattle.sh_choose.specs.Least.{IsKnown, weight_in};
ghost use Rattle.sh_choose.specs.Weights.{IsAtMost, IsLess, differing, differs, is_of, longest_part, points_along, points_of, weight_of};

use crate::{Chosen, Known, Weight};
use sh_base::Mem;
use sh_grid::Grid;
use sh_iface::{LoopOption, ShardIface};
use sh_sharding::same;
use std::alloc::Global;

/// Whether the first is less than the second.
pub(crate) fn is_less(a: Weight, b: Weight) -> bool
    ensures less { result ≡ true → IsLess a b }
    ensures other { result ≡ false → IsAtMost b a }
{
    if a.user_differ != b.user_differ {
        return a.user_differ < b.user_differ;
    }
    if a.other_differ != b.other_differ {
        return a.other_differ < b.other_differ;
    }
    a.points < b.points
}

/// The numbers that an answer keeps.
pub(crate) fn weight_in(c: &Chosen) -> Weight
    ensures { result ≡ weight_in c.now }
{
    Weight {
        user_differ: c.user_differ,
        other_differ: c.other_differ,
        points: c.points,
    }
}

/// Whether a known sharding isn't the same as the one that an option implies.
fn differs<O: ShardIface>(
    alloc: Global,
    op: &O,
    g: &Grid,
    o: &LoopOption,
    k: &Known,
) -> Result<bool, Mem>
    requires valid { IsValid (O.meaning op.now).nest g.now o.now }
    requires known { IsKnown (O.meaning op.now).nest g.now k.now }
    ensures { IfOk result (λ b. b ≡ differs (O.meaning op.now).nest g.now o.now k.now) }
{
    let implied = op.implied(alloc, g, o, k.v)?;
    Ok(!same(&k.sharding, &implied))
}

/// Whether it is one of a user's, or one of the others, and isn't the same.
fn counts<O: ShardIface>(
    alloc: Global,
    op: &O,
    g: &Grid,
    o: &LoopOption,
    user: bool,
    k: &Known,
) -> Result<bool, Mem>
    requires valid { IsValid (O.meaning op.now).nest g.now o.now }
    requires known { IsKnown (O.meaning op.now).nest g.now k.now }
    ensures { IfOk result (λ b.
        b ≡ (is_of user k.now && differs (O.meaning op.now).nest g.now o.now k.now)) }
{
    if k.user == user {
        differs(alloc, op, g, o, k)
    } else {
        Ok(false)
    }
}

/// How many of a user's shardings, or of the others, differ from what an option implies.
#[tactic(auto, using(std::proofs::lemmas::Grind::common_steps), unfolding(crate::specs::Weights::differing))]
fn differing<O: ShardIface>(
    alloc: Global,
    op: &O,
    g: &Grid,
    o: &LoopOption,
    user: bool,
    known: &[Known],
) -> Result<u64, Mem>
    requires valid { IsValid (O.meaning op.now).nest g.now o.now }
    requires known { All (IsKnown (O.meaning op.now).nest g.now) known.now }
    ensures { IfOk result (λ n.
        n ≡ differing (O.meaning op.now).nest g.now o.now user known.now) }
{
    let mut count = 0u64;
    for k in known {
        if counts(alloc, op, g, o, user, k)? {
            count += 1;
        }
    }
    Ok(count)
}

/// A number, or 0 where it is below 0.
fn natural(number: i128) -> u128
    ensures { result ≡ natural number }
{
    if number < 0 { 0 } else { number.unsigned_abs() }
}

/// How long the longest part is, of parts that begin at these starts.
#[tactic(auto, using(sh_sharding::proofs::ViewLaws::largest_grows), unfolding(crate::specs::Weights::longest_part))]
fn longest_part(starts: &[i128]) -> u128
    ensures { result ≡ longest_part starts.now }
{
    let mut longest: u128 = 0;
    for i in 0..starts.len().saturating_sub(1) {
        let length = natural(starts[i + 1]).saturating_sub(natural(starts[i]));
        longest = longest.max(length);
    }
    longest
}

/// How many points of a loop the largest device has.
fn points_along<O: ShardIface>(op: &O, o: &LoopOption, l: u64) -> u128
    requires { l < length (O.meaning op.now).nest.loops }
    ensures { result
        ≡ points_along (loop_at (O.meaning op.now).nest l).extent (split_at o.now l) }
{
    match o.get(l as usize) {
        Some(Some(split)) => longest_part(split.starts.as_slice()),
        _ => u128::from(op.loop_extent(l)),
    }
}

/// The loop points on the largest device: at most 1,048,576 to the sixth power.
#[tactic(auto, unfolding(crate::specs::Weights::points_of))]
fn points<O: ShardIface>(op: &O, g: &Grid, o: &LoopOption) -> u128
    requires nest { IsNest (O.meaning op.now).nest }
    requires valid { IsValid (O.meaning op.now).nest g.now o.now }
    ensures { result ≡ points_of (O.meaning op.now).nest o.now }
{
    let mut points: u128 = 1;
    for l in 0..op.loop_count() {
        points *= points_along(op, o, l);
    }
    points
}

/// The numbers by which a valid option is compared.
#[tactic(auto, unfolding(crate::specs::Weights::weight_of))]
pub(crate) fn weigh<O: ShardIface>(
    alloc: Global,
    op: &O,
    g: &Grid,
    known: &[Known],
    o: &LoopOption,
) -> Result<Weight, Mem>
    requires valid { IsValid (O.meaning op.now).nest g.now o.now }
    requires known { All (IsKnown (O.meaning op.now).nest g.now) known.now }
    ensures { IfOk result (λ w. w ≡ weight_of (O.meaning op.now).nest g.now known.now o.now) }
{
    let user_differ = differing(alloc, op, g, o, true, known)?;
    let other_differ = differing(alloc, op, g, o, false, known)?;
    Ok(Weight {
        user_differ,
        other_differ,
        points: points(op, g, o),
    })
}
