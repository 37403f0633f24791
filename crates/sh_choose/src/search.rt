//! The search for the least option.
ghost use Rattle.std.specs.Prelude.{◌≡◌, ◌++◌, ◌∷◌, [], true, false, All, IfOk, List, map};
ghost use Rattle.sh_iface.specs.Splits.{OptionValue};
ghost use Rattle.sh_choose.specs.Bounds.{IsNoMore, IsPast};
ghost use Rattle.sh_choose.specs.Least.{IsBest, IsChosen, IsKnown, weight_in};
ghost use Rattle.sh_choose.specs.Proposals.{choices};

use crate::bounds::is_hopeless;
use crate::proposing::all_proposals;
use crate::weighing::{is_less, weigh, weight_in};
use crate::{Chosen, Known, Weight};
use sh_base::{Duplicate, Items, Mem, shape};
use sh_grid::{Grid, extents};
use sh_iface::{LoopOption, ShardIface, Split};
use std::alloc::Global;

/// A copy of a split.
fn copied_split(alloc: Global, split: &Split) -> Result<Split, Mem>
    ensures { IfOk result (λ copy. copy ≡ split.now) }
{
    Ok(Split {
        axes: shape(alloc, split.axes.extents()),
        starts: split.starts.duplicate(alloc)?,
    })
}

/// A copy of how a loop is split.
fn copied(alloc: Global, split: &Option<Split>) -> Result<Option<Split>, Mem>
    ensures { IfOk result (λ copy. copy ≡ split.now) }
{
    match split {
        None => Ok(None),
        Some(split) => {
            let copy = copied_split(alloc, split)?;
            Ok(Some(copy))
        }
    }
}

/// The option so far, with one loop more.
fn with_split(alloc: Global, o: &LoopOption, split: &Option<Split>) -> Result<LoopOption, Mem>
    ensures { IfOk result (λ longer. longer ≡ o.now ++ split.now ∷ []) }
{
    let mut longer = Items::new(alloc);
    for earlier in o.as_slice() {
        let copy = copied(alloc, earlier)?;
        longer.push(copy)?;
    }
    let copy = copied(alloc, split)?;
    longer.push(copy)?;
    Ok(longer)
}

/// An option with its numbers.
fn chosen(option: LoopOption, weight: Weight) -> Chosen
    ensures option { result.option ≡ option }
    ensures weight { weight_in result ≡ weight }
{
    Chosen {
        option,
        user_differ: weight.user_differ,
        other_differ: weight.other_differ,
        points: weight.points,
    }
}

/// Whether an option is no more than the best so far.
fn is_as_little(weight: Weight, best: &Option<Chosen>) -> bool
    ensures little { result ≡ true → IsNoMore weight best.now }
    ensures past { result ≡ false → IsPast best.now weight }
{
    match best {
        None => true,
        Some(best) => !is_less(weight_in(best), weight),
    }
}

/// The best of an option and those after it.
fn better<O: ShardIface>(
    alloc: Global,
    op: &O,
    g: &Grid,
    known: &[Known],
    o: LoopOption,
    best: Option<Chosen>,
) -> Result<Option<Chosen>, Mem>
    requires { All (IsKnown (O.meaning op.now).nest g.now) known.now }
    ensures { IfOk result (λ new. (after : List OptionValue)
        → IsBest (O.meaning op.now).nest g.now known.now after best
        → IsBest (O.meaning op.now).nest g.now known.now (o ∷ after) new) }
{
    if !op.admits(g, &o) {
        return Ok(best);
    }
    let weight = weigh(alloc, op, g, known, &o)?;
    if is_as_little(weight, &best) {
        Ok(Some(chosen(o, weight)))
    } else {
        Ok(best)
    }
}

/// The best of all options that begin so and those after them. They are looked at from the last to
/// the first: where the known shardings agree the last one splits all loops as they do, and leaves
/// the others hopeless.
fn best_of<O: ShardIface>(
    alloc: Global,
    op: &O,
    g: &Grid,
    known: &[Known],
    later: &[LoopOption],
    o: LoopOption,
    mut best: Option<Chosen>,
) -> Result<Option<Chosen>, Mem>
    requires { All (IsKnown (O.meaning op.now).nest g.now) known.now }
    ensures { IfOk result (λ new. (after : List OptionValue)
        → IsBest (O.meaning op.now).nest g.now known.now after best
        → IsBest (O.meaning op.now).nest g.now known.now
        (map (λ rest. o ++ rest) (choices later.now) ++ after) new) }
{
    if is_hopeless(op, g, known, &o, &best) {
        return Ok(best);
    }
    let Some((proposals, others)) = later.split_first() else {
        return better(alloc, op, g, known, o, best);
    };
    let mut rest = proposals.as_slice();
    while let Some((split, front)) = rest.split_last() {
        let longer = with_split(alloc, &o, split)?;
        best = best_of(alloc, op, g, known, others, longer, best)?;
        rest = front;
    }
    Ok(best)
}

/// The least option of an operation: of the options that its known shardings propose, listed with
/// loop 0 outermost, the first valid one that differs from the fewest user shardings, then from the
/// fewest others, and then has the fewest loop points on the largest device.
///
/// The known shardings are of operands, or of the result, on the grid `g`. Their proposals are
/// listed in their order.
///
/// Errors: `Mem` where memory is wanting.
pub fn least_option<O: ShardIface>(
    alloc: Global,
    op: &O,
    g: &Grid,
    known: &[Known],
) -> Result<Chosen, Mem>
    requires { All (IsKnown (O.meaning op.now).nest g.now) known.now }
    ensures { IfOk result (IsChosen (O.meaning op.now).nest g.now known.now) }
{
    let _grid = extents(g);
    let proposals = all_proposals(alloc, op, g, known)?;
    let start = Items::new(alloc);
    match best_of(alloc, op, g, known, proposals.as_slice(), start, None)? {
        Some(chosen) => Ok(chosen),
        None => unreachable!(),
    }
}
