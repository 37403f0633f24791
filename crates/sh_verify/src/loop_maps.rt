ghost use Rattle.std.specs.Prelude.{◌≡◌, ◌+◌, [], ◌∷◌, ◌&&◌, nat_eq, not, option_map, slice_get, map, ◌≤◌, length};
ghost use Rattle.std.specs.List.{list_all, position_or_len, range_with_len};
ghost use Rattle.sh_ir.specs.Agreement.{differs};
ghost use Rattle.sh_ir.specs.Loops.{places_in, single, unlisted};
ghost use Rattle.sh_ir.specs.Maps.{results_of};
ghost use Rattle.sh_ir.specs.Numbers as numbers;
ghost use Rattle.sh_ir.specs.Operands as operands;
ghost use Rattle.sh_ir.specs.Regions.{is_among};
ghost use Rattle.sh_ir.specs.Typing.{operand_types};
ghost use Rattle.std.specs.Option.{option_copied};
ghost use Rattle.sh_verify.specs.Followings.{count_unless, follow, followings, has_rank, loops_in, map_in, maps_in, operands_in, placed, types_in};

use crate::numbers::{is_listed, natural};
use crate::sizes::dims;
use sh_ir::{Dim, Generic, InsOuts, ValueType};

/// The loops whose coordinates the index of a dimension sums.
#[derive(Clone, Copy)]
pub(crate) enum Followed {
    One(u64),
    Sum(u64, u64),
}

/// Which loops the dimensions of an operand follow.
#[derive(Clone, Copy)]
pub(crate) enum LoopMap<'a> {
    /// Each the loop of its number, below a rank.
    Identity(usize),
    /// These.
    Listed(&'a [u32]),
    /// The sums of these.
    Summed(&'a [Followed]),
    /// Each the loop at the place where its number stands in a list.
    Places(usize, &'a [i128]),
    /// The loops below a bound that aren't listed.
    Unlisted(usize, &'a [i128]),
}

/// An operand of a structured operation.
#[derive(Clone, Copy)]
pub(crate) struct Operand<'a> {
    pub loops: LoopMap<'a>,
    pub dims: &'a [Dim],
}

/// The operands of a structured operation.
#[derive(Clone, Copy)]
pub(crate) enum Operands<'a> {
    /// Those that `ins` and `outs` name, by these maps.
    Typed(&'a InsOuts, &'a [LoopMap<'a>]),
    /// Those of a generic, by its maps as they are written.
    Written(&'a Generic),
}

// ---- maps

/// Where a number stands in a list; its length where it doesn't.
fn place_of(written: &[i128], number: u128) -> usize
    ensures { result ≡ position_or_len (nat_eq number) (numbers.as_naturals written.now) }
{
    for (at, other) in written.iter().enumerate() {
        if natural(other) == number {
            return at;
        }
    }
    written.len()
}

/// The number at a place among those below a bound that aren't listed.
fn unlisted_at(bound: usize, listed: &[i128], at: usize) -> Option<u64>
    ensures { result ≡ slice_get (unlisted bound (numbers.as_naturals listed.now)) at }
{
    let mut before = at;
    for number in 0..bound {
        if is_listed(listed, number as u128) {
            continue;
        }
        if before == 0 {
            return Some(number as u64);
        }
        before = before - 1;
    }
    None
}

fn one(found: Option<u64>) -> Option<Followed>
    ensures { option_map loops_in result ≡ option_map (λ l. l ∷ []) found }
{
    match found {
        Some(number) => Some(Followed::One(number)),
        None => None,
    }
}

fn listed_at(loops: &[u32], at: usize) -> Option<u64>
    ensures { result ≡ slice_get loops.now at }
{
    match loops.get(at) {
        Some(number) => Some(*number as u64),
        None => None,
    }
}

fn below(rank: usize, at: usize) -> Option<u64>
    ensures { result ≡ slice_get (range_with_len 0 rank) at }
{
    if at < rank { Some(at as u64) } else { None }
}

fn place_below(rank: usize, written: &[i128], at: usize) -> Option<u64>
    ensures { result ≡ slice_get (places_in rank (numbers.as_naturals written.now)) at }
{
    if at < rank {
        Some(place_of(written, at as u128) as u64)
    } else {
        None
    }
}

/// The loops that a dimension follows.
fn loops_of(loops: LoopMap<'_>, at: usize) -> Option<Followed>
    ensures { option_map loops_in result ≡ slice_get (map_in loops.entry) at }
{
    match loops {
        LoopMap::Identity(rank) => one(below(rank, at)),
        LoopMap::Listed(listed) => one(listed_at(listed, at)),
        LoopMap::Summed(sums) => sums.get(at).copied(),
        LoopMap::Places(rank, written) => one(place_below(rank, written, at)),
        LoopMap::Unlisted(bound, written) => one(unlisted_at(bound, written, at)),
    }
}

// ---- the extents of loops

fn is_alone(loops: Followed, number: u64) -> bool
    ensures { result ≡ operands.is_alone (loops_in loops) number }
{
    match loops {
        Followed::One(only) => only == number,
        Followed::Sum(_, _) => false,
    }
}

pub(crate) fn is_known(dim: Dim) -> bool
    ensures { result ≡ not (differs dim) }
{
    match dim {
        Dim::Known(_) => true,
        Dim::Differs => false,
    }
}

fn decides(loops: Followed, dim: Dim, number: u64) -> bool
    ensures { result ≡ (operands.is_alone (loops_in loops) number && not (differs dim)) }
{
    is_alone(loops, number) && is_known(dim)
}

/// The extent of a loop by an operand; `?` where it doesn't say.
fn extent_along(loops: LoopMap<'_>, extents: &[Dim], number: u64) -> Dim
    ensures { result ≡ operands.loop_dim (operands.following (map_in loops.entry) extents.now)
        number }
{
    for (at, dim) in extents.iter().enumerate() {
        match loops_of(loops, at) {
            Some(here) => {
                if decides(here, *dim, number) {
                    return *dim;
                }
            }
            None => return Dim::Differs,
        }
    }
    Dim::Differs
}

// ---- the operands

/// The written types of the operands, those of `ins` first.
pub(crate) fn operand_type(x: &InsOuts, at: usize) -> Option<&ValueType>
    ensures { option_copied result ≡ slice_get (operand_types x.now) at }
{
    let inputs = x.ins_types.len();
    if at < inputs {
        x.ins_types.get(at)
    } else {
        x.outs_types.get(at - inputs)
    }
}

/// The map of an operand.
fn map_at(all: Operands<'_>, at: usize) -> Option<LoopMap<'_>>
    ensures { option_map map_in result ≡ slice_get (maps_in all.entry) at }
{
    match all {
        Operands::Typed(_, maps) => maps.get(at).copied(),
        Operands::Written(x) => written_map(x, at),
    }
}

fn written_map(x: &Generic, at: usize) -> Option<LoopMap<'_>>
    ensures { option_map map_in result ≡ slice_get (map single (results_of x.now)) at }
{
    match x.indexing_maps.get(at) {
        Some(map) => Some(LoopMap::Listed(map.results.as_slice())),
        None => None,
    }
}

fn type_at(all: Operands<'_>, at: usize) -> Option<&ValueType>
    ensures { option_copied result ≡ slice_get (types_in all.entry) at }
{
    match all {
        Operands::Typed(x, _) => operand_type(x, at),
        Operands::Written(x) => operand_type(&x.ins_outs, at),
    }
}

fn operand_at(all: Operands<'_>, at: usize) -> Option<Operand<'_>>
    ensures { option_map placed result ≡ slice_get (operands_in all.entry) at }
{
    match map_at(all, at) {
        Some(loops) => match type_at(all, at) {
            Some(value_type) => Some(Operand {
                loops,
                dims: dims(value_type),
            }),
            None => None,
        },
        None => None,
    }
}

fn count_maps(all: Operands<'_>) -> usize
    ensures { result ≡ length (maps_in all.entry) }
{
    match all {
        Operands::Typed(_, maps) => maps.len(),
        Operands::Written(x) => x.indexing_maps.len(),
    }
}

fn count_types(all: Operands<'_>) -> u128
    ensures { result ≡ length (types_in all.entry) }
{
    match all {
        Operands::Typed(x, _) => count_operands(x),
        Operands::Written(x) => count_operands(&x.ins_outs),
    }
}

pub(crate) fn count_operands(x: &InsOuts) -> u128
    ensures { result ≡ length (operand_types x.now) }
{
    x.ins_types.len() as u128 + x.outs_types.len() as u128
}

/// The extent of a loop: that of the first dimension which follows it alone and is known; else `?`.
fn loop_extent(all: Operands<'_>, number: u64) -> Dim
    ensures { result ≡ operands.loop_dim (followings all.entry) number }
{
    for at in 0..count_maps(all) {
        match operand_at(all, at) {
            Some(operand) => {
                let extent = extent_along(operand.loops, operand.dims, number);
                if is_known(extent) {
                    return extent;
                }
            }
            None => return Dim::Differs,
        }
    }
    Dim::Differs
}

// ---- what is asked of the extents

fn sums(window: Dim, kernel: Dim, dim: Dim) -> bool
    ensures { result ≡ operands.sums (window ∷ kernel ∷ []) dim }
{
    match (window, kernel, dim) {
        (Dim::Known(places), Dim::Known(width), Dim::Known(extent)) => {
            places == 0 || extent as u128 + 2 == places as u128 + width as u128 + 1
        }
        _ => true,
    }
}

/// Whether a dimension has the extent of the loops that it follows.
fn has_extent(all: Operands<'_>, loops: Followed, dim: Dim) -> bool
    ensures { result ≡ operands.sums
        (map (operands.loop_dim (followings all.entry)) (loops_in loops)) dim }
{
    match loops {
        Followed::One(number) => is_alike(loop_extent(all, number), dim),
        Followed::Sum(window, kernel) => {
            sums(loop_extent(all, window), loop_extent(all, kernel), dim)
        }
    }
}

fn is_alike(extent: Dim, dim: Dim) -> bool
    ensures { result ≡ operands.sums (extent ∷ []) dim }
{
    match (extent, dim) {
        (Dim::Known(wanted), Dim::Known(written)) => wanted == written,
        _ => true,
    }
}

fn operand_fits(all: Operands<'_>, loops: LoopMap<'_>, extents: &[Dim]) -> bool
    ensures { result ≡ list_all (operands.has_extent (followings all.entry))
        (operands.following (map_in loops.entry) extents.now) }
{
    for (at, dim) in extents.iter().enumerate() {
        match loops_of(loops, at) {
            Some(here) => {
                if !has_extent(all, here, *dim) {
                    return false;
                }
            }
            None => return true,
        }
    }
    true
}

/// Whether all maps give a loop one extent.
#[tactic(auto, unfolding(sh_ir::specs::Operands::extents_fit))]
fn extents_fit(all: Operands<'_>) -> bool
    ensures { result ≡ operands.extents_fit (followings all.entry) }
{
    for at in 0..count_maps(all) {
        match operand_at(all, at) {
            Some(operand) => {
                if !operand_fits(all, operand.loops, operand.dims) {
                    return false;
                }
            }
            None => return true,
        }
    }
    true
}

// ---- what is asked of the ranks

/// Counts a number unless it is listed.
fn count_one(listed: &[i128], number: u128) -> usize
    ensures value { result ≡ count_unless (is_among (numbers.as_naturals listed.now) number) }
    ensures within { result ≤ 1 }
{
    if is_listed(listed, number) { 0 } else { 1 }
}

/// How many numbers below a bound aren't listed.
fn count_unlisted(bound: usize, listed: &[i128]) -> usize
    ensures { result ≡ length (unlisted bound (numbers.as_naturals listed.now)) }
{
    let mut count: usize = 0;
    for number in 0..bound {
        count = count + count_one(listed, number as u128);
    }
    count
}

fn map_rank(loops: LoopMap<'_>) -> usize
    ensures { result ≡ length (map_in loops.entry) }
{
    match loops {
        LoopMap::Identity(rank) => rank,
        LoopMap::Listed(listed) => listed.len(),
        LoopMap::Summed(sums) => sums.len(),
        LoopMap::Places(rank, _) => rank,
        LoopMap::Unlisted(bound, written) => count_unlisted(bound, written),
    }
}

fn has_rank(operand: Operand<'_>) -> bool
    ensures { result ≡ has_rank (placed operand.entry) }
{
    map_rank(operand.loops) == operand.dims.len()
}

fn have_ranks(all: Operands<'_>) -> bool
    ensures { result ≡ list_all has_rank (operands_in all.entry) }
{
    for at in 0..count_maps(all) {
        match operand_at(all, at) {
            Some(operand) => {
                if !has_rank(operand) {
                    return false;
                }
            }
            None => return true,
        }
    }
    true
}

fn ranks_fit(all: Operands<'_>) -> bool
    ensures { result ≡ operands.ranks_fit (maps_in all.entry) (types_in all.entry) }
{
    count_maps(all) as u128 == count_types(all) && have_ranks(all)
}

/// Whether each operand has the rank of its map, and all maps give a loop one extent.
pub(crate) fn follow(all: Operands<'_>) -> bool
    ensures { result ≡ follow (maps_in all.entry) (types_in all.entry) }
{
    ranks_fit(all) && extents_fit(all)
}
