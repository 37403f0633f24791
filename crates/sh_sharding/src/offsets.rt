ghost use Rattle.std.specs.Prelude.{◌≡◌, ◌==◌, ◌&&◌, ◌%◌, ◌+◌, ◌<◌, ◌≤◌, ◌↔◌, ℕ, IsTrue, MatchOption, length, get_or, pos};
ghost use Rattle.sh_grid.specs.Grid.{AreAxesOf, group_size_of};
ghost use Rattle.sh_base.specs.Limits.{max_devices};
ghost use Rattle.sh_sharding.specs.OffsetLists.{AreOffsets};
ghost use Rattle.sh_sharding.specs.LocalTypes.{HasOtherSize, IsCommonSize};
ghost use Rattle.sh_sharding.specs.Sharding.{IsDivided, IsNormalMark, largest_to, offset_of, parts_of, size_of_part};
ghost use Rattle.sh_sharding.specs.Views.{IsBetween, IsDividing, IsRising, IsSeen, mark_in, offsets_in, scaled};
ghost use Rattle.sh_sharding.specs.declared.shardings.Mark.TheVariants.{Balanced};

use crate::views::mark_view;
use crate::{Dimension, Listing, MarkView};
use sh_grid::{Grid, group_size};

/// How many parts a dimension has, and where they begin.
#[derive(Clone, Copy)]
pub(crate) struct Division<'a> {
    pub(crate) parts: u64,
    pub(crate) mark: MarkView<'a>,
}

/// The division of a dimension.
pub(crate) fn division_of<'a>(g: &Grid, d: &'a Dimension) -> Division<'a>
    requires axes { AreAxesOf (length g.now.extents) d.now.axes }
    requires divided { IsDivided d.now.extent (parts_of g.now.extents d.now) d.now.mark }
    requires normal { IsNormalMark d.now.extent (parts_of g.now.extents d.now) d.now.mark }
    ensures { IsSeen g.now.extents d.now result.parts result.mark }
{
    Division {
        parts: group_size(g, &d.axes),
        mark: mark_view(&d.mark),
    }
}

/// Where a part begins of an extent that is divided into so many parts without listed offsets.
#[tactic(auto, unfolding(crate::specs::Sharding::offset_of))]
pub(crate) fn balanced_offset(extent: u64, parts: u64, part: u64) -> u64
    requires some { 0 < parts }
    ensures { result ≡ offset_of extent parts Balanced part }
{
    part.saturating_mul(extent.div_ceil(parts)).min(extent)
}

/// Whether a balanced division has parts of one size.
pub(crate) fn is_even_division(extent: u64, parts: u64, balanced: bool) -> bool
    requires { 0 < parts }
    ensures { result ≡ (balanced && (extent % parts == 0)) }
{
    balanced && extent % parts == 0
}

/// How many offsets a listing has.
fn listed_count(listing: Listing<'_>) -> usize
    ensures { result ≡ length (offsets_in listing.entry) }
{
    match listing {
        Listing::Offsets(offsets) => offsets.len(),
        Listing::Scaled(numbers, _) => numbers.len(),
    }
}

/// The number, where it is at most a bound.
fn at_most(bound: u64, number: u64) -> Option<u64>
    ensures { MatchOption result (¬ IsBetween bound (pos number))
        (λ found. (pos number ≡ pos found) × (found ≤ bound)) }
{
    if number <= bound { Some(number) } else { None }
}

/// The number times a factor, where it isn't negative and at most a bound.
fn scaled_at_most(bound: u64, number: i128, factor: u64) -> Option<u64>
    ensures { MatchOption result (¬ IsBetween bound (scaled factor number))
        (λ found. (scaled factor number ≡ pos found) × (found ≤ bound)) }
{
    if number < 0 {
        return None;
    }
    let product = number.unsigned_abs().checked_mul(u128::from(factor))?;
    if product > u128::from(bound) {
        return None;
    }
    Some(product as u64)
}

/// The offset at a place of a listing, where it lies in the extent.
fn listed_offset(listing: Listing<'_>, at: usize, extent: u64) -> Option<u64>
    requires { at < length (offsets_in listing) }
    ensures { MatchOption result
        (¬ IsBetween extent (get_or (offsets_in listing.entry) at (pos 0)))
        (λ found. (get_or (offsets_in listing.entry) at (pos 0) ≡ pos found) × (found ≤ extent)) }
{
    match listing {
        Listing::Offsets(offsets) => at_most(extent, offsets[at]),
        Listing::Scaled(numbers, factor) => scaled_at_most(extent, numbers[at], factor),
    }
}

/// Whether this is the offset at a place of a listing.
fn is_offset(listing: Listing<'_>, at: usize, offset: u64) -> bool
    requires { at < length (offsets_in listing) }
    ensures { IsTrue result ↔ (get_or (offsets_in listing.entry) at (pos 0) ≡ pos offset) }
{
    match listed_offset(listing, at, offset) {
        Some(found) => found == offset,
        None => false,
    }
}

/// Whether the offsets at a place and at the next are in order, and lie in the extent.
fn is_rising(listing: Listing<'_>, at: usize, extent: u64) -> bool
    requires { at + 1 < length (offsets_in listing) }
    ensures { IsTrue result ↔ IsRising extent (offsets_in listing.entry) at }
{
    match (
        listed_offset(listing, at, extent),
        listed_offset(listing, at + 1, extent),
    ) {
        (Some(from), Some(to)) => from <= to,
        _ => false,
    }
}

/// Whether these are the offsets of so many parts of an extent: 0 first, none less than the one
/// before, the extent last.
pub(crate) fn are_offsets(extent: u64, parts: u64, listing: Listing<'_>) -> bool
    requires { parts ≤ max_devices }
    ensures { IsTrue result ↔ AreOffsets extent parts (offsets_in listing.entry) }
{
    let parts = parts as usize;
    if listed_count(listing) != parts + 1
        || !is_offset(listing, 0, 0)
        || !is_offset(listing, parts, extent)
    {
        return false;
    }
    for at in 0..parts {
        if !is_rising(listing, at, extent) {
            return false;
        }
    }
    true
}

/// Where a part begins. The part after the last begins at the extent.
pub(crate) fn offset(extent: u64, parts: u64, mark: MarkView<'_>, part: u64) -> u64
    requires dividing { IsDividing extent parts mark }
    requires part { part ≤ parts }
    ensures value { result ≡ offset_of extent parts (mark_in extent parts mark.entry) part }
    ensures within { result ≤ extent }
{
    match mark {
        MarkView::Balanced => balanced_offset(extent, parts, part),
        MarkView::Listed(listing) => listed_offset(listing, part as usize, extent).unwrap(),
    }
}

/// How long a part is.
pub(crate) fn part_size(extent: u64, parts: u64, mark: MarkView<'_>, part: u64) -> u64
    requires dividing { IsDividing extent parts mark }
    requires part { part < parts }
    ensures value { result ≡ size_of_part extent parts (mark_in extent parts mark.entry) part }
    ensures within { result ≤ extent }
{
    offset(extent, parts, mark, part + 1) - offset(extent, parts, mark, part)
}

/// Whether the offsets are the balanced ones.
pub(crate) fn is_balanced(extent: u64, parts: u64, mark: MarkView<'_>) -> bool
    requires { IsDividing extent parts mark }
    ensures { IsTrue result ↔ (mark_in extent parts mark.entry ≡ Balanced) }
{
    for part in 0..parts + 1 {
        if offset(extent, parts, mark, part) != balanced_offset(extent, parts, part) {
            return false;
        }
    }
    true
}

/// Whether each part is at least so long.
pub(crate) fn are_parts_at_least(extent: u64, parts: u64, mark: MarkView<'_>, least: u128) -> bool
    requires { IsDividing extent parts mark }
    ensures { IsTrue result ↔ ((i : ℕ) → i < parts
        → least ≤ size_of_part extent parts (mark_in extent parts mark.entry) i) }
{
    for part in 0..parts {
        if least > u128::from(part_size(extent, parts, mark, part)) {
            return false;
        }
    }
    true
}

/// How long the largest part is.
pub(crate) fn largest_part(extent: u64, parts: u64, mark: MarkView<'_>) -> u64
    requires { IsDividing extent parts mark }
    ensures value { result ≡ largest_to
        (size_of_part extent parts (mark_in extent parts mark.entry)) parts }
    ensures within { result ≤ extent }
{
    let mut most = 0u64;
    for part in 0..parts {
        most = most.max(part_size(extent, parts, mark, part));
    }
    most
}

/// The size of all parts, if they have one size.
pub(crate) fn common_size(extent: u64, parts: u64, mark: MarkView<'_>) -> Option<u64>
    requires { IsDividing extent parts mark }
    ensures { MatchOption result (HasOtherSize extent parts (mark_in extent parts mark.entry))
        (λ size. IsCommonSize extent parts (mark_in extent parts mark.entry) size) }
{
    let first = part_size(extent, parts, mark, 0);
    for part in 0..parts {
        if part_size(extent, parts, mark, part) != first {
            return None;
        }
    }
    Some(first)
}
