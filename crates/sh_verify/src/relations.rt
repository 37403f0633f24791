ghost use Rattle.std.specs.Prelude.{◌≡◌, ◌+◌, ◌*◌, ◌/◌, ◌%◌, get_or, map, min, nat_eq};
ghost use Rattle.std.specs.List.{list_all};
ghost use Rattle.sh_ir.specs.Agreement as agreement;
ghost use Rattle.sh_ir.specs.Numbers as numbers;
ghost use Rattle.sh_ir.specs.Results as results;
ghost use Rattle.sh_verify.specs.Lists.{above_extents};
ghost use Rattle.sh_verify.specs.Relations.{is_changed, members_of, relates, size_of, size_of_axes};

use crate::agreement::dim_agrees;
use crate::numbers::natural;
use crate::slices::cut_product;
use sh_ir::Dim;

/// The devices of a grid that differ along some axes alone. The axes are in order, and no extent of
/// the grid is 0.
#[derive(Clone, Copy)]
pub(crate) struct Group<'a> {
    pub extents: &'a [i128],
    pub axes: &'a [i128],
}

/// How the extents of a value follow from those of an operand.
#[derive(Clone, Copy)]
pub(crate) enum Relation<'a> {
    /// Along a dimension they are those of all members, one after the other.
    Gathered(u64, Option<Group<'a>>),
    /// Along a dimension one of as many equal pieces as there are members.
    Piece(u64, Option<Group<'a>>),
    /// Split along the first dimension, and joined along the second or the same.
    Exchanged(u64, u64, Option<Group<'a>>),
    /// Along a dimension each of the sizes, where they are in order.
    Sized(u64, bool, &'a [i128]),
    /// In each dimension so many more before and behind.
    Padded(&'a [i128], &'a [i128]),
}

// ---- numbers

/// The number at a place; 0 where there is none.
fn number_at(written: &[i128], at: u128) -> u128
    ensures { result ≡ get_or (numbers.as_naturals written.now) at 0 }
{
    if at < written.len() as u128 {
        natural(&written[at as usize])
    } else {
        0
    }
}

/// How many devices differ along the axes; no more than the first number that no extent reaches.
fn count_along(extents: &[i128], axes: &[i128]) -> u128
    ensures { result ≡ min (size_of_axes extents.now axes.now) above_extents }
{
    let mut count: u128 = 1;
    for axis in axes {
        count = cut_product(count, number_at(extents, natural(axis)));
    }
    count
}

/// The same of a group.
fn members(group: Group<'_>) -> u128
    ensures { result ≡ min (members_of group.entry) above_extents }
{
    count_along(group.extents, group.axes)
}

/// Whether a number is that of the members.
pub(crate) fn is_count(group: Group<'_>, count: usize) -> bool
    ensures { result ≡ nat_eq count (members_of group.entry) }
{
    members(group) == count as u128
}

fn is_product(extent: u64, count: u128, all: u64) -> bool
    ensures { result ≡ nat_eq (extent * count) all }
{
    match count.checked_mul(extent as u128) {
        Some(product) => product == all as u128,
        None => false,
    }
}

fn is_divided(extent: u64, count: u128) -> bool
    ensures { result ≡ nat_eq (extent % count) 0 }
{
    if count == 0 {
        return extent == 0;
    }
    extent as u128 % count == 0
}

fn is_quotient(extent: u64, count: u128, part: u64) -> bool
    ensures { result ≡ nat_eq (extent / count) part }
{
    if count == 0 {
        return part == 0;
    }
    extent as u128 / count == part as u128
}

fn is_sum(before: u128, extent: u64, behind: u128, all: u64) -> bool
    ensures { result ≡ nat_eq (before + extent + behind) all }
{
    match before.checked_add(extent as u128) {
        Some(front) => match front.checked_add(behind) {
            Some(sum) => sum == all as u128,
            None => false,
        },
        None => false,
    }
}

// ---- of one dimension

/// Whether it is the extents of all members together.
fn is_whole(group: Group<'_>, from: u64, to: u64) -> bool
    ensures { result ≡ nat_eq (from * members_of group.entry) to }
{
    is_product(from, members(group), to)
}

/// Whether it has as many equal pieces as there are members.
fn has_pieces(group: Group<'_>, from: u64) -> bool
    ensures { result ≡ nat_eq (from % members_of group.entry) 0 }
{
    is_divided(from, members(group))
}

fn is_share(group: Group<'_>, from: u64, to: u64) -> bool
    ensures { result ≡ nat_eq (from / members_of group.entry) to }
{
    is_quotient(from, members(group), to)
}

fn is_gathered(group: Option<Group<'_>>, from: Dim, to: Dim) -> bool
    ensures { result ≡ results.is_gathered (size_of group.entry) from to }
{
    match (group, from, to) {
        (Some(devices), Dim::Known(extent), Dim::Known(all)) => is_whole(devices, extent, all),
        _ => true,
    }
}

fn is_piece(group: Option<Group<'_>>, from: Dim, to: Dim) -> bool
    ensures { result ≡ results.is_piece (size_of group.entry) from to }
{
    match (group, from, to) {
        (Some(devices), Dim::Known(extent), Dim::Known(part)) => {
            has_pieces(devices, extent) && is_share(devices, extent, part)
        }
        _ => true,
    }
}

fn is_regrouped(group: Option<Group<'_>>, from: Dim, to: Dim) -> bool
    ensures { result ≡ results.is_regrouped (size_of group.entry) from to }
{
    match (group, from, to) {
        (Some(devices), Dim::Known(extent), Dim::Known(all)) => {
            has_pieces(devices, extent) && extent == all
        }
        _ => true,
    }
}

fn are_all(written: &[i128], extent: u64) -> bool
    ensures { result ≡ list_all (nat_eq extent) (numbers.as_naturals written.now) }
{
    for number in written {
        if natural(number) != extent as u128 {
            return false;
        }
    }
    true
}

fn is_of_sizes(sizes: &[i128], to: Dim) -> bool
    ensures { result ≡ results.is_of_sizes (numbers.as_naturals sizes.now) to }
{
    match to {
        Dim::Known(extent) => are_all(sizes, extent),
        Dim::Differs => true,
    }
}

fn is_padded(low: &[i128], high: &[i128], at: usize, from: Dim, to: Dim) -> bool
    ensures { result ≡ results.is_padded (numbers.as_naturals low.now)
        (numbers.as_naturals high.now) at from to }
{
    match (from, to) {
        (Dim::Known(extent), Dim::Known(all)) => {
            let before = number_at(low, at as u128);
            is_sum(before, extent, number_at(high, at as u128), all)
        }
        _ => true,
    }
}

fn is_exchanged(group: Option<Group<'_>>, split: bool, joined: bool, from: Dim, to: Dim) -> bool
    ensures { result ≡ is_changed (size_of group.entry) split joined from to }
{
    match (split, joined) {
        (true, true) => is_regrouped(group, from, to),
        (true, false) => is_piece(group, from, to),
        (false, true) => is_gathered(group, from, to),
        (false, false) => dim_agrees(from, to),
    }
}

// ---- of all dimensions

#[tactic(auto, unfolding(crate::specs::Relations::relates, sh_ir::specs::Results::exchanged))]
fn is_related(relation: Relation<'_>, at: usize, from: Dim, to: Dim) -> bool
    ensures { result ≡ relates relation.entry at from to }
{
    let place = at as u64;
    match relation {
        Relation::Gathered(axis, group) => is_exchanged(group, false, place == axis, from, to),
        Relation::Piece(axis, group) => is_exchanged(group, place == axis, false, from, to),
        Relation::Exchanged(split, joined, group) => {
            is_exchanged(group, place == split, place == joined, from, to)
        }
        Relation::Sized(axis, in_order, sizes) => {
            if place == axis {
                !in_order || is_of_sizes(sizes, to)
            } else {
                dim_agrees(from, to)
            }
        }
        Relation::Padded(low, high) => is_padded(low, high, at, from, to),
    }
}

/// Whether the extents of two types of one rank are so related, each with the one at its place.
pub(crate) fn are_related(relation: Relation<'_>, left: &[Dim], right: &[Dim]) -> bool
    ensures { result ≡ agreement.all_related (relates relation.entry) 0 left.now right.now }
{
    if left.len() != right.len() {
        return false;
    }
    for (at, dim) in left.iter().enumerate() {
        if !is_related(relation, at, *dim, right[at]) {
            return false;
        }
    }
    true
}
