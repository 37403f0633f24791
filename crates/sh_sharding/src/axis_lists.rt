ghost use Rattle.std.specs.Prelude.{◌≡◌, ◌==◌, ◌^◌, [], ◌<◌, ◌≤◌, ◌↔◌, ℕ, All, IfOk, IsTrue, OnOk, ◌++◌, count_by, length, map, slice_index_or};
ghost use Rattle.sh_base.specs.Shape.{max_rank};
ghost use Rattle.sh_sharding.specs.AxisLists.{IsBelow, listed, listed_axes, natural};
ghost use Rattle.sh_sharding.specs.Sharding.{unsplit};

use crate::{Dimension, Mark};
use sh_base::{Mem, Numbers, Shape, shape};
use std::alloc::Global;

/// Whether all numbers are at least 0 and below a bound.
pub(crate) fn are_below(numbers: &[i128], bound: u64) -> bool
    ensures { IsTrue result ↔ All (IsBelow bound) numbers.now }
{
    numbers
        .iter()
        .all(|number| *number >= 0 && *number < bound as i128)
}

/// Whether all lists list axes of a grid with so many axes.
pub(crate) fn are_axes(lists: &[Numbers], rank: u64) -> bool
    ensures { IsTrue result ↔ All (All (IsBelow rank)) lists.now }
{
    lists.iter().all(|list| are_below(list.as_slice(), rank))
}

/// Appends numbers that fit.
fn push_naturals(out: &mut Vec<u64>, numbers: &[i128]) -> Result<(), Mem>
    requires { All (IsBelow (2 ^ 64)) numbers.now }
    ensures { OnOk result (out.new.items ≡ out.old.items ++ map natural numbers.now) }
{
    for number in numbers {
        out.push(*number as u64)?;
    }
    Ok(())
}

/// Numbers that fit.
pub(crate) fn naturals(alloc: Global, numbers: &[i128]) -> Result<Vec<u64>, Mem>
    requires { All (IsBelow (2 ^ 64)) numbers.now }
    ensures { IfOk result (λ out. out.items ≡ map natural numbers.now) }
{
    let mut out = Vec::new(alloc);
    push_naturals(&mut out, numbers)?;
    Ok(out)
}

/// All listed axes, one list after the other.
pub(crate) fn all_listed(alloc: Global, lists: &[Numbers]) -> Result<Vec<u64>, Mem>
    requires { All (All (IsBelow (2 ^ 64))) lists.now }
    ensures { IfOk result (λ out. out.items ≡ listed_axes lists.now) }
{
    let mut out = Vec::new(alloc);
    for list in lists {
        push_naturals(&mut out, list.as_slice())?;
    }
    Ok(out)
}

/// How often an axis is listed.
pub(crate) fn times_listed(listed: &[u64], axis: u64) -> usize
    ensures { result ≡ count_by (λ b. b == axis) listed.now }
{
    listed.iter().filter(|a| **a == axis).count()
}

/// Whether no axis is listed twice.
pub(crate) fn are_distinct(listed: &[u64], rank: u64) -> bool
    requires { All (λ a. a < rank) listed.now }
    ensures { IsTrue result ↔ ((a : ℕ) → count_by (λ b. b == a) listed.now ≤ 1) }
{
    for axis in 0..rank {
        if times_listed(listed, axis) > 1 {
            return false;
        }
    }
    true
}

/// The dimension that the list with this number splits.
fn listed_dimension(
    alloc: Global,
    lists: &[Numbers],
    at: usize,
    extent: u64,
) -> Result<Dimension, Mem>
    requires fit { All (All (IsBelow (2 ^ 64))) lists.now }
    requires short { All (λ list. length list ≤ max_rank) lists.now }
    ensures { IfOk result (λ d. d ≡
        record (unsplit extent) { axes = map natural (slice_index_or lists.now at []) }) }
{
    let axes = match lists.get(at) {
        Some(list) => naturals(alloc, list.as_slice())?,
        None => Vec::new(alloc),
    };
    Ok(Dimension {
        extent,
        axes: shape(alloc, axes.as_slice()),
        mark: Mark::Balanced,
        low: 0,
        high: 0,
    })
}

/// The dimensions with their lists of axes.
pub(crate) fn listed_dimensions(
    alloc: Global,
    lists: &[Numbers],
    s: &Shape,
) -> Result<Vec<Dimension>, Mem>
    requires fit { All (All (IsBelow (2 ^ 64))) lists.now }
    requires short { All (λ list. length list ≤ max_rank) lists.now }
    ensures { IfOk result (λ ds. ds.items ≡ listed lists.now s.now) }
{
    let mut dimensions = Vec::new(alloc);
    for (at, extent) in s.extents().iter().enumerate() {
        dimensions.push(listed_dimension(alloc, lists, at, *extent)?)?;
    }
    Ok(dimensions)
}
