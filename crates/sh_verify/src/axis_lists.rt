ghost use Rattle.std.specs.Prelude.{◌≡◌, ◌&&◌};
ghost use Rattle.std.specs.List.{list_all};
ghost use Rattle.sh_ir.specs.Numbers as numbers;
ghost use Rattle.sh_ir.specs.Regions.{is_among};
ghost use Rattle.sh_verify.specs.Lists.{all_axes, is_apart};

use crate::numbers::{are_below, are_distinct, is_listed, natural};
use sh_base::Numbers;

fn are_all_below(bound: usize, lists: &[Numbers]) -> bool
    ensures { result ≡ list_all (numbers.is_below bound) (all_axes lists.now) }
{
    for axes in lists {
        if !are_below(bound, axes.as_slice()) {
            return false;
        }
    }
    true
}

/// Whether a number is in one of the lists.
fn is_in_lists(lists: &[Numbers], number: u128) -> bool
    ensures { result ≡ is_among (numbers.as_naturals (all_axes lists.now)) number }
{
    for axes in lists {
        if is_listed(axes.as_slice(), number) {
            return true;
        }
    }
    false
}

/// Whether no number of a list is in the others.
fn are_apart(axes: &[i128], others: &[Numbers]) -> bool
    ensures { result ≡ is_apart axes.now (all_axes others.now) }
{
    for axis in axes {
        if is_in_lists(others, natural(axis)) {
            return false;
        }
    }
    true
}

/// Whether no number of a list stands in it twice, or in the others.
fn stands_alone(axes: &[i128], others: &[Numbers]) -> bool
    ensures { result ≡ (numbers.are_distinct (numbers.as_naturals axes.now)
        && is_apart axes.now (all_axes others.now)) }
{
    are_distinct(axes) && are_apart(axes, others)
}

/// Whether no number stands in the lists twice.
fn are_all_distinct(lists: &[Numbers]) -> bool
    ensures { result ≡ numbers.are_distinct (numbers.as_naturals (all_axes lists.now)) }
{
    for (at, axes) in lists.iter().enumerate() {
        let (_, others) = lists.split_at(at + 1);
        if !stands_alone(axes.as_slice(), others) {
            return false;
        }
    }
    true
}

/// Whether the axes of all lists together are distinct axes below a bound.
pub(crate) fn are_all_axes(bound: usize, lists: &[Numbers]) -> bool
    ensures { result ≡ numbers.are_axes_below bound (all_axes lists.now) }
{
    are_all_below(bound, lists) && are_all_distinct(lists)
}
