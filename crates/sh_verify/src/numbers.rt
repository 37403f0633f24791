ghost use Rattle.std.specs.Prelude.{◌≡◌, ◌<◌, ◌&&◌, nat_eq, length, map};
ghost use Rattle.std.specs.List.{list_all};
ghost use Rattle.sh_ir.specs.Numbers as numbers;
ghost use Rattle.sh_ir.specs.Regions.{is_among};
ghost use Rattle.sh_verify.specs.Lists.{stands_again};
ghost use Rattle.sh_ir.specs.Formed.{is_not_negative};

/// Whether a written number is one from 0 on and below a bound.
fn is_below(bound: usize, number: &i128) -> bool
    ensures { result ≡ numbers.is_below bound number.now }
{
    let written = *number;
    written >= 0 && written < bound as i128
}

pub(crate) fn are_below(bound: usize, written: &[i128]) -> bool
    ensures { result ≡ list_all (numbers.is_below bound) written.now }
{
    written.iter().all(|number| is_below(bound, number))
}

/// A written number, as one that isn't negative.
pub(crate) fn natural(number: &i128) -> u128
    ensures { result ≡ numbers.as_natural number.now }
{
    let written = *number;
    if written < 0 { 0 } else { written as u128 }
}

fn is_natural(number: &i128) -> bool
    ensures { result ≡ is_not_negative number.now }
{
    let written = *number;
    written >= 0
}

pub(crate) fn all_naturals(written: &[i128]) -> bool
    ensures { result ≡ list_all is_not_negative written.now }
{
    written.iter().all(|number| is_natural(number))
}

/// So many numbers, none negative.
pub(crate) fn are_naturals(count: usize, written: &[i128]) -> bool
    ensures { result ≡ numbers.are_naturals count written.now }
{
    written.len() == count && all_naturals(written)
}

fn is_positive(number: &i128) -> bool
    ensures { result ≡ numbers.is_positive number.now }
{
    let written = *number;
    written >= 1
}

pub(crate) fn all_positive(written: &[i128]) -> bool
    ensures { result ≡ list_all numbers.is_positive written.now }
{
    written.iter().all(|number| is_positive(number))
}

pub(crate) fn are_positive(count: usize, written: &[i128]) -> bool
    ensures { result ≡ numbers.are_positive count written.now }
{
    written.len() == count && all_positive(written)
}

/// Whether a number is among others.
pub(crate) fn is_listed(written: &[i128], number: u128) -> bool
    ensures { result ≡ is_among (numbers.as_naturals written.now) number }
{
    for other in written {
        if natural(other) == number {
            return true;
        }
    }
    false
}

/// Whether the number at a place stands behind it again.
fn is_repeated(written: &[i128], at: usize) -> bool
    requires { at < length written.now }
    ensures { result ≡ stands_again written.now at }
{
    let (_, others) = written.split_at(at + 1);
    is_listed(others, natural(&written[at]))
}

/// Whether no number stands in the list twice.
pub(crate) fn are_distinct(written: &[i128]) -> bool
    ensures { result ≡ numbers.are_distinct (numbers.as_naturals written.now) }
{
    for at in 0..written.len() {
        if is_repeated(written, at) {
            return false;
        }
    }
    true
}

/// Distinct numbers below a bound.
pub(crate) fn are_axes_below(bound: usize, written: &[i128]) -> bool
    ensures { result ≡ numbers.are_axes_below bound written.now }
{
    are_below(bound, written) && are_distinct(written)
}

/// Each number below a bound, once.
pub(crate) fn is_permutation(bound: usize, written: &[i128]) -> bool
    ensures { result ≡ numbers.is_permutation bound written.now }
{
    written.len() == bound && are_axes_below(bound, written)
}
