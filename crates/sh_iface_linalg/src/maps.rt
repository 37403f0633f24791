//! The loops that the dimensions of an input follow.
ghost use Rattle.std.specs.Prelude.{◌≡◌, ◌<◌, ◌≤◌, get_or, length, nat_eq, slice_get};
ghost use Rattle.std.specs.List.{position_or_len};
ghost use Rattle.sh_ir.specs.Loops.{places_in, unlisted};
ghost use Rattle.sh_ir.specs.Numbers.{as_natural, as_naturals};
ghost use Rattle.sh_ir.specs.Regions.{is_among};
ghost use Rattle.sh_iface_linalg.specs.Reading.{count_unless, loops_in};

/// The loops that the dimensions of an input follow.
#[derive(Clone, Copy)]
pub(crate) enum DimLoops<'a> {
    /// These.
    Listed(&'a [u64]),
    /// Each the loop at the place where its number stands in a list.
    Places(usize, &'a [i128]),
    /// Those below a bound that aren't listed.
    Unlisted(usize, &'a [i128]),
}

/// A written number, as one that isn't negative.
fn natural(number: &i128) -> u128
    ensures { result ≡ as_natural number.now }
{
    let written = *number;
    if written < 0 { 0 } else { written as u128 }
}

fn is_listed(listed: &[i128], number: usize) -> bool
    ensures { result ≡ is_among (as_naturals listed.now) number }
{
    for other in listed {
        if natural(other) == number as u128 {
            return true;
        }
    }
    false
}

/// Where a number stands in a list; its length where it doesn't.
fn place_of(written: &[i128], number: u64) -> usize
    ensures { result ≡ position_or_len (nat_eq number) (as_naturals written.now) }
{
    for (at, other) in written.iter().enumerate() {
        if natural(other) == number as u128 {
            return at;
        }
    }
    written.len()
}

/// The number at a place among those below a bound that aren't listed.
fn unlisted_at(bound: usize, listed: &[i128], at: u64) -> Option<u64>
    ensures { result ≡ slice_get (unlisted bound (as_naturals listed.now)) at }
{
    let mut before = at;
    for number in 0..bound {
        if is_listed(listed, number) {
            continue;
        }
        if before == 0 {
            return Some(number as u64);
        }
        before = before - 1;
    }
    None
}

/// One where a number isn't listed, and else none.
fn count_one(listed: &[i128], number: usize) -> u64
    ensures value { result ≡ count_unless (is_among (as_naturals listed.now) number) }
    ensures few { result ≤ 1 }
{
    if is_listed(listed, number) { 0 } else { 1 }
}

/// How many numbers below a bound aren't listed.
fn unlisted_count(bound: usize, listed: &[i128]) -> u64
    ensures { result ≡ length (unlisted bound (as_naturals listed.now)) }
{
    let mut count = 0;
    for number in 0..bound {
        count = count + count_one(listed, number);
    }
    count
}

impl DimLoops<'_> {
    /// How many dimensions there are.
    pub(crate) fn count(&self) -> u64
        ensures { result ≡ length (loops_in self.now) }
    {
        match self {
            DimLoops::Listed(loops) => loops.len() as u64,
            DimLoops::Places(rank, _) => *rank as u64,
            DimLoops::Unlisted(bound, listed) => unlisted_count(*bound, listed),
        }
    }

    /// The loop that a dimension follows.
    pub(crate) fn at(&self, dim: u64) -> u64
        requires { dim < length (loops_in self.now) }
        ensures { result ≡ get_or (loops_in self.now) dim 0 }
    {
        match self {
            DimLoops::Listed(loops) => loops.get(dim as usize).copied().unwrap_or(0),
            DimLoops::Places(_, written) => place_of(written, dim) as u64,
            DimLoops::Unlisted(bound, listed) => unlisted_at(*bound, listed, dim).unwrap_or(0),
        }
    }
}
