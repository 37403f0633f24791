ghost use Rattle.std.specs.Prelude.{◌≡◌, ◌<◌, ◌≤◌, ◌≢◌, length, IfSome, IfNone};
ghost use Rattle.sh_base.specs.Shape.{cell_count, max_cells, max_rank, IsIndexOf, flat_of, unflat_of};

use smallvec::SmallVec;
use std::alloc::Global;
use std::marker::Model;

/// The greatest rank of a tensor.
pub const MAX_RANK: usize = 6;

/// The greatest number of cells of a tensor.
pub const MAX_CELLS: u64 = 1_048_576;

/// The extents of a tensor, at most six, kept inline.
#[derive(Debug, Drop)]
pub struct Shape {
    pub(crate) extents: SmallVec<u64, 6>,
}

impl Model for Shape {
    ghost use Rattle.std.specs.Prelude.{List, ℕ, ◌≤◌, length};
    ghost use Rattle.sh_base.specs.Shape.{max_rank};

    ghost Value = { List ℕ };

    ghost view = { λ s. s.extents.items };

    ghost invariant = { λ s. length s.extents.items ≤ max_rank };
}

impl Shape {
    pub fn extents(&self) -> &[u64]
        ensures value { result.now ≡ self.now }
        ensures short { length self.now ≤ max_rank }
    {
        self.extents.as_slice()
    }
}

/// How many cells a tensor of this shape has, unless they are too many.
pub fn count(s: &Shape) -> Option<u64>
    ensures some { IfSome result (λ n. (n ≡ cell_count s.now) × (n ≤ max_cells)) }
    ensures none { IfNone result (max_cells < cell_count s.now) }
{
    let mut total: u128 = 1;
    for extent in s.extents() {
        // A product that is too large stays so, unless a later extent is 0.
        total = (total * u128::from(*extent)).min(u128::from(MAX_CELLS) + 1);
    }
    if total > u128::from(MAX_CELLS) {
        return None;
    }
    Some(total as u64)
}

/// The row-major number of an index.
pub fn flat(s: &Shape, i: &Shape) -> u64
    requires within { IsIndexOf s.now i.now }
    requires small { cell_count s.now ≤ max_cells }
    ensures value { result ≡ flat_of s.now i.now }
    ensures below { result < cell_count s.now }
    ensures inverse { unflat_of s.now result ≡ i.now }
{
    let places = i.extents();
    let mut number = 0;
    for (at, extent) in s.extents().iter().enumerate() {
        number = number * *extent + places[at];
    }
    number
}

/// The index with this row-major number.
pub fn unflat(alloc: Global, s: &Shape, k: u64) -> Shape
    requires below { k < cell_count s.now }
    requires small { cell_count s.now ≤ max_cells }
    ensures value { result ≡ unflat_of s.now k }
    ensures within { IsIndexOf s.now result }
    ensures inverse { flat_of s.now result ≡ k }
{
    let mut places = SmallVec::new(alloc);
    let mut stride = count(s).unwrap();
    let mut rest = k;
    for extent in s.extents() {
        stride /= *extent;
        places.push_reserved(rest / stride);
        rest %= stride;
    }
    Shape { extents: places }
}

#[cfg(test)]
mod tests {
    use crate::{Rule, Same, count, flat, shape, unflat};

    #[test]
    fn counts_up_to_the_limit(rt: HostRuntime) {
        let alloc = rt.alloc();
        let cases: [(&[u64], Option<u64>); 10] = [
            (&[], Some(1)),
            (&[7], Some(7)),
            (&[1024, 1024], Some(1_048_576)),
            (&[1_048_576], Some(1_048_576)),
            (&[1_048_577], None),
            (&[1024, 1025], None),
            (&[1, 1, 1, 1, 1, 1], Some(1)),
            (&[4_294_967_296, 4_294_967_296, 0], Some(0)),
            (&[0, 18_446_744_073_709_551_615, 2], Some(0)),
            (
                &[18_446_744_073_709_551_615, 18_446_744_073_709_551_615],
                None,
            ),
        ];
        for (extents, want) in cases {
            assert!(rt; extents.len() <= 6);
            assert_eq!(rt; count(&shape(alloc, extents)), want, "at {extents:?}");
        }
    }

    #[test]
    fn the_last_dimension_is_innermost(rt: HostRuntime) {
        let alloc = rt.alloc();
        let box_shape = shape(alloc, &[2, 3, 4]);
        let index = unflat(alloc, &box_shape, 23);
        assert!(rt; index.same(&shape(alloc, &[1, 2, 3])));
        let index = unflat(alloc, &box_shape, 6);
        assert!(rt; index.same(&shape(alloc, &[0, 1, 2])));
        assert_eq!(rt; flat(&box_shape, &index), 6);
        let scalar = shape(alloc, &[]);
        assert_eq!(rt; flat(&scalar, &unflat(alloc, &scalar, 0)), 0);
    }

    #[test]
    fn codes_are_those_of_error_lines(rt: HostRuntime) {
        assert_eq!(rt; Rule::B1.code(), "B1");
        assert_eq!(rt; Rule::A10.code(), "A10");
        assert_eq!(rt; Rule::K4.code(), "K4");
    }
}
