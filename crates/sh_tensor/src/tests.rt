ghost use Rattle.std.specs.Prelude.{◌≡◌, ◌+◌, ◌^◌, ◌<◌, ◌≤◌, [], ◌∷◌, IfOk, length, set, slice_index};
ghost use Rattle.sh_base.specs.Shape.{cell_count, max_cells};
ghost use Rattle.sh_tensor.specs.Tensor.{IsLike, joined_extent, joined_shape};

use crate::{Tensor, build, concat, copy, reshape, slice};
use sh_base::{Cell, Duplicate, Width, count, shape, unflat};
use std::alloc::Global;
use std::test::Fail;

// The tensor of these extents whose cells count up from 0.
fn counting(alloc: Global, extents: &[u64]) -> Result<Tensor, Fail>
    requires few { length extents.now ≤ 6 }
    requires small { cell_count extents.now ≤ max_cells }
    ensures shape { IfOk result (λ t. t.shape ≡ extents.now) }
    ensures width { IfOk result (λ t. t.width ≡ Width.I64) }
{
    let shape = shape(alloc, extents);
    let total = count(&shape).unwrap();
    let mut cells = Vec::with_capacity(alloc, total as usize)?;
    for number in 0..total {
        cells.push(Cell::Val(number))?;
    }
    Ok(build(shape, Width::I64, cells))
}

// The numbers in a tensor's cells.
fn numbers(alloc: Global, t: &Tensor) -> Result<Vec<u64>, Fail> {
    let mut found = Vec::new(alloc);
    for cell in t.cells() {
        match *cell {
            Cell::Val(number) => found.push(number)?,
            Cell::Undef => return Err("an undefined cell".into()),
        }
    }
    Ok(found)
}

fn sliced(
    alloc: Global,
    extents: &[u64],
    axis: u64,
    start: u64,
    size: u64,
) -> Result<Vec<u64>, Fail>
    requires few { length extents.now ≤ 6 }
    requires small { cell_count extents.now ≤ max_cells }
    requires axis { axis < length extents.now }
    requires within { start + size ≤ slice_index extents.now axis }
{
    let whole = counting(alloc, extents)?;
    let part = slice(alloc, &whole, axis, start, size)?;
    numbers(alloc, &part)
}

// Two tensors joined.
fn pair(alloc: Global, first: Tensor, second: Tensor, axis: u64) -> Result<Tensor, Fail>
    requires axis { axis < length first.shape }
    requires alike { IsLike axis first second }
    requires extent { joined_extent axis (first ∷ second ∷ []) < 2 ^ 64 }
    requires small { cell_count (joined_shape axis (first ∷ second ∷ [])) ≤ max_cells }
{
    let mut parts = Vec::with_capacity(alloc, 2)?;
    parts.push(first)?;
    parts.push(second)?;
    Ok(concat(alloc, &parts, axis)?)
}

fn joined(alloc: Global, first: &[u64], second: &[u64], axis: u64) -> Result<Vec<u64>, Fail>
    requires few { length first.now ≤ 6 }
    requires few_too { length second.now ≤ 6 }
    requires small { cell_count first.now ≤ max_cells }
    requires small_too { cell_count second.now ≤ max_cells }
    requires axis { axis < length first.now }
    requires axis_too { axis < length second.now }
    requires alike { set second.now axis 0 ≡ set first.now axis 0 }
    requires extent { slice_index first.now axis + (slice_index second.now axis + 0) < 2 ^ 64 }
    requires whole { cell_count (set first.now axis (slice_index first.now axis + (slice_index second.now axis + 0))) ≤ max_cells }
{
    let left = counting(alloc, first)?;
    let right = counting(alloc, second)?;
    let whole = pair(alloc, left, right, axis)?;
    numbers(alloc, &whole)
}

// Whether a tensor that is cut in two along an axis and joined again is what it was.
fn is_rejoined(alloc: Global, extents: &[u64], axis: u64, at: u64) -> Result<bool, Fail>
    requires few { length extents.now ≤ 6 }
    requires small { cell_count extents.now ≤ max_cells }
    requires axis { axis < length extents.now }
    requires within { at ≤ slice_index extents.now axis }
{
    let whole = counting(alloc, extents)?;
    let left = slice(alloc, &whole, axis, 0, at)?;
    let right = slice(alloc, &whole, axis, at, extents[axis as usize] - at)?;
    let again = pair(alloc, left, right, axis)?;
    Ok(again.cells() == whole.cells() && again.shape().extents() == extents)
}

#[test]
fn slices_of_rank_one_to_three(rt: HostRuntime) -> Result<(), Fail> {
    let alloc = rt.alloc();
    assert_eq!(rt;
        sliced(alloc, &[6], 0, 2, 3)?.as_slice(),
        [2, 3, 4].as_slice()
    );
    assert_eq!(rt;
        sliced(alloc, &[2, 3], 1, 1, 2)?.as_slice(),
        [1, 2, 4, 5].as_slice()
    );
    assert_eq!(rt;
        sliced(alloc, &[2, 3, 4], 1, 1, 1)?.as_slice(),
        [4, 5, 6, 7, 16, 17, 18, 19].as_slice()
    );
    assert_eq!(rt;
        sliced(alloc, &[2, 3, 4], 2, 3, 1)?.as_slice(),
        [3, 7, 11, 15, 19, 23].as_slice()
    );
    Ok(())
}

#[test]
fn slices_without_cells(rt: HostRuntime) -> Result<(), Fail> {
    let alloc = rt.alloc();
    assert!(rt; sliced(alloc, &[2, 3, 4], 1, 3, 0)?.is_empty());
    assert!(rt; sliced(alloc, &[0], 0, 0, 0)?.is_empty());
    assert!(rt;
        sliced(
            alloc,
            &[18_446_744_073_709_551_615, 0, 18_446_744_073_709_551_615],
            0,
            7,
            9
        )?
        .is_empty()
    );
    Ok(())
}

#[test]
fn joins_keep_the_order(rt: HostRuntime) -> Result<(), Fail> {
    let alloc = rt.alloc();
    assert_eq!(rt;
        joined(alloc, &[2], &[3], 0)?.as_slice(),
        [0, 1, 0, 1, 2].as_slice()
    );
    assert_eq!(rt;
        joined(alloc, &[2, 2], &[2, 1], 1)?.as_slice(),
        [0, 1, 0, 2, 3, 1].as_slice()
    );
    assert_eq!(rt;
        joined(alloc, &[1, 2], &[0, 2], 0)?.as_slice(),
        [0, 1].as_slice()
    );
    assert_eq!(rt;
        joined(alloc, &[2, 1, 2], &[2, 2, 2], 1)?.as_slice(),
        [0, 1, 0, 1, 2, 3, 2, 3, 4, 5, 6, 7].as_slice()
    );
    Ok(())
}

#[test]
fn copies_and_reshapes(rt: HostRuntime) -> Result<(), Fail> {
    let alloc = rt.alloc();
    let tensor = counting(alloc, &[2, 3])?;
    let copied = copy(alloc, &tensor)?;
    assert_eq!(rt; copied.width(), Width::I64);
    assert!(rt; copied.cells() == tensor.cells() && copied.shape().extents() == [2, 3].as_slice());
    let turned = reshape(copied.duplicate(alloc)?, shape(alloc, &[3, 2]));
    assert_eq!(rt; turned.shape().extents(), [3, 2].as_slice());
    assert_eq!(rt; turned.at(&shape(alloc, &[2, 0])), Cell::Val(4));
    Ok(())
}

#[test]
fn a_million_cells(rt: HostRuntime) -> Result<(), Fail> {
    let alloc = rt.alloc();
    assert!(rt; is_rejoined(alloc, &[64, 128, 128], 0, 21)?);
    assert!(rt; is_rejoined(alloc, &[64, 128, 128], 1, 77)?);
    assert!(rt; is_rejoined(alloc, &[64, 128, 128], 2, 127)?);
    Ok(())
}
