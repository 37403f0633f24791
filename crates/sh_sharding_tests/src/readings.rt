ghost use Rattle.std.specs.Prelude.{◌≡◌, ◌↔◌, IfOk, IsTrue};

use crate::admit_example;
use sh_base::{Duplicate, Items, Same};
use sh_grid::Grid;
use sh_ir::Dim;
use sh_sharding::{
    Dimension, Dimensions, Sharding, compare, dimensions, from_dimensions, grid, halo, is_admitted,
    is_even, local_extent, offset, part_count, rank, same, views_of, without_halos,
};
use std::alloc::Global;
use std::cmp::Ordering;
use std::process::Abort;
use std::test::Fail;

/// Each line an example, and for each dimension its offsets, whether it is even, and its local extent.
const READINGS: &str = "\
2 | 4 | 0 | | = 0 2 4 even 2
4 | 5 | 0 | | = 0 2 4 5 5 uneven ?
2 | 4 | 0 | | 0 1 4 = 0 1 4 uneven ?
2 | 5 | | | = 0 5 uneven 5
4 | 8 | 0 | 1 2 | = 0 2 4 6 8 even 5
2 2 | 3 6 | - / 1 0 | | = 0 3 uneven 3; 0 2 4 6 6 uneven ?";

/// Appends what is read of a dimension.
fn push_reading(line: &mut String, s: &Sharding, dim: u64) -> Result<(), Fail> {
    if dim >= rank(s) {
        return Err("no such dimension")?;
    }
    for part in 0..part_count(s, dim) + 1 {
        let offset = offset(s, dim, part);
        write!(line, "{offset} ")?;
    }
    line.push_str(if is_even(s, dim) { "even " } else { "uneven " })?;
    match local_extent(s, dim) {
        Dim::Known(extent) => write!(line, "{extent}")?,
        Dim::Differs => line.push_str("?")?,
    }
    Ok(())
}

/// What is read of all dimensions.
fn readings(alloc: Global, s: &Sharding) -> Result<String, Fail> {
    let mut found = String::new(alloc);
    for dim in 0..rank(s) {
        if dim > 0 {
            found.push_str("; ")?;
        }
        push_reading(&mut found, s, dim)?;
    }
    Ok(found)
}

fn assert_readings(rt: &impl Abort, alloc: Global, row: &str) -> Result<(), Fail> {
    let (line, want) = row.split_once(" = ").ok_or("no readings")?;
    let sharded = admit_example(alloc, line)?;
    let found = readings(alloc, &sharded.sharding)?;
    assert_eq!(rt; found.as_str(), want, "{row}");
    Ok(())
}

#[test]
fn reads_offsets_evenness_and_local_extents(rt: HostRuntime) -> Result<(), Fail> {
    let alloc = rt.alloc();
    for row in READINGS.lines() {
        assert_readings(&rt, alloc, row)?;
    }
    Ok(())
}

/// Whether a sharding and its copy are the same, and its views are those of an admitted sharding.
fn is_copied(alloc: Global, s: &Sharding) -> Result<bool, Fail> {
    let copy = s.duplicate(alloc)?;
    let views = views_of(s);
    let views = &views[..rank(s) as usize];
    Ok(same(&copy, s) && is_admitted(grid(s), views))
}

/// The halos of a dimension of a sharding without its halos.
fn bare_halo(alloc: Global, s: &Sharding, dim: u64) -> Result<(u64, u64), Fail> {
    let bare = without_halos(alloc, s)?;
    if dim >= rank(&bare) {
        return Err("no such dimension")?;
    }
    Ok(halo(&bare, dim))
}

#[test]
fn copies_and_drops_halos(rt: HostRuntime) -> Result<(), Fail> {
    let alloc = rt.alloc();
    let haloed = admit_example(alloc, "2 2 | 6 6 | 0 / 1 | 1 0 0 2 |")?.sharding;
    assert!(rt; is_copied(alloc, &haloed)?);
    assert_eq!(rt; bare_halo(alloc, &haloed, 0)?, (0, 0));
    assert_eq!(rt; bare_halo(alloc, &haloed, 1)?, (0, 0));
    let plain = admit_example(alloc, "2 2 | 6 6 | 0 / 1 | |")?.sharding;
    assert!(rt; same(&without_halos(alloc, &haloed)?, &plain));
    Ok(())
}

/// Copies of dimensions.
fn copies(alloc: Global, dimensions: &[Dimension]) -> Result<Dimensions, Fail>
    ensures { IfOk result (λ copies. copies ≡ dimensions.now) }
{
    let mut copies = Items::new(alloc);
    for dimension in dimensions {
        copies.push(dimension.duplicate(alloc)?)?;
    }
    Ok(copies)
}

/// A sharding made again from its grid and its dimensions.
fn made_again(alloc: Global, s: &Sharding) -> Result<Sharding, Fail>
    ensures { IfOk result (λ again. again ≡ s.now) }
{
    let _admitted = rank(s);
    let grid = grid(s).duplicate(alloc)?;
    let copies = copies(alloc, dimensions(s))?;
    Ok(from_dimensions(alloc, grid, copies))
}

#[test]
fn makes_a_sharding_from_its_dimensions(rt: HostRuntime) -> Result<(), Fail> {
    let alloc = rt.alloc();
    let uneven = admit_example(alloc, "2 2 | 3 6 | - / 1 | | 0 2 6")?.sharding;
    assert!(rt; same(&made_again(alloc, &uneven)?, &uneven));
    Ok(())
}

/// Each line two examples on one grid, and their order.
const ORDERS: &str = "\
2 2 | 4 | 0 | | ; 2 2 | 4 | 0 | | ; =
2 2 | 4 | 0 | | ; 2 2 | 4 | 1 | | ; <
2 2 | 4 | 1 | | ; 2 2 | 4 | 0 1 | | ; >
2 2 | 4 | 0 | | ; 2 2 | 4 | 0 1 | | ; <
2 2 | 4 | | | ; 2 2 | 4 | 0 | | ; <
2 2 | 5 | 0 | | ; 2 2 | 5 | 0 | | 0 2 5 ; >
2 2 | 5 | 1 | | 0 1 5 ; 2 2 | 5 | 0 | | 0 4 5 ; >
2 2 | 4 4 | 0 / 1 | | ; 2 2 | 4 4 | 0 | | ; >
2 2 | 4 4 | 0 / 1 | | ; 2 2 | 4 4 | 1 / 0 | | ; <";

/// The order of two shardings, which are on one grid where their grids are the same.
fn order(a: &Sharding, b: &Sharding) -> Option<Ordering> {
    if !same_grid(grid(a), grid(b)) {
        return None;
    }
    Some(compare(a, b))
}

fn same_grid(a: &Grid, b: &Grid) -> bool
    ensures { IsTrue result ↔ (a.now ≡ b.now) }
{
    a.same(b)
}

fn assert_order(rt: &impl Abort, alloc: Global, row: &str) -> Result<(), Fail> {
    let (left, rest) = row.split_once(';').ok_or("no second")?;
    let (right, want) = rest.split_once(';').ok_or("no order")?;
    let left = admit_example(alloc, left)?;
    let right = admit_example(alloc, right)?;
    let found = match order(&left.sharding, &right.sharding) {
        Some(Ordering::Less) => "<",
        Some(Ordering::Equal) => "=",
        Some(Ordering::Greater) => ">",
        None => "two grids",
    };
    assert_eq!(rt; found, want.trim(), "{row}");
    Ok(())
}

#[test]
fn orders_by_axes_and_then_by_offsets(rt: HostRuntime) -> Result<(), Fail> {
    let alloc = rt.alloc();
    for row in ORDERS.lines() {
        assert_order(&rt, alloc, row)?;
    }
    Ok(())
}
