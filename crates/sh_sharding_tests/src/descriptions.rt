ghost use Rattle.std.specs.Prelude.{IfOk, length, ◌≤◌};
ghost use Rattle.sh_base.specs.Shape.{max_rank};

use crate::Unread;
use sh_base::{Items, MAX_RANK, Numbers, shape};
use sh_grid::{Grid, make};
use sh_ir_tests::text;
use sh_sharding::{AxisList, DimensionView, Listing, MarkView, is_admitted};
use std::alloc::Global;
use std::process::Abort;
use std::test::Fail;

/// Each line a description of one dimension, and whether it is that of an admitted sharding: the grid's
/// extents, the extent and the two halos, the axes, a factor, and the offsets (`-` where none are listed).
const DESCRIPTIONS: &str = "\
2 | 5 0 0 | 0 | 1 | - = yes
2 | 5 0 0 | 0 | 1 | 0 2 5 = yes
2 | 5 2 1 | 0 | 1 | 0 3 5 = yes
2 | 5 1 1 | 0 | 1 | 0 2 5 = no
2 | 10 0 0 | 0 | 2 | 0 2 5 = yes
2 | 10 0 0 | 0 | 2 | 0 2 4 = no
2 | 0 0 0 | 0 | 0 | 0 7 9 = yes
2 | 5 0 0 | 0 | 1 | 0 6 5 = no
2 | 5 0 0 | 0 | 1 | 0 -1 5 = no
2 | 5 0 0 | 0 | 1 | = no
2 | 6 3 3 | 0 | 1 | - = yes
2 | 6 4 0 | 0 | 1 | - = no
2 | 6 0 0 | | 1 | - = yes
2 | 6 1 0 | | 1 | - = no
2 | 6 0 0 | | 1 | 0 6 = yes
2 | 6 0 0 | 1 | 1 | - = no
2 2 | 8 2 2 | 1 0 | 1 | - = yes
2 2 | 8 0 0 | 0 0 | 1 | - = no
1 | 1048576 0 0 | 0 | 1 | - = yes
1 | 1048577 0 0 | 0 | 1 | - = no
1 | 1048576 1 0 | 0 | 1 | - = no";

/// Numbers between blanks.
fn numbers(alloc: Global, line: &str) -> Result<Numbers, Unread> {
    let mut found = Items::new(alloc);
    for word in line.split_whitespace() {
        found.push(word.parse::<i128>().ok().ok_or(Unread::Text("no number"))?)?;
    }
    Ok(found)
}

/// Whole numbers between blanks, at most six.
fn naturals(alloc: Global, line: &str) -> Result<Vec<u64>, Unread>
    ensures { IfOk result (λ found. length found.items ≤ max_rank) }
{
    let mut found = Vec::new(alloc);
    for word in line.split_whitespace() {
        found.push(word.parse::<u64>().ok().ok_or(Unread::Text("no number"))?)?;
    }
    if found.len() > MAX_RANK {
        return Err(Unread::Text("more than six numbers"));
    }
    Ok(found)
}

/// The grid of these extents.
fn grid_of(alloc: Global, line: &str) -> Result<Grid, Unread> {
    let extents = naturals(alloc, line)?;
    make(text(alloc, b"devices")?, shape(alloc, extents.as_slice())).ok_or(Unread::Text("no grid"))
}

/// Whether a dimension with these numbers is admitted: the extent and the two halos, and the axes.
fn is_described(
    alloc: Global,
    g: &Grid,
    sizes: &str,
    axes: &str,
    mark: MarkView<'_>,
) -> Result<bool, Unread> {
    let sizes = naturals(alloc, sizes)?;
    let axes = naturals(alloc, axes)?;
    if sizes.len() != 3 {
        return Err(Unread::Text("no extent and halos"));
    }
    let view = DimensionView {
        extent: sizes[0],
        axes: AxisList::new(axes.as_slice()),
        mark,
        low: sizes[1],
        high: sizes[2],
    };
    Ok(is_admitted(g, &[view]))
}

/// Whether the description in a line is admitted.
fn is_admitted_line(alloc: Global, line: &str) -> Result<bool, Unread> {
    let (extents, rest) = line.split_once('|').ok_or(Unread::Text("no sizes"))?;
    let (sizes, rest) = rest.split_once('|').ok_or(Unread::Text("no axes"))?;
    let (axes, rest) = rest.split_once('|').ok_or(Unread::Text("no factor"))?;
    let (factor, offsets) = rest.split_once('|').ok_or(Unread::Text("no offsets"))?;
    let grid = grid_of(alloc, extents)?;
    if offsets.trim() == "-" {
        return is_described(alloc, &grid, sizes, axes, MarkView::Balanced);
    }
    let factor = factor
        .trim()
        .parse::<u64>()
        .ok()
        .ok_or(Unread::Text("no factor"))?;
    let offsets = numbers(alloc, offsets)?;
    let mark = MarkView::Listed(Listing::Scaled(offsets.as_slice(), factor));
    is_described(alloc, &grid, sizes, axes, mark)
}

fn assert_admitted(rt: &impl Abort, alloc: Global, row: &str) -> Result<(), Fail> {
    let (line, want) = row.split_once(" =").ok_or("no answer")?;
    let found = is_admitted_line(alloc, line)?;
    assert_eq!(rt; found, want.trim() == "yes", "{row}");
    Ok(())
}

#[test]
fn admits_descriptions_of_admitted_shardings(rt: HostRuntime) -> Result<(), Fail> {
    let alloc = rt.alloc();
    for row in DESCRIPTIONS.lines() {
        assert_admitted(&rt, alloc, row)?;
    }
    Ok(())
}
