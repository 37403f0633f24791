use crate::admit_example;
use sh_grid::Grid;
use sh_sharding::{
    DimensionView, Listing, MarkView, Sharding, dimensions, grid, is_admitted, is_even_view, rank,
    unsplit_view, view, views_of,
};
use std::alloc::Global;
use std::process::Abort;
use std::test::Fail;

/// Each line an example, and what the view of its first dimension says.
const VIEWS: &str = "\
2 | 4 | 0 | | = 4 balanced 0 0
4 | 5 | 0 | | = 5 balanced 0 0
2 | 4 | 0 | | 0 1 4 = 4 listed 3 0 0
2 | 4 | 0 | | 0 2 4 = 4 balanced 0 0
2 | 5 | | | = 5 balanced 0 0
4 | 8 | 0 | 1 2 | = 8 balanced 1 2";

/// What a view says: the extent, the mark with the number of listed offsets, and the halos.
fn shown(alloc: Global, view: &DimensionView<'_>) -> Result<String, Fail> {
    let DimensionView {
        extent,
        low,
        high,
        ..
    } = view;
    let mut line = String::new(alloc);
    write!(line, "{extent} ")?;
    match view.mark {
        MarkView::Balanced => line.push_str("balanced")?,
        MarkView::Listed(Listing::Offsets(offsets)) => write!(line, "listed {}", offsets.len())?,
        MarkView::Listed(_) => line.push_str("scaled")?,
    }
    write!(line, " {low} {high}")?;
    Ok(line)
}

/// What the view of the first dimension of a sharding says.
fn first_view(alloc: Global, s: &Sharding) -> Result<String, Fail> {
    let first = dimensions(s).first().ok_or("no dimension")?;
    shown(alloc, &view(first))
}

fn assert_view(rt: &impl Abort, alloc: Global, row: &str) -> Result<(), Fail> {
    let (line, want) = row.split_once(" = ").ok_or("no view")?;
    let sharded = admit_example(alloc, line)?;
    let found = first_view(alloc, &sharded.sharding)?;
    assert_eq!(rt; found.as_str(), want, "{row}");
    Ok(())
}

#[test]
fn views_a_dimension_with_its_mark_and_halos(rt: HostRuntime) -> Result<(), Fail> {
    let alloc = rt.alloc();
    for row in VIEWS.lines() {
        assert_view(&rt, alloc, row)?;
    }
    Ok(())
}

/// Each line an example, and whether the view of its first dimension is even.
const EVEN: &str = "\
2 | 4 | 0 | | = even
4 | 5 | 0 | | = uneven
2 | 4 | 0 | | 0 1 4 = uneven
2 | 4 | 0 | | 0 2 4 = even
2 | 4 | | | = uneven";

/// Whether the first dimension of a sharding is even, by its view.
fn is_first_even(s: &Sharding) -> bool {
    rank(s) > 0 && is_even_view(grid(s), &views_of(s)[0])
}

fn assert_even(rt: &impl Abort, alloc: Global, row: &str) -> Result<(), Fail> {
    let (line, want) = row.split_once(" = ").ok_or("no evenness")?;
    let sharded = admit_example(alloc, line)?;
    let found = if is_first_even(&sharded.sharding) {
        "even"
    } else {
        "uneven"
    };
    assert_eq!(rt; found, want, "{row}");
    Ok(())
}

#[test]
fn tells_even_views(rt: HostRuntime) -> Result<(), Fail> {
    let alloc = rt.alloc();
    for row in EVEN.lines() {
        assert_even(&rt, alloc, row)?;
    }
    Ok(())
}

/// Whether a tensor of one dimension that isn't split has an admitted sharding.
fn is_unsplit_admitted(g: &Grid, extent: u64) -> bool {
    is_admitted(g, &[unsplit_view(extent)])
}

#[test]
fn describes_a_dimension_that_is_not_split(rt: HostRuntime) -> Result<(), Fail> {
    let alloc = rt.alloc();
    let sharded = admit_example(alloc, "2 | 4 | 0 | |")?;
    assert_eq!(rt; shown(alloc, &unsplit_view(7))?.as_str(), "7 balanced 0 0");
    assert!(rt; is_unsplit_admitted(&sharded.grid, 1_048_576));
    assert!(rt; !is_unsplit_admitted(&sharded.grid, 1_048_577));
    Ok(())
}
