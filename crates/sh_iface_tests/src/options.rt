use sh_base::{Items, MAX_RANK, Numbers, Shape, shape};
use sh_grid::{Grid, make};
use sh_iface::{LoopOption, Split};
use sh_ir_tests::text;
use std::alloc::Global;
use std::test::Fail;

/// Numbers between blanks.
fn numbers(alloc: Global, line: &str) -> Result<Numbers, Fail> {
    let mut found = Items::new(alloc);
    for word in line.split_whitespace() {
        found.push(word.parse::<i128>().ok().ok_or("no number")?)?;
    }
    Ok(found)
}

/// Extents or axes between blanks, at most six.
fn extents(alloc: Global, line: &str) -> Result<Shape, Fail> {
    let mut found = Vec::new(alloc);
    for word in line.split_whitespace() {
        found.push(word.parse::<u64>().ok().ok_or("no extent")?)?;
    }
    if found.len() > MAX_RANK {
        return Err("more than six extents")?;
    }
    Ok(shape(alloc, found.as_slice()))
}

/// A loop's split: its axes and its starts with a colon between them, or `-` for none.
fn split(alloc: Global, line: &str) -> Result<Option<Split>, Fail> {
    let Some((axes, starts)) = line.split_once(':') else {
        return Ok(None);
    };
    let axes = extents(alloc, axes)?;
    let starts = numbers(alloc, starts)?;
    Ok(Some(Split { axes, starts }))
}

/// An option: the splits of the loops, with `/` between each two.
pub fn read_option(alloc: Global, line: &str) -> Result<LoopOption, Fail> {
    let mut found = Items::new(alloc);
    for one in line.split('/') {
        found.push(split(alloc, one)?)?;
    }
    Ok(found)
}

/// A grid of these extents.
pub fn read_grid(alloc: Global, line: &str) -> Result<Grid, Fail> {
    let extents = extents(alloc, line)?;
    Ok(make(text(alloc, b"devices")?, extents).ok_or("no grid")?)
}
