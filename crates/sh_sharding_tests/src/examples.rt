ghost use Rattle.std.specs.Prelude.{◌≡◌, ◌≤◌, IfOk, IsTrue};
ghost use Rattle.sh_base.specs.Shape.{max_cells};
ghost use Rattle.sh_sharding.specs.Sharding.{counted_cells};

use crate::Unread;
use sh_base::{AxisLists, Items, MAX_RANK, Numbers, Shape, count, shape};
use sh_grid::{Grid, make};
use sh_ir::RawSharding;
use sh_ir_tests::text;
use sh_sharding::{AdmitRefusal, Sharding, admit};
use std::alloc::Global;

/// A written sharding for a tensor of a shape on a grid.
#[derive(Drop)]
pub struct Example {
    pub grid: Grid,
    pub shape: Shape,
    pub written: RawSharding,
}

/// Numbers between blanks; `-` stands for none.
fn numbers(alloc: Global, line: &str) -> Result<Numbers, Unread> {
    let mut found = Items::new(alloc);
    for word in line.split_whitespace() {
        if word != "-" {
            found.push(word.parse::<i128>().ok().ok_or(Unread::Text("no number"))?)?;
        }
    }
    Ok(found)
}

/// Extents between blanks, at most six.
fn extents(alloc: Global, line: &str) -> Result<Shape, Unread> {
    let mut found = Vec::new(alloc);
    for word in line.split_whitespace() {
        found.push(word.parse::<u64>().ok().ok_or(Unread::Text("no extent"))?)?;
    }
    if found.len() > MAX_RANK {
        return Err(Unread::Text("more than six extents"));
    }
    Ok(shape(alloc, found.as_slice()))
}

/// Lists of axes between `/`.
fn lists(alloc: Global, line: &str) -> Result<AxisLists, Unread> {
    let mut found = Items::new(alloc);
    if line.trim().is_empty() {
        return Ok(found);
    }
    for list in line.split('/') {
        found.push(numbers(alloc, list)?)?;
    }
    Ok(found)
}

/// Whether a shape has at most 1,048,576 cells, an extent of 0 being counted as 1.
fn is_small(alloc: Global, s: &Shape) -> Result<bool, Unread>
    ensures { IfOk result (λ small. IsTrue small → counted_cells s.now ≤ max_cells) }
{
    let mut counted = Vec::new(alloc);
    for extent in s.extents() {
        counted.push((*extent).max(1))?;
    }
    Ok(count(&shape(alloc, counted.as_slice())).is_some())
}

/// The example in a line: the grid's extents, the shape, the lists of axes, the halo sizes and the
/// offsets, with a bar between each two.
pub fn read_example(alloc: Global, line: &str) -> Result<Example, Unread>
    ensures named { IfOk result (λ example. example.written.grid ≡ example.grid.name) }
    ensures small { IfOk result (λ example. counted_cells example.shape ≤ max_cells) }
{
    let (grid, rest) = line.split_once('|').ok_or(Unread::Text("no shape"))?;
    let (whole, rest) = rest.split_once('|').ok_or(Unread::Text("no lists"))?;
    let (split, rest) = rest.split_once('|').ok_or(Unread::Text("no halos"))?;
    let (halos, offsets) = rest.split_once('|').ok_or(Unread::Text("no offsets"))?;
    let grid = make(text(alloc, b"devices")?, extents(alloc, grid)?).ok_or(Unread::Text(
        "no grid",
    ))?;
    let whole = extents(alloc, whole)?;
    if !is_small(alloc, &whole)? {
        return Err(Unread::Text("too many cells"));
    }
    let written = RawSharding {
        grid: text(alloc, b"devices")?,
        split: lists(alloc, split)?,
        halos: numbers(alloc, halos)?,
        offsets: numbers(alloc, offsets)?,
    };
    Ok(Example {
        grid,
        shape: whole,
        written,
    })
}

/// A sharding with its grid.
#[derive(Drop)]
pub struct Sharded {
    pub grid: Grid,
    pub sharding: Sharding,
}

/// The sharding of an example that is admitted.
pub fn admit_example(alloc: Global, line: &str) -> Result<Sharded, Unread>
    ensures { IfOk result (λ sharded. sharded.sharding.grid ≡ sharded.grid) }
{
    let example = read_example(alloc, line)?;
    match admit(alloc, &example.grid, &example.written, &example.shape) {
        Ok(sharding) => Ok(Sharded {
            grid: example.grid,
            sharding,
        }),
        Err(AdmitRefusal::Broken(rule)) => Err(Unread::Text(rule.code())),
        Err(AdmitRefusal::Mem) => Err(Unread::Mem),
    }
}
