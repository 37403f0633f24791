ghost use Rattle.std.specs.Prelude.{◌≡◌};
ghost use Rattle.sh_sharding.specs.Sharding.{whole_of};
ghost use Rattle.sh_sharding.specs.Together.{AreParts};

use crate::{admit_example, all_cuts, counting, parts_with};
use sh_base::Cell;
use sh_grid::{Grid, devices};
use sh_sharding::{Put, Sharding, axes, halo, put_together, size, start, whole};
use sh_tensor::Tensor;
use std::alloc::Global;
use std::process::Abort;
use std::test::Fail;

/// Appends the extents and the cells of a tensor; `_` is an undefined one.
fn push_shown(line: &mut String, t: &Tensor) -> Result<(), Fail> {
    for extent in t.shape().extents() {
        write!(line, "{extent} ")?;
    }
    line.push_str(":")?;
    for cell in t.cells() {
        match cell {
            Cell::Val(number) => write!(line, " {number}")?,
            Cell::Undef => line.push_str(" _")?,
        }
    }
    Ok(())
}

/// Tensors, with `/` between each two.
fn shown(alloc: Global, tensors: &[Tensor]) -> Result<String, Fail> {
    let mut line = String::new(alloc);
    for (at, tensor) in tensors.iter().enumerate() {
        if at > 0 {
            line.push_str(" / ")?;
        }
        push_shown(&mut line, tensor)?;
    }
    Ok(line)
}

/// What parts are put together to: the tensor, or where two owners differ.
fn together(alloc: Global, parts: &Vec<Tensor>, s: &Sharding, g: &Grid) -> Result<String, Fail>
    requires grid { s.now.grid ≡ g.now }
    requires parts { AreParts s.now parts.now.items }
{
    let mut line = String::new(alloc);
    match put_together(alloc, parts, s, g) {
        Ok(tensor) => push_shown(&mut line, &tensor)?,
        Err(Put::Differ { device, cell }) => write!(line, "device {device}, cell {cell}")?,
        Err(Put::Mem) => return Err("no memory")?,
    }
    Ok(line)
}

/// Each line an example, and the local tensor of each device, cut from the tensor that counts up from 0.
const CUTS: &str = "\
2 2 | 4 | 1 0 | | = 1 : 0 / 1 : 2 / 1 : 1 / 1 : 3
2 2 | 4 | 0 1 | | = 1 : 0 / 1 : 1 / 1 : 2 / 1 : 3
2 2 | 4 | 1 | | = 2 : 0 1 / 2 : 2 3 / 2 : 0 1 / 2 : 2 3
2 2 | 2 4 | 0 / 1 | | = 1 2 : 0 1 / 1 2 : 2 3 / 1 2 : 4 5 / 1 2 : 6 7
2 | 3 | | | = 3 : 0 1 2 / 3 : 0 1 2
2 | | | | = : 0 / : 0
4 | 8 | 0 | 1 1 | = 4 : _ 0 1 2 / 4 : 1 2 3 4 / 4 : 3 4 5 6 / 4 : 5 6 7 _
2 | 4 | 0 | 0 2 | = 4 : 0 1 2 3 / 4 : 2 3 _ _
2 2 | 4 4 | 0 / 1 | 1 0 0 1 | = 3 3 : _ _ _ 0 1 2 4 5 6 / 3 3 : _ _ _ 2 3 _ 6 7 _ / 3 3 : 4 5 6 8 9 10 12 13 14 / 3 3 : 6 7 _ 10 11 _ 14 15 _
4 | 5 | 0 | | = 2 : 0 1 / 2 : 2 3 / 1 : 4 / 0 :
2 | 5 | 0 | 1 2 | = 6 : _ 0 1 2 3 4 / 5 : 2 3 4 _ _
4 | 14 | 0 | | 0 2 5 9 14 = 2 : 0 1 / 3 : 2 3 4 / 4 : 5 6 7 8 / 5 : 9 10 11 12 13
3 | 4 | 0 | | 0 2 2 4 = 2 : 0 1 / 0 : / 2 : 2 3
3 | 4 | 0 | | 0 0 0 4 = 0 : / 0 : / 4 : 0 1 2 3
2 | 0 3 | 0 | | = 0 3 : / 0 3 :
2 | 2 3 | - / 0 | | 0 1 3 = 2 1 : 0 3 / 2 2 : 1 2 4 5";

/// The cuts of the tensor that counts up from 0, what they are put together to, and the tensor.
#[derive(Drop)]
struct CutLines {
    cuts: String,
    together: String,
    whole: String,
}

fn cut_lines(alloc: Global, t: &Tensor, s: &Sharding, g: &Grid) -> Result<CutLines, Fail>
    requires grid { s.now.grid ≡ g.now }
    requires shape { t.now.shape ≡ whole_of s.now }
{
    let parts = all_cuts(alloc, t, s, g)?;
    let cuts = shown(alloc, parts.as_slice())?;
    let together = together(alloc, &parts, s, g)?;
    let mut whole = String::new(alloc);
    push_shown(&mut whole, t)?;
    Ok(CutLines {
        cuts,
        together,
        whole,
    })
}

/// Cuts the example of a line, and puts the cuts together again.
fn cut_again(alloc: Global, line: &str) -> Result<CutLines, Fail> {
    let sharded = admit_example(alloc, line)?;
    let tensor = counting(alloc, whole(&sharded.sharding))?;
    cut_lines(alloc, &tensor, &sharded.sharding, &sharded.grid)
}

fn assert_cuts(rt: &impl Abort, alloc: Global, row: &str) -> Result<(), Fail> {
    let (line, want) = row.split_once(" = ").ok_or("no parts")?;
    let found = cut_again(alloc, line)?;
    assert_eq!(rt; found.cuts.as_str(), want, "{row}");
    assert_eq!(rt; found.together.as_str(), found.whole.as_str(), "{row}");
    Ok(())
}

#[test]
fn cuts_and_puts_together_again(rt: HostRuntime) -> Result<(), Fail> {
    let alloc = rt.alloc();
    for row in CUTS.lines() {
        assert_cuts(&rt, alloc, row)?;
    }
    Ok(())
}

/// Each line an example, the cells of each device, and what they are put together to.
const PARTS: &str = "\
2 | 3 | | | = 4 5 6 / 4 5 6 = 3 : 4 5 6
2 | 3 | | | = 0 1 2 / 0 9 8 = device 1, cell 1
2 2 | 4 | 0 | | = 0 1 / 0 1 / 2 3 / 2 9 = device 3, cell 3
2 2 | 4 | 0 | | = 0 1 / 0 7 / 2 3 / 9 9 = device 1, cell 1
2 2 | 4 | 1 | | = 0 1 / 2 3 / 0 1 / 9 3 = device 3, cell 2
4 | 2 | | | = 5 6 / 5 7 / 8 6 / 5 6 = device 2, cell 0
4 | 2 | | | = 5 6 / 5 7 / 5 8 / 5 6 = device 1, cell 1
4 | 2 | | | = 5 6 / 5 6 / 5 6 / 5 6 = 2 : 5 6
4 | 8 | 0 | 1 1 | = 9 0 1 9 / 9 2 3 9 / 9 4 5 9 / 9 6 7 9 = 8 : 0 1 2 3 4 5 6 7
2 | 2 | | | = 0 _ / 0 _ = 2 : 0 _
2 | 2 | | | = 0 _ / 0 1 = device 1, cell 1
3 | 4 | 0 | | 0 2 2 4 = 0 1 / / 2 3 = 4 : 0 1 2 3";

/// What local tensors with these cells are put together to.
fn put_parts(alloc: Global, t: &Tensor, s: &Sharding, g: &Grid, cells: &str) -> Result<String, Fail>
    requires grid { s.now.grid ≡ g.now }
    requires shape { t.now.shape ≡ whole_of s.now }
{
    let cuts = all_cuts(alloc, t, s, g)?;
    let parts = parts_with(alloc, &cuts, s, g, cells)?;
    together(alloc, &parts, s, g)
}

/// The same for the example of a line.
fn put_example(alloc: Global, line: &str, cells: &str) -> Result<String, Fail> {
    let sharded = admit_example(alloc, line)?;
    let tensor = counting(alloc, whole(&sharded.sharding))?;
    put_parts(alloc, &tensor, &sharded.sharding, &sharded.grid, cells)
}

fn assert_together(rt: &impl Abort, alloc: Global, row: &str) -> Result<(), Fail> {
    let (line, rest) = row.split_once(" = ").ok_or("no parts")?;
    let (cells, want) = rest.split_once(" = ").ok_or("no answer")?;
    let found = put_example(alloc, line, cells)?;
    assert_eq!(rt; found.as_str(), want, "{row}");
    Ok(())
}

#[test]
fn puts_parts_together_or_says_where_they_differ(rt: HostRuntime) -> Result<(), Fail> {
    let alloc = rt.alloc();
    for row in PARTS.lines() {
        assert_together(&rt, alloc, row)?;
    }
    Ok(())
}

/// Each line an example, and for each dimension its axes, its halos, and where each device's part begins
/// and how long it is.
const VIEWS: &str = "\
2 2 | 4 | 1 0 | | = axes 1 0, halo 0 0: 0+1 2+1 1+1 3+1
4 | 8 | 0 | 1 2 | = axes 0, halo 1 2: 0+2 2+2 4+2 6+2
4 | 5 | 0 | | = axes 0, halo 0 0: 0+2 2+2 4+1 5+0
4 | 14 | 0 | | 0 2 5 9 14 = axes 0, halo 0 0: 0+2 2+3 5+4 9+5
2 2 | 3 6 | - / 1 | | 0 2 6 = axes, halo 0 0: 0+3 0+3 0+3 0+3; axes 1, halo 0 0: 0+2 2+4 0+2 2+4";

/// Appends what is known of a dimension.
fn push_view(line: &mut String, s: &Sharding, g: &Grid, dim: u64) -> Result<(), Fail>
    requires grid { s.now.grid ≡ g.now }
{
    if dim >= whole(s).extents().len() as u64 {
        return Err("no such dimension")?;
    }
    line.push_str("axes")?;
    for axis in axes(s, dim).extents() {
        write!(line, " {axis}")?;
    }
    let (low, high) = halo(s, dim);
    write!(line, ", halo {low} {high}:")?;
    for device in 0..devices(g) {
        let start = start(s, g, dim, device);
        let size = size(s, g, dim, device);
        write!(line, " {start}+{size}")?;
    }
    Ok(())
}

/// What is known of all dimensions of the example of a line.
fn views(alloc: Global, line: &str) -> Result<String, Fail> {
    let sharded = admit_example(alloc, line)?;
    let mut found = String::new(alloc);
    for dim in 0..whole(&sharded.sharding).extents().len() as u64 {
        if dim > 0 {
            found.push_str("; ")?;
        }
        push_view(&mut found, &sharded.sharding, &sharded.grid, dim)?;
    }
    Ok(found)
}

fn assert_views(rt: &impl Abort, alloc: Global, row: &str) -> Result<(), Fail> {
    let (line, want) = row.split_once(" = ").ok_or("no views")?;
    let found = views(alloc, line)?;
    assert_eq!(rt; found.as_str(), want, "{row}");
    Ok(())
}

#[test]
fn shows_the_parts_of_each_dimension(rt: HostRuntime) -> Result<(), Fail> {
    let alloc = rt.alloc();
    for row in VIEWS.lines() {
        assert_views(&rt, alloc, row)?;
    }
    Ok(())
}
