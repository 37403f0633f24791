ghost use Rattle.std.specs.Prelude.{◌≡◌, All, IfOk, map};
ghost use Rattle.std.specs.List.{range_with_len};
ghost use Rattle.sh_base.specs.Cells.{IsCellOf};
ghost use Rattle.sh_base.specs.Shape.{cell_count};
ghost use Rattle.sh_sharding.specs.Cut.{cut_of};
ghost use Rattle.sh_sharding.specs.Sharding.{whole_of};
ghost use Rattle.sh_sharding.specs.Together.{AreParts};

use crate::Unread;
use sh_base::{Cell, Shape, Width, count, shape};
use sh_grid::{Grid, devices};
use sh_sharding::{Sharding, cut};
use sh_tensor::{Tensor, build};
use std::alloc::Global;

/// The tensor of a shape whose cells count up from 0.
pub fn counting(alloc: Global, whole: &Shape) -> Result<Tensor, Unread>
    ensures { IfOk result (λ t. t ≡ record { shape = whole.now; width = Width.I64; cells = map Cell.Val (range_with_len 0 (cell_count whole.now)) }) }
{
    let total = count(whole).ok_or(Unread::Text("too many cells"))?;
    let mut cells = Vec::with_capacity(alloc, total as usize)?;
    for number in 0..total {
        cells.push(Cell::Val(number))?;
    }
    Ok(build(shape(alloc, whole.extents()), Width::I64, cells))
}

/// The cuts of all devices.
pub fn all_cuts(alloc: Global, t: &Tensor, s: &Sharding, g: &Grid) -> Result<Vec<Tensor>, Unread>
    requires grid { s.now.grid ≡ g.now }
    requires shape { t.now.shape ≡ whole_of s.now }
    ensures value { IfOk result (λ parts. parts.items ≡ map (cut_of s.now t.now) (range_with_len 0 (cell_count g.now.extents))) }
    ensures parts { IfOk result (λ parts. AreParts s.now parts.items) }
{
    let mut parts = Vec::new(alloc);
    for device in 0..devices(g) {
        parts.push(cut(alloc, t, s, g, device)?)?;
    }
    Ok(parts)
}

/// A cell as it is shown.
fn cell(word: &str) -> Result<Cell, Unread>
    ensures { IfOk result (λ cell. IsCellOf Width.I64 cell) }
{
    if word == "_" {
        return Ok(Cell::Undef);
    }
    let number = word.parse::<u64>().ok().ok_or(Unread::Text("no cell"))?;
    Ok(Cell::Val(number))
}

/// The cells in a line.
fn cells(alloc: Global, line: &str) -> Result<Vec<Cell>, Unread>
    ensures { IfOk result (λ cells. All (IsCellOf Width.I64) cells.items) }
{
    let mut found = Vec::new(alloc);
    for word in line.split_whitespace() {
        found.push(cell(word)?)?;
    }
    Ok(found)
}

/// A tensor of the same shape with the cells in a line.
fn with_cells(alloc: Global, t: &Tensor, line: &str) -> Result<Tensor, Unread>
    ensures shape { IfOk result (λ other. other.shape ≡ t.now.shape) }
    ensures width { IfOk result (λ other. other.width ≡ Width.I64) }
{
    let cells = cells(alloc, line)?;
    if cells.len() != t.cells().len() {
        return Err(Unread::Text("a wrong number of cells"));
    }
    Ok(build(shape(alloc, t.shape().extents()), Width::I64, cells))
}

/// Local tensors of all devices, with the cells in a line, the devices between `/`.
pub fn parts_with(
    alloc: Global,
    cuts: &Vec<Tensor>,
    s: &Sharding,
    g: &Grid,
    line: &str,
) -> Result<Vec<Tensor>, Unread>
    requires grid { s.now.grid ≡ g.now }
    requires cuts { AreParts s.now cuts.now.items }
    ensures { IfOk result (λ parts. AreParts s.now parts.items) }
{
    let mut parts = Vec::new(alloc);
    let mut rest = line.split('/');
    for device in 0..devices(g) {
        let mine = rest.next().ok_or(Unread::Text("no part"))?;
        parts.push(with_cells(alloc, &cuts[device as usize], mine)?)?;
    }
    Ok(parts)
}
