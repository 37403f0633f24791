ghost use Rattle.std.specs.Prelude.{◌≡◌, ◌++◌, ◌*◌, ◌+◌, ◌<◌, ◌≤◌, All, IfOk, OnOk, length, map};
ghost use Rattle.sh_base.specs.Shape.{cell_count, max_cells};
ghost use Rattle.sh_sharding.specs.Positions.{AreExtended, ArePositions, AreWritten, IsInside, IsLeastDiffering, IsSmall, moved};

use crate::Sharding;
use crate::parts::span;
use crate::reading::{dimension, rank};
use sh_base::{Cell, Mem, Same};
use sh_grid::Grid;
use std::alloc::Global;

/// A row-major number in the whole tensor, and one in a local tensor.
#[derive(Clone, Copy)]
pub(crate) struct Position {
    pub(crate) whole: u64,
    pub(crate) local: u64,
}

/// Appends the positions, with greater numbers.
fn push_moved(out: &mut Vec<Position>, positions: &[Position], by: Position) -> Result<(), Mem>
    requires small { All IsSmall positions.now }
    requires by { IsSmall by }
    ensures { OnOk result (out.new.items ≡ out.old.items ++ map (moved by) positions.now) }
{
    for position in positions {
        out.push(Position {
            whole: by.whole + position.whole,
            local: by.local + position.local,
        })?;
    }
    Ok(())
}

/// Each of the positions at each of so many entries of one dimension more, which is the outermost.
fn extended(
    alloc: Global,
    positions: &[Position],
    stride: Position,
    from: Position,
    size: u64,
) -> Result<Vec<Position>, Mem>
    requires small { All IsSmall positions.now }
    requires whole { from.whole + size ≤ max_cells }
    requires local { from.local + size ≤ 4 * max_cells }
    requires whole_few { (from.whole + size) * stride.whole ≤ max_cells }
    requires local_few { (from.local + size) * stride.local ≤ max_cells }
    ensures { IfOk result (λ out. AreExtended positions.now stride from size out.items) }
{
    let mut out = Vec::new(alloc);
    for entry in 0..size {
        let by = Position {
            whole: (from.whole + entry) * stride.whole,
            local: (from.local + entry) * stride.local,
        };
        push_moved(&mut out, positions, by)?;
    }
    Ok(out)
}

/// The positions of all cells that a device owns.
pub(crate) fn own_positions(
    alloc: Global,
    s: &Sharding,
    g: &Grid,
    device: u64,
) -> Result<Vec<Position>, Mem>
    requires grid { s.now.grid ≡ g.now }
    requires device { device < cell_count g.now.extents }
    ensures { IfOk result (λ positions.
        ArePositions s.now.grid.extents device s.now.dimensions positions.items) }
{
    let rank = rank(s);
    let mut positions = Vec::from_array(alloc, [Position { whole: 0, local: 0 }])?;
    let mut stride = Position { whole: 1, local: 1 };
    for back in 0..rank {
        let d = dimension(s, rank - 1 - back);
        let (start, size) = span(g, d, device);
        let from = Position {
            whole: start,
            local: d.low,
        };
        positions = extended(alloc, positions.as_slice(), stride, from, size)?;
        stride = Position {
            whole: d.extent * stride.whole,
            local: (d.low + size + d.high) * stride.local,
        };
    }
    Ok(positions)
}

/// Writes a part's cells at their positions in the whole.
pub(crate) fn write_own(cells: &mut Vec<Cell>, part: &[Cell], positions: &[Position])
    requires { All (IsInside (length cells.old.items) (length part.now)) positions.now }
    ensures { AreWritten positions.now part.now cells.old.items cells.new.items }
{
    for position in positions {
        cells[position.whole as usize] = part[position.local as usize];
    }
}

/// The least number of a cell where a part differs from what stands there, or how many cells there
/// are where it doesn't.
pub(crate) fn least_differing(cells: &[Cell], part: &[Cell], positions: &[Position]) -> u64
    requires few { length cells.now ≤ max_cells }
    requires inside { All (IsInside (length cells.now) (length part.now)) positions.now }
    ensures { IsLeastDiffering positions.now part.now cells.now result }
{
    let mut least = cells.len() as u64;
    for position in positions {
        let alike = part[position.local as usize].same(&cells[position.whole as usize]);
        if !alike && position.whole < least {
            least = position.whole;
        }
    }
    least
}
