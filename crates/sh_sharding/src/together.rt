ghost use Rattle.std.specs.Prelude.{◌≡◌, ℕ, ◌<◌, ◌≤◌, IfErr, IfOk, OnOk, length};
ghost use Rattle.sh_base.specs.Shape.{cell_count, max_cells};
ghost use Rattle.sh_tensor.specs.Tensor.{TensorValue};
ghost use Rattle.sh_sharding.specs.declared.together.Put.TheVariants.{Mem as WantOfMemory};
ghost use Rattle.sh_sharding.specs.Positions.{AreHeld, IsStanding};
ghost use Rattle.sh_sharding.specs.Sharding.{whole_of};
ghost use Rattle.sh_sharding.specs.Together.{AreCutsOf, AreParts, IsPutRefusal, IsTogether, part_at};

use crate::positions::{least_differing, own_positions, write_own};
use crate::{Sharding, whole};
use sh_base::{Cell, Mem, Width, count, shape};
use sh_grid::{Grid, devices};
use sh_tensor::{Tensor, build};
use std::alloc::Global;

/// Why parts can't be put together.
#[derive(Debug, Drop)]
pub enum Put {
    /// Two owners of a cell hold it differently: the first such cell, by its row-major number in
    /// the whole, and the first device that holds it otherwise than its first owner.
    Differ { device: u64, cell: u64 },
    /// Memory is wanting.
    Mem,
}

impl From<Mem> for Put {
    ghost use Rattle.sh_sharding.specs.declared.together.Put.TheVariants.{Mem as WantOfMemory};

    ghost from_gives = { λ _ e. e ≡ WantOfMemory };

    fn from(_: Mem) -> Put {
        Put::Mem
    }
}

/// How many cells the whole tensor has.
fn total_cells(s: &Sharding) -> u64
    ensures value { result ≡ cell_count (whole_of s.now) }
    ensures few { result ≤ max_cells }
{
    count(whole(s)).unwrap()
}

/// The width of the parts.
fn common_width(parts: &[Tensor]) -> Width
    requires { 0 < length parts.now }
    ensures { result ≡ (part_at parts.now 0).width }
{
    parts[0].width()
}

/// The cell of each index's first owner, in row-major order.
fn standing(alloc: Global, parts: &[Tensor], s: &Sharding, g: &Grid) -> Result<Vec<Cell>, Mem>
    requires grid { s.now.grid ≡ g.now }
    requires parts { AreParts s.now parts.now }
    ensures { IfOk result (λ cells. IsStanding s.now parts.now 0 cells.items) }
{
    let mut cells = vec![in alloc; Cell::Undef; total_cells(s) as usize]?;
    let devices = devices(g);
    for back in 0..devices {
        // The last writer of a cell is its first owner.
        let device = devices - 1 - back;
        let positions = own_positions(alloc, s, g, device)?;
        let part = &parts[device as usize];
        let _whole = part.shape();
        write_own(&mut cells, part.cells(), positions.as_slice());
    }
    Ok(cells)
}

/// Compares the cells of all owners with those of the first owners.
fn compare(
    alloc: Global,
    cells: &[Cell],
    parts: &[Tensor],
    s: &Sharding,
    g: &Grid,
) -> Result<(), Put>
    requires grid { s.now.grid ≡ g.now }
    requires parts { AreParts s.now parts.now }
    requires standing { IsStanding s.now parts.now 0 cells.now }
    ensures alike { OnOk result (AreHeld s.now parts.now cells.now) }
    ensures refused { IfErr result (λ refusal. IsPutRefusal refusal s.now parts.now) }
{
    let total = total_cells(s);
    let mut first_cell = total;
    let mut first_device = 0;
    for device in 0..devices(g) {
        let positions = own_positions(alloc, s, g, device)?;
        let part = &parts[device as usize];
        let least = least_differing(cells, part.cells(), positions.as_slice());
        if least < first_cell {
            first_cell = least;
            first_device = device;
        }
    }
    if first_cell < total {
        return Err(Put::Differ {
            device: first_device,
            cell: first_cell,
        });
    }
    Ok(())
}

/// The whole tensor that the parts of all devices, halos included, hold together: at each index the
/// cell that all its owners hold. It is refused where two owners differ, and where memory is
/// wanting. The parts of a tensor's cuts give that tensor again.
pub fn put_together(
    alloc: Global,
    parts: &Vec<Tensor>,
    s: &Sharding,
    g: &Grid,
) -> Result<Tensor, Put>
    requires grid { s.now.grid ≡ g.now }
    requires parts { AreParts s.now parts.now.items }
    ensures ok { IfOk result (λ t. IsTogether s.now parts.now.items t) }
    ensures refused { IfErr result (λ refusal. IsPutRefusal refusal s.now parts.now.items) }
    ensures again { (t : TensorValue) → AreCutsOf s.now t parts.now.items
        → IfOk result (λ u. u ≡ t) × IfErr result (λ refusal. refusal ≡ WantOfMemory) }
{
    let parts = parts.as_slice();
    let cells = standing(alloc, parts, s, g)?;
    compare(alloc, cells.as_slice(), parts, s, g)?;
    let shape = shape(alloc, whole(s).extents());
    Ok(build(shape, common_width(parts), cells))
}
