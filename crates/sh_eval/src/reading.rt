ghost use Rattle.std.specs.Prelude.{◌≡◌, ◌≤◌, ℕ, List, get_or, length};
ghost use Rattle.sh_base.specs.Cells.{IsCellOf};
ghost use Rattle.sh_base.specs.declared.numbers.Cell.TheVariants.{Undef};
ghost use Rattle.sh_base.specs.Shape.{flat_of, max_cells};
ghost use Rattle.sh_eval.specs.Cuts.{cut, cut_index};
ghost use Rattle.sh_tensor.specs.Tensor.{at as cell_of_tensor};

use sh_base::Cell;
use sh_sem::cells_of;
use sh_tensor::Tensor;

/// The coordinate along a dimension; 0 where there is none.
pub(crate) fn entry_at(index: &[u64], at: usize) -> u64
    ensures { result ≡ get_or index.now at 0 }
{
    index.get(at).copied().unwrap_or(0)
}

/// The row-major number of an index, cut.
fn number_of(extents: &[u64], index: &[u64]) -> u64
    ensures { result ≡ cut (flat_of extents.now index.now) }
{
    let mut number: u64 = 0;
    for (at, extent) in extents.iter().enumerate() {
        number = number
            .saturating_mul(*extent)
            .saturating_add(entry_at(index, at));
    }
    number
}

/// The cell with a number; undefined where there is none.
pub(crate) fn cell_numbered(cells: &[Cell], number: u64) -> Cell
    ensures { result ≡ get_or cells.now number Undef }
{
    cells.get(number as usize).copied().unwrap_or(Cell::Undef)
}

/// The cell of a tensor at an index; undefined where it has none with the index's number. The index
/// may be cut.
pub(crate) fn read(t: &Tensor, index: &[u64]) -> Cell
    ensures value { result ≡ cell_of_tensor t.now index.now }
    ensures cut { (i : List ℕ) → index.now ≡ cut_index i → result ≡ cell_of_tensor t.now i }
    ensures within { IsCellOf t.now.width result }
{
    let number = number_of(t.shape().extents(), index);
    cell_numbered(cells_of(t), number)
}
