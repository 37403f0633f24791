ghost use Rattle.std.specs.Prelude.{◌≡◌, IfOk, drop, filter_map, flat_map, fold, map, slice_get};
ghost use Rattle.sh_world.specs.History.{code_of, history_of, history_step};
ghost use Rattle.sh_world.specs.States.{device_of};

use crate::states::State;
use sh_base::{Cell, Duplicate, Items, Mem};
use sh_tensor::Tensor;
use std::alloc::Global;

/// The history sum with one cell more.
fn with_cell(sum: u64, cell: Cell) -> u64
    ensures { result ≡ history_step sum (code_of cell) }
{
    let code = match cell {
        Cell::Undef => 0,
        Cell::Val(x) => u128::from(x) + 1,
    };
    ((31 * u128::from(sum) + code) % 18446744073709551616) as u64
}

/// The history sum with these cells.
fn with_cells(sum: u64, cells: &[Cell]) -> u64
    ensures { result ≡ fold history_step sum (map code_of cells.now) }
{
    let mut sum = sum;
    for cell in cells {
        sum = with_cell(sum, *cell);
    }
    sum
}

/// The history sum with the cells of all values but the arguments.
fn with_values(sum: u64, values: &[Tensor], arity: usize) -> u64
    ensures { result ≡ fold history_step sum
        (map code_of (flat_map (λ t. t.cells) (drop arity values.now))) }
{
    let mut sum = sum;
    for at in arity..values.len() {
        sum = with_cells(sum, values[at].cells());
    }
    sum
}

/// The history sum of devices that have so many arguments.
pub(crate) fn history(arity: usize, states: &[State]) -> u64
    ensures { result ≡ history_of arity (map device_of states.now) }
{
    let mut sum = 0;
    for state in states {
        sum = with_values(sum, state.values.as_slice(), arity);
    }
    sum
}

/// Copies of the values at places.
fn returned(alloc: Global, values: &[Tensor], places: &[usize]) -> Result<Items<Tensor>, Mem>
    ensures { IfOk result (λ found. found
        ≡ filter_map (λ place. slice_get values.now place) places.now) }
{
    let mut found: Items<Tensor> = Items::new(alloc);
    for place in places {
        if *place < values.len() {
            let copied = values[*place].duplicate(alloc)?;
            found.push(copied)?;
        }
    }
    Ok(found)
}

/// Copies of the values at places of each device.
pub(crate) fn all_returned(
    alloc: Global,
    states: &[State],
    places: &[usize],
) -> Result<Vec<Items<Tensor>>, Mem>
    ensures { IfOk result (λ rows. rows.items
        ≡ map (λ s. filter_map (λ place. slice_get s.values.items place) places.now) states.now) }
{
    let mut rows: Vec<Items<Tensor>> = Vec::with_capacity(alloc, states.len())?;
    for state in states {
        rows.push(returned(alloc, state.values.as_slice(), places)?)?;
    }
    Ok(rows)
}
