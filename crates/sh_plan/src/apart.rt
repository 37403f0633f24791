ghost use Rattle.std.specs.Prelude.{◌≡◌, ◌++◌, [], IfOk, OnOk, length};
ghost use Rattle.sh_plan.specs.States.{code_in, code_of, counted, written_offsets};

use sh_base::{Items, MAX_RANK, Mem};
use sh_grid::MAX_AXES;
use sh_sharding::{Dimension, Mark, Sharding, dimensions};
use std::alloc::Global;

/// Appends numbers, and before them how many they are.
fn push_counted(code: &mut Items<u64>, listed: &[u64]) -> Result<(), Mem>
    ensures { OnOk result (code.new ≡ code.old ++ counted listed.now) }
{
    code.push(listed.len() as u64)?;
    for number in listed {
        code.push(*number)?;
    }
    Ok(())
}

/// The written offsets of a mark.
fn offsets_of(mark: &Mark) -> &[u64]
    ensures { result.now ≡ written_offsets mark.now }
{
    match mark {
        Mark::Balanced => &[],
        Mark::Offsets(offsets) => offsets.as_slice(),
    }
}

/// Appends what tells a dimension apart: its axes, and its offsets where they aren't the balanced
/// ones.
fn push_dimension(code: &mut Items<u64>, d: &Dimension) -> Result<(), Mem>
    ensures { OnOk result (code.new ≡ code.old ++ code_in d.now) }
{
    push_counted(code, d.axes.extents())?;
    push_counted(code, offsets_of(&d.mark))
}

/// What tells a state apart from others of its shape on its grid.
pub(crate) fn code(alloc: Global, s: &Sharding) -> Result<Items<u64>, Mem>
    ensures { IfOk result (λ code. code ≡ code_of s.now.dimensions) }
{
    let listed = dimensions(s);
    let mut code = Items::from_vec(Vec::with_capacity(alloc, 2 * MAX_RANK + MAX_AXES)?);
    for d in listed {
        push_dimension(&mut code, d)?;
    }
    Ok(code)
}
