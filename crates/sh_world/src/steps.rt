ghost use Rattle.std.specs.Prelude.{◌≡◌, ℕ, ◌<◌, List, IfOk, length, map};
ghost use Rattle.sh_base.specs.Shape.{cell_count};
ghost use Rattle.sh_grid.specs.Grid.{AreAxesOf};
ghost use Rattle.sh_ir.specs.declared.operations.Op as declared_op;
ghost use Rattle.sh_sem.specs.Steps.{axes_of, steps_on};
ghost use Rattle.sh_tensor.specs.Tensor.{TensorValue};

use sh_base::Mem;
use sh_grid::Grid;
use sh_ir::Op;
use sh_tensor::Tensor;
use std::alloc::Global;

/// What runs the local instructions of devices.
pub trait LocalSteps {
    /// On which operands an instruction can be run, on a grid of these extents and a device.
    ghost can: { declared_op.Op → List ℕ → ℕ → List TensorValue → Type 0 };

    /// What a local instruction gives on a device of a grid: none exactly where it is stuck.
    ///
    /// Errors: `Mem` where memory is wanting.
    fn step(
        &self,
        alloc: Global,
        op: &Op,
        g: &Grid,
        device: u64,
        operands: &[&Tensor],
    ) -> Result<Option<Tensor>, Mem>
        requires axes { AreAxesOf (length g.now.extents) (axes_of op.now.kind) }
        requires device { device < cell_count g.now.extents }
        requires can { can op.now g.now.extents device (map (λ t. t.now) operands.now) }
        ensures { IfOk result (λ out. out
            ≡ (steps_on g.now.extents).local op.now device (map (λ t. t.now) operands.now)) };
}
