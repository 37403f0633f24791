ghost use Rattle.std.specs.Prelude.{ℕ, List};
ghost use Rattle.sh_pieces.specs.Instructions.{HasGroups, UsesEarlier};
ghost use Rattle.sh_pieces.specs.Laws.{IsByNames};
ghost use Rattle.sh_pieces.specs.Runs.{HaveArguments};
ghost use Rattle.sh_sem.specs.Steps.{device_function, device_program, steps_on};
ghost use Rattle.sh_tensor.specs.Tensor.{TensorValue};

use sh_grid::Grid;
use sh_ir::Func;

/// The laws of what devices of a grid run. The members of each group are devices, and a group
/// without members gets nothing. And the program that a function in device form is does what its
/// instructions do by names: it is well formed for the machine of turns where each collective uses
/// a parameter or an earlier value, and where it is done in step, it is right in every order of
/// turns.
pub fn device_laws(f: &Func, g: &Grid)
    ensures groups { HasGroups (steps_on g.now.extents) }
    ensures program { (arguments : ℕ → List TensorValue)
        → HaveArguments (steps_on g.now.extents) (device_function f.now).parameters arguments
        → IsByNames (steps_on g.now.extents) (device_function f.now) arguments
        (device_program f.now g.now.extents arguments) }
{}
