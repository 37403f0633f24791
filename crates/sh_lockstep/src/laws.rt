ghost use Rattle.std.specs.Prelude.{◌≡◌, ℕ, List, length};
ghost use Rattle.sh_base.specs.Shape.{cell_count};
ghost use Rattle.sh_collectives.specs.DeviceForms.{HasNoExchange, IsOfDevice};
ghost use Rattle.sh_eval.specs.Devices.{AreLocalArguments, GivesFewAlong};
ghost use Rattle.sh_ir.specs.declared.functions.Func.{Func};
ghost use Rattle.sh_lockstep.specs.Behind.{CanLock, arguments_in};
ghost use Rattle.sh_tensor.specs.Tensor.{TensorValue};

/// A function in device form of a module that keeps the limits and the rules can be run in step on
/// its grid, if no instruction exchanges halos: where each device has arguments of the local types,
/// and no value that is given along the run has too many cells.
pub fn can_lock_laws()
    ensures { (f : Func) (grid : List ℕ) (args : List (List TensorValue)) → IsOfDevice f grid
        → HasNoExchange f → length args ≡ cell_count grid
        → AreLocalArguments f grid (arguments_in args) → GivesFewAlong f grid (arguments_in args)
        → CanLock f grid args }
{}
