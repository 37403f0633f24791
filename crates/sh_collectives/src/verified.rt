ghost use Rattle.std.specs.Prelude.{ℕ, List};
ghost use Rattle.sh_collectives.specs.DeviceForms.{AreInOrder, IsOfDevice};
ghost use Rattle.sh_ir.specs.declared.functions.Func as declared_func;
ghost use Rattle.sh_pieces.specs.Runs.{ResultsAreKnown};
ghost use Rattle.sh_sem.specs.Steps.{device_function, steps_on};

/// Of a function in device form of a module that keeps the limits and the rules, on its grid: each
/// instruction has its operands among the names before it, a collective has one, and it stands along
/// axes of the grid; and what is returned is among all names.
pub fn device_form_laws()
    ensures instructions { (f : declared_func.Func) (grid : List ℕ) → IsOfDevice f grid → AreInOrder f grid }
    ensures results { (f : declared_func.Func) (grid : List ℕ) → IsOfDevice f grid
        → ResultsAreKnown (steps_on grid) (device_function f) }
{}
