ghost use Rattle.std.specs.Prelude.{◌≡◌, ◌<◌, ℕ, IfSome, IsSomeAnd, List, Some, map, slice_get, true};
ghost use Rattle.std.specs.List.{AllByRecursion};
ghost use Rattle.sh_base.specs.Shape.{cell_count};
ghost use Rattle.sh_collectives.specs.DeviceForms.{IsOfDevice};
ghost use Rattle.sh_ir.specs.declared.functions.Func.{Func};
ghost use Rattle.sh_ir.specs.declared.operations.Op.{Op};
ghost use Rattle.sh_ir.specs.Classes.{class_of};
ghost use Rattle.sh_ir.specs.Scope.{Scope, scope_after};
ghost use Rattle.sh_sem.specs.Collected.{collected};
ghost use Rattle.sh_sem.specs.Given.{Seat};
ghost use Rattle.sh_sem.specs.Meaning.{Values, with_value};
ghost use Rattle.sh_sem.specs.Steps.{device_function, is_collective_class};
ghost use Rattle.sh_tensor.specs.Tensor.{TensorValue};
ghost use Rattle.sh_turns.specs.Program.{all_there};
ghost use Rattle.sh_collectives.specs.Operands.{AreGroupOperands, shape_collected};
ghost use Rattle.sh_eval.specs.Devices.{AreLocalArguments, CanGive, CanRunOn, GivesFewAlong, GoesOn, HasScope, IsInstructionOf, IsReachedAt, IsScopeAt, operand_of, operand_type, values_at};
ghost use Rattle.sh_eval.specs.Reached.{values_at_start};
ghost use Rattle.sh_eval.specs.Sources.{AreOfValueTypes, HaveTypes, IsOfValueType};
ghost use Rattle.sh_eval.specs.Values.{IsFew};

/// A function in device form of a module that keeps the limits and the rules has a scope before each
/// instruction, which stands in it. Arguments of the local types have the types of the first scope,
/// and values of the types of a scope, with one of the type of the instruction's value under its
/// name, have those of the next.
pub fn scope_laws()
    ensures there { (f : Func) (grid : List ℕ) (k : ℕ) → IsOfDevice f grid → HasScope f grid k }
    ensures next { (f : Func) (grid : List ℕ) (k : ℕ) (scope : Scope) (op : Op) → IsScopeAt f grid k scope
        → slice_get (device_function f).instructions k ≡ Some op → GoesOn f grid k scope op }
    ensures start { (f : Func) (grid : List ℕ) (scope : Scope) (arguments : List TensorValue)
        → IsScopeAt f grid 0 scope → AreOfValueTypes (map (λ a. a.value_type) f.args) arguments
        → HaveTypes scope.values (values_at_start f arguments) }
    ensures after { (scope : Scope) (op : Op) (values : Values) (t : TensorValue)
        → HaveTypes scope.values values → IsOfValueType op.result t
        → HaveTypes (scope_after scope op).values (with_value op.defines t values) }
{}

/// On values of a device that have the types of the scope an instruction has its operands. At each
/// seat a local one can be done on them where what it gives has few cells, and that is of the type of
/// its value.
pub fn local_laws()
    ensures { (scope : Scope) (op : Op) (seat : Seat) (values : Values) → IsInstructionOf scope op
        → HaveTypes scope.values values → IsSomeAnd (all_there (map values op.operands)) (CanGive op seat) }
{}

/// A device whose values have the types of the scope gives to a collective a tensor of the type that
/// is written for it. Of a group of such tensors it can be collected: they have the dimensions along
/// which the collective works and its width. What is given at a place of the group is of the type of
/// its value, where it has few cells.
pub fn collective_laws()
    ensures operand { (scope : Scope) (op : Op) (values : Values) → IsInstructionOf scope op
        → is_collective_class (class_of op.kind) ≡ true → HaveTypes scope.values values
        → IsSomeAnd (operand_of op values) (IsOfValueType (operand_type op)) }
    ensures group { (scope : Scope) (op : Op) (ts : List TensorValue) → IsInstructionOf scope op
        → is_collective_class (class_of op.kind) ≡ true
        → AllByRecursion (IsOfValueType (operand_type op)) ts → AreGroupOperands op ts }
    ensures given { (scope : Scope) (op : Op) (grid : List ℕ) (ts : List TensorValue) (place : ℕ)
        (t : TensorValue) → IsInstructionOf scope op → is_collective_class (class_of op.kind) ≡ true
        → AllByRecursion (IsOfValueType (operand_type op)) ts
        → IfSome (shape_collected grid op place ts) IsFew → collected op grid ts place ≡ Some t
        → IsOfValueType op.result t }
{}

/// Run on all devices of the grid, where each has arguments of the local types and no value that is
/// given along the run has too many cells: each instruction that is reached has its operands on each
/// device and can be done on them, and what it gives is of the type of its value.
pub fn can_run_laws()
    ensures { (f : Func) (grid : List ℕ) (arguments : ℕ → List TensorValue) (k : ℕ) (op : Op) (c : ℕ)
        → IsOfDevice f grid → AreLocalArguments f grid arguments → GivesFewAlong f grid arguments
        → slice_get (device_function f).instructions k ≡ Some op → IsReachedAt f grid arguments k
        → c < cell_count grid → CanRunOn grid op (values_at f grid arguments k) c }
{}
