ghost use Rattle.std.specs.Prelude.{◌≡◌, IsSome, List, Some, map};
ghost use Rattle.sh_ir.specs.declared.functions.Func.{Func};
ghost use Rattle.sh_ir.specs.declared.operations.Op.{Op};
ghost use Rattle.sh_ir.specs.Classes.{class_of};
ghost use Rattle.sh_sem.specs.Given.{alone, given};
ghost use Rattle.sh_sem.specs.Meaning.{Values};
ghost use Rattle.sh_tensor.specs.Tensor.{TensorValue};
ghost use Rattle.sh_turns.specs.Program.{all_there};
ghost use Rattle.sh_eval.specs.Evaluations.{CanEvaluate};
ghost use Rattle.sh_eval.specs.Reached.{IsReachedOp};
ghost use Rattle.sh_eval.specs.Sources.{IsOfSourceType};
ghost use Rattle.sh_eval.specs.VerifiedOps.{HasTensor};

/// Of a function in source form of a module that keeps the limits and the rules, on arguments of its
/// parameters' types, each operation that is reached and gives a tensor has its operands, can be
/// evaluated on them, and gives a tensor of the type of its value.
pub fn can_evaluate_laws()
    ensures there { (f : Func) (arguments : List TensorValue) (op : Op) (values : Values)
        → IsReachedOp f arguments op values → HasTensor (class_of op.kind)
        → IsSome (all_there (map values op.operands)) }
    ensures can { (f : Func) (arguments : List TensorValue) (op : Op) (values : Values)
        (ts : List TensorValue) → IsReachedOp f arguments op values
        → all_there (map values op.operands) ≡ Some ts → CanEvaluate op alone ts }
    ensures typed { (f : Func) (arguments : List TensorValue) (op : Op) (values : Values)
        (ts : List TensorValue) (t : TensorValue) → IsReachedOp f arguments op values
        → all_there (map values op.operands) ≡ Some ts → given op alone ts ≡ Some t
        → IsOfSourceType op.result t }
{}
