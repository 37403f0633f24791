ghost use Rattle.std.specs.Prelude.{◌≡◌, ◌++◌, ◌∷◌, [], ◌≤◌, map, true, false, IfOk, IfSome, IsTrue, None, option_and_then, ◌⊎◌};
ghost use Rattle.sh_base.specs.Shape.{max_rank};
ghost use Rattle.sh_ir.specs.Classes.{class_of};
ghost use Rattle.sh_ir.specs.Loops.{Structure, structure_of};
ghost use Rattle.sh_loops.specs.NestSizes.{HasLoops, nest_size as size_of_nest};
ghost use Rattle.sh_loops.specs.Nests.{all_follow_loops};
ghost use Rattle.sh_loops.specs.Structures.{HasFewLoops, loops_in};

use crate::loops::{Loops, loops_of};
use crate::operands::shape_of;
use crate::sizes::agreed;
use crate::structures::{all_maps, are_tensors, count_points};
use sh_base::{Mem, Shape};
use sh_ir::{OpClass, OpKind};
use sh_tensor::Tensor;
use std::alloc::Global;

/// How large a structured operation is: the shape of its output, and how many loop points it has.
#[derive(Drop)]
pub struct NestSize {
    pub shape: Shape,
    pub points: u128,
}

/// Whether an operation is structured.
#[tactic(auto, unfolding(sh_ir::specs::Loops::structure_of))]
pub fn is_structured(kind: &OpKind) -> bool
    ensures class { IsTrue result
        → (class_of kind.now ≡ OpClass.Structured) ⊎ (class_of kind.now ≡ OpClass.Convolution) }
    ensures others { result ≡ false → (class_of kind.now ≡ OpClass.Structured)
        ⊎ (class_of kind.now ≡ OpClass.Convolution) → ⊥ }
    ensures none { result ≡ false → structure_of kind.now ≡ None }
{
    match kind {
        OpKind::Fill(_) => true,
        OpKind::Matmul(_) => true,
        OpKind::BatchMatmul(_) => true,
        OpKind::Matvec(_) => true,
        OpKind::Vecmat(_) => true,
        OpKind::Dot(_) => true,
        OpKind::Conv1d(_) => true,
        OpKind::Conv2d(_) => true,
        OpKind::Transpose(_) => true,
        OpKind::Broadcast(_) => true,
        OpKind::Reduce(_) => true,
        OpKind::Generic(_) => true,
        _ => false,
    }
}

/// How large an operation of these loops is.
fn size_of_loops(alloc: Global, loops: &Loops, ins: &[&Tensor]) -> Result<Option<NestSize>, Mem>
    requires few { loops.now.count ≤ max_rank }
    requires follow { all_follow_loops loops.now.count (loops.now.inputs ++ loops.now.output ∷ []) ≡ true }
    ensures { (s : Structure) → loops.now ≡ loops_in s → IfOk result (λ out. out
        ≡ size_of_nest (map (λ t. t.shape) (map (λ t. t.now) ins.now)) s) }
{
    let count = loops.inputs.len();
    if ins.len() <= count {
        return Ok(None);
    }
    let (_, others) = ins.split_at(count);
    let (typed, _) = ins.split_at(count + 1);
    let outs = others[0];
    // Each operand has few cells, as reading it tells.
    are_tensors(typed);
    let maps = all_maps(alloc, loops)?;
    match agreed(alloc, maps.as_slice(), typed, loops.count) {
        Some(extents) => Ok(Some(NestSize {
            shape: shape_of(alloc, outs),
            points: count_points(&extents),
        })),
        None => Ok(None),
    }
}

/// How large a structured operation is on operands whose sizes agree; none where they don't, or it
/// isn't structured.
pub fn nest_size(alloc: Global, kind: &OpKind, ins: &[&Tensor]) -> Result<Option<NestSize>, Mem>
    requires few { HasFewLoops kind.now }
    requires loops { IfSome (structure_of kind.now) HasLoops }
    ensures { IfOk result (λ out. out ≡ option_and_then
        (size_of_nest (map (λ t. t.shape) (map (λ t. t.now) ins.now))) (structure_of kind.now)) }
{
    match loops_of(alloc, kind)? {
        Some(loops) => size_of_loops(alloc, &loops, ins),
        None => Ok(None),
    }
}
