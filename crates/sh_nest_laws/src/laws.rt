ghost use Rattle.sh_base.specs.Cells.{IsCellOf};
ghost use Rattle.sh_int.specs.Reduction.{combine_of, neutral_of};
ghost use Rattle.sh_grid.specs.Grid.{GridValue};
ghost use Rattle.sh_ir.specs.declared.operations.Op.{Op};
ghost use Rattle.sh_nest_laws.specs.LoopSplits.{PlainNest, split_by, splits_by};
ghost use Rattle.sh_base.specs.declared.numbers.Cell.{Cell};
ghost use Rattle.sh_base.specs.declared.operations.Kind as declared_kind;
ghost use Rattle.sh_nest_laws.specs.Parallel.{IsParallelPart};
ghost use Rattle.sh_nest_laws.specs.SplitReduction.{IsSplitPart};
ghost use Rattle.sh_pieces.specs.Promises.{IsLocalPart};
ghost use Rattle.sh_sem.specs.Given.{alone, given};
ghost use Rattle.sh_sem.specs.Steps.{steps_on};
ghost use Rattle.sh_sharding.specs.declared.shardings.Dimension.{Dimension};
ghost use Rattle.sh_sharding.specs.Splits.{tensor_splitting};
ghost use Rattle.sh_nest_laws.specs.Folds.{FoldLaws, IfThere, lifted};
ghost use Rattle.std.specs.Prelude.{ℕ, List, [], ◌∷◌, Option, Some};

use sh_base::{Kind, Width};

/// Folds of cells by the combination of a kind: one that begins with the neutral cell doesn't depend
/// on the order of the cells, and it is the fold of the folds of any parts; one that begins with
/// another cell is that cell combined with it. The same holds where some cells are missing, one of
/// which makes the whole fold missing.
pub fn fold_laws(k: Kind, w: Width)
    ensures cells { FoldLaws (IsCellOf w) (neutral_of k w) (combine_of k w) }
    ensures outcomes { FoldLaws (IfThere (IsCellOf w)) (Some (neutral_of k w)) (lifted (combine_of k w)) }
{}

/// Where only loops of the output are split, evenly or not, some parts perhaps empty, the operation
/// at local sizes makes the cut of the result of the cuts of its operands, wherever the operation on
/// whole operands isn't stuck.
pub fn parallel_loops()
    ensures { (g : GridValue) (D : ℕ → Dimension) (nest : PlainNest) (whole local : Op)
        → IsParallelPart g D nest whole local
        → IsLocalPart (steps_on g.extents) tensor_splitting (given whole alone)
        (splits_by g D nest) (split_by g D nest.out) (local ∷ []) }
{}

/// Where the operation has a kind and any number of its reduction loops are split too, five
/// instructions make the cut of the result of the cuts of the operands: a constant, the neutral cell
/// of the kind; a fill of the local outs with it; the operation on that; an all_reduce over the axes
/// of the split reduction loops; the kind's element operation on the local outs and the combination.
/// So the outs are counted once, a part may be empty, and undefined cells are as in the whole.
pub fn split_reduction()
    ensures { (g : GridValue) (D : ℕ → Dimension) (nest : PlainNest) (k : declared_kind.Kind)
        (term : List Cell → List Cell → Option Cell)
        (whole constant fill local reduce join : Op)
        → IsSplitPart g D nest k term whole constant fill local reduce join
        → IsLocalPart (steps_on g.extents) tensor_splitting (given whole alone)
        (splits_by g D nest) (split_by g D nest.out)
        (constant ∷ fill ∷ local ∷ reduce ∷ join ∷ []) }
{}
