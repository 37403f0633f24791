ghost use Rattle.std.specs.Prelude.{ℕ, List, ◌<◌};
ghost use Rattle.sh_base.specs.declared.numbers.Width.{Width};
ghost use Rattle.sh_sharding.specs.declared.shardings.Dimension.{Dimension};
ghost use Rattle.sh_sharding.specs.Sharding.{ShardingValue};
ghost use Rattle.sh_plan.specs.declared.plans.Plan.{Plan};
ghost use Rattle.sh_plan.specs.declared.moves.Move.TheVariants.{M2, M5};
ghost use Rattle.sh_plan.specs.Costs.{IsCostByLengths};
ghost use Rattle.sh_plan.specs.Instructions.{IsMoveAt, IsPlainPlan, Reshards, ReshardsAlong};
ghost use Rattle.sh_plan.specs.Moves.{moved};
ghost use Rattle.sh_plan.specs.Plans.{IsCertificate, IsLeast, IsPair, IsThePlan, Reaches};
ghost use Rattle.sh_plan.specs.Replication.{IsReplicated, OnlySplitsReplicated};

/// What a device receives in a move, counted index by index, is the number of cells of its part
/// afterwards, less the number of those that lay in its part before: products over the dimensions
/// of the lengths of two intervals and of what they have in common.
pub fn cost_law()
    ensures { (g : List ℕ) (before after : List Dimension) → IsCostByLengths g before after }
{}

/// A plan with a certificate leads from source to target, and no list of moves costs less.
pub fn certificate_law()
    ensures { (from to : ShardingValue) (p : Plan) → IsCertificate from to p → IsLeast from to p }
{}

/// From each sharding some moves lead to each other sharding of its shape on its grid: all
/// dimensions are gathered, and then split as the target's. What they cost is below the greatest
/// number of 64 bits.
pub fn reach_law()
    ensures { (from to : ShardingValue) → IsPair from to → Reaches from to }
{}

/// From replication a plan only splits: its moves are `M2` and `M5`, each costs 1, and there are as
/// many as the target needs, one for each uneven dimension and one for each axis of the others. So
/// does any other list of moves that costs least.
pub fn replication_law()
    ensures plan { (from to : ShardingValue) (p : Plan) →
        IsThePlan from to p → OnlySplitsReplicated from to p }
    ensures least { (from to : ShardingValue) (p : Plan) →
        IsLeast from to p → OnlySplitsReplicated from to p }
{}

/// Run in step, the instruction of a move that splits makes the cuts by the one sharding those by
/// the other: along an axis more each device slices its cut, and along the target's axes it takes
/// its part. So do the instructions of a plan from replication, which only splits.
pub fn split_law()
    ensures slices { (w : Width) (s to : ShardingValue) (d a value name : ℕ) →
        IsMoveAt s to (M2 d a) → Reshards w s (moved s to (M2 d a)) (M2 d a) value name }
    ensures takes { (w : Width) (s to : ShardingValue) (d value name : ℕ) →
        IsMoveAt s to (M5 d) → Reshards w s (moved s to (M5 d)) (M5 d) value name }
    ensures plan { (w : Width) (from to : ShardingValue) (p : Plan) (value first : ℕ) →
        IsPlainPlan from to p → IsReplicated from → value < first →
        ReshardsAlong w from to p.moves value first }
{}
