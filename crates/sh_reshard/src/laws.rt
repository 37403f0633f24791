ghost use Rattle.std.specs.Prelude.{ℕ, ◌<◌};
ghost use Rattle.std.specs.List.{AllByRecursion};
ghost use Rattle.sh_base.specs.declared.numbers.Width.{Width};
ghost use Rattle.sh_ir.specs.Scope.{Scope};
ghost use Rattle.sh_sharding.specs.Sharding.{ShardingValue};
ghost use Rattle.sh_plan.specs.declared.moves.Move.{Move};
ghost use Rattle.sh_plan.specs.declared.plans.Plan.{Plan};
ghost use Rattle.sh_plan.specs.Instructions.{IsMoveAt, IsPlainPlan, Reshards, ReshardsAlong};
ghost use Rattle.sh_plan.specs.Moves.{moved};
ghost use Rattle.sh_plan.specs.States.{IsStateTo};
ghost use Rattle.sh_reshard.specs.Soundness.{AreSound, IsReshardScope, states_along};

/// Run in step, the instruction of a move makes the cuts by the one sharding those by the other, of
/// every tensor that the sharding is of; and the instructions of a plan make the cuts by the source
/// those by the target.
pub fn reshard_laws()
    ensures moves { (w : Width) (s to : ShardingValue) (m : Move) (value name : ℕ) →
        IsMoveAt s to m → Reshards w s (moved s to m) m value name }
    ensures plans { (w : Width) (from to : ShardingValue) (p : Plan) (value first : ℕ) →
        IsPlainPlan from to p → value < first → ReshardsAlong w from to p.moves value first }
{}

/// The instructions of a plan keep all limits and rules where they stand behind a value of local
/// tensors by the source, and leave one by the target. Each value on the way is a cut by an admitted
/// sharding without halos, so that no device holds more cells than the limit.
pub fn soundness_laws()
    ensures sound { (w : Width) (from to : ShardingValue) (p : Plan) (value first : ℕ)
        (scope : Scope) → IsPlainPlan from to p → IsReshardScope w from value first scope
        → AreSound w to from p.moves value first scope }
    ensures small { (from to : ShardingValue) (p : Plan) → IsPlainPlan from to p
        → AllByRecursion (IsStateTo to) (states_along to from p.moves) }
{}
