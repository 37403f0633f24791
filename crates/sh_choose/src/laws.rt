ghost use Rattle.std.specs.Prelude.{◌≡◌, ◌↔◌, IsTrue, List};
ghost use Rattle.sh_grid.specs.Grid.{GridValue};
ghost use Rattle.sh_iface.specs.LoopNest.{LoopNest};
ghost use Rattle.sh_iface.specs.Splits.{OptionValue};
ghost use Rattle.sh_sharding.specs.Normal.{IsSame};
ghost use Rattle.sh_sharding.specs.Sharding.{ShardingValue};
ghost use Rattle.sh_choose.specs.declared.chosen.Known.{Known};
ghost use Rattle.sh_choose.specs.Least.{IsLeast};
ghost use Rattle.sh_choose.specs.Weights.{is_same};

/// An operation has one least option; and shardings on one grid are counted as the same exactly
/// where they are.
pub fn least_laws()
    ensures one { (nest : LoopNest) (g : GridValue) (known : List Known) (o p : OptionValue)
        → IsLeast nest g known o → IsLeast nest g known p → o ≡ p }
    ensures same { (a b : ShardingValue) → a.grid ≡ b.grid → IsTrue (is_same a b) ↔ IsSame a b }
{}
