ghost use Rattle.std.specs.Prelude.{All, List, length, ◌≡◌};
ghost use Rattle.sh_base.specs.Shape.{cell_count};
ghost use Rattle.sh_collectives.specs.DeviceForms.{HasNoExchange, IsOfDevice};
ghost use Rattle.sh_turns.specs.Law.{HoldsInEveryOrder};
ghost use Rattle.sh_world.specs.Machine.{IsRunnable, Source, program_of};

/// What holds of whatever devices run, in every order of their turns.
pub fn world_laws()
    ensures { (s : Source) → IsRunnable s → HoldsInEveryOrder (program_of s) }
{}

/// Devices can run a function in device form of a module that keeps the limits and the rules, on its
/// grid, if no instruction exchanges halos: with an argument for each parameter on each device.
pub fn runnable_laws()
    ensures { (s : Source) → IsOfDevice s.function s.grid.extents → HasNoExchange s.function
        → length s.arguments ≡ cell_count s.grid.extents
        → All (λ ts. length ts ≡ length s.function.args) s.arguments → IsRunnable s }
{}
