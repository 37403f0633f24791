//! Programs in pieces: instructions that name their operands and values, lists of them that run in
//! step, and what pieces promise so that they compose. `docs/PIECES.md` says it in plain words.
#![tactic(auto)]

ghost use Rattle.std.specs.Prelude.{◌≡◌, ◌↔◌, ℕ, ◌<◌, Bool, List, ◌++◌, map};
ghost use Rattle.sh_pieces.specs.Instructions.{Semantics, HasGroups, DeviceFunction, State, program_by_names};
ghost use Rattle.sh_pieces.specs.Runs.{state_after, Runs, HaveArguments, DefinesFrom, ReadsOnly, AgreeOn, IsWithin};
ghost use Rattle.sh_pieces.specs.Renaming.{renamed_back, StayApart, AreRenamed, IsRenamedFunction};
ghost use Rattle.sh_pieces.specs.Laws.{IsByNames};

/// Two lists of instructions run one after the other exactly where the first runs and the second
/// runs on the values after it.
pub fn one_after_the_other<V, I>()
    ensures values { (sem : Semantics V I) (is js : List I) (s : State V)
        → state_after sem (is ++ js) s ≡ state_after sem js (state_after sem is s) }
    ensures runs { (sem : Semantics V I) (is js : List I) (s : State V)
        → Runs sem (is ++ js) s ↔ (Runs sem is s × Runs sem js (state_after sem is s)) }
{}

/// The names below those that instructions define keep their values.
pub fn older_names<V, I>()
    ensures { (sem : Semantics V I) (is : List I) (s : State V) (base c name : ℕ)
        → DefinesFrom sem base is → name < base → state_after sem is s c name ≡ s c name }
{}

/// Values that no instruction reads don't matter.
pub fn names_not_read<V, I>()
    ensures values { (sem : Semantics V I) (is : List I) (s t : State V) (test : ℕ → Bool)
        → HasGroups sem → ReadsOnly sem test is → AgreeOn sem test s t
        → AgreeOn sem test (state_after sem is s) (state_after sem is t) }
    ensures runs { (sem : Semantics V I) (is : List I) (s t : State V) (test : ℕ → Bool)
        → HasGroups sem → ReadsOnly sem test is → AgreeOn sem test s t
        → Runs sem is s → Runs sem is t }
{}

/// Where there are more values, instructions that run give the same.
pub fn more_names<V, I>()
    ensures values { (sem : Semantics V I) (is : List I) (s t : State V) → HasGroups sem
        → IsWithin sem s t → IsWithin sem (state_after sem is s) (state_after sem is t) }
    ensures runs { (sem : Semantics V I) (is : List I) (s t : State V) → HasGroups sem
        → IsWithin sem s t → Runs sem is s → Runs sem is t }
{}

/// Under other names instructions do the same, wherever what they define keeps a name of its own;
/// and a function under other names is the same program.
pub fn other_names<V, I>()
    ensures values { (sem : Semantics V I) (r : ℕ → ℕ) (is js : List I) (s : State V)
        → AreRenamed sem r is js → StayApart r (map sem.defines is)
        → state_after sem is (renamed_back r s) ≡ renamed_back r (state_after sem js s) }
    ensures runs { (sem : Semantics V I) (r : ℕ → ℕ) (is js : List I) (s : State V)
        → AreRenamed sem r is js → StayApart r (map sem.defines is)
        → Runs sem is (renamed_back r s) ↔ Runs sem js s }
    ensures program { (sem : Semantics V I) (r : ℕ → ℕ) (f g : DeviceFunction I)
        (arguments : ℕ → List V) → IsRenamedFunction sem r f g
        → program_by_names sem g arguments ≡ program_by_names sem f arguments }
{}

/// What a function does by the machine of turns is what its instructions do by names.
pub fn by_names<V, I>()
    ensures { (sem : Semantics V I) (f : DeviceFunction I) (arguments : ℕ → List V)
        → HasGroups sem → HaveArguments sem f.parameters arguments
        → IsByNames sem f arguments (program_by_names sem f arguments) }
{}
