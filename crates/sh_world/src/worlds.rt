ghost use Rattle.std.specs.Prelude.{◌≡◌, ℕ, ◌++◌, ◌<◌, List, [], ◌∷◌, false, true, IfOk, IsOk, OnErr, length, map};
ghost use Rattle.sh_base.specs.Shape.{cell_count};
ghost use Rattle.sh_turns.specs.declared.Turn.TheVariants.{Posted};
ghost use Rattle.sh_turns.specs.Program.{returned};
ghost use Rattle.sh_turns.specs.World.{can_move, finished, goes_on, turn};
ghost use Rattle.sh_world.specs.History.{history_of};
ghost use Rattle.sh_world.specs.Machine.{AfterTurns, IsRunnable, StandsFor, program_of};
ghost use Rattle.sh_world.specs.Turning.{CanTurn};

use crate::answers::{all_returned, history};
use crate::scripts::{Script, collectives, script_of};
use crate::states::{State, are_over, start_states};
use crate::steps::LocalSteps;
use crate::turning::{able, make_turn};
use sh_base::{Items, Mem};
use sh_grid::Grid;
use sh_ir::Func;
use sh_tensor::Tensor;
use sh_turns::Turn;
use std::alloc::Global;
use std::marker::Model;

/// Tensors in order, as the arguments of a device.
pub type Tensors = Items<Tensor>;

/// The devices of a grid that run a function in device form.
#[derive(Drop)]
pub struct World<'a> {
    script: Script<'a>,
    alloc: Global,
    states: Vec<State>,
}

impl<'a> Model for World<'a> {
    ghost use Rattle.sh_world.specs.Machine.{WorldValue};

    ghost Value = { WorldValue };

    ghost use Rattle.sh_world.specs.Sound.{IsSound, value_of};

    ghost view = { λ w. value_of w.script w.states.items };

    ghost invariant = { λ w. IsSound w.script w.states.items };
}

impl<'a> World<'a> {
    /// The world before any turn, where each device has the arguments of its row. It reserves all
    /// room for posts.
    ///
    /// Errors: `Mem` where memory is wanting.
    pub fn start(
        alloc: Global,
        func: &'a Func,
        grid: &'a Grid,
        arguments: Vec<Tensors>,
    ) -> Result<World<'a>, Mem>
        requires runnable { IsRunnable (record {
          function = func.now;
          grid = grid.now;
          arguments = arguments.items;
        }) }
        ensures source { IfOk result (λ w. w.source ≡ record {
          function = func.now;
          grid = grid.now;
          arguments = arguments.items;
        }) }
        ensures fresh { IfOk result (λ w. StandsFor w []) }
    {
        let script = script_of(alloc, func, grid)?;
        let states = start_states(
            alloc,
            arguments,
            collectives(script.instructions.as_slice()),
        )?;
        Ok(World {
            script,
            alloc,
            states,
        })
    }

    /// Whether a device can move: its next instruction is local, or is a collective that it hasn't
    /// posted, or it waits and each member of its group has at least as many posts as it has. It
    /// takes no memory.
    pub fn can_move(&self, device: u64) -> bool
        requires { device < cell_count self.now.source.grid.extents }
        ensures { AfterTurns self.now
            (λ w. result ≡ can_move (program_of self.now.source) w device) }
    {
        able(self.alloc, &self.script, self.states.as_slice(), device)
    }

    /// Makes a turn of a device that can move. A turn that posts takes no memory.
    ///
    /// Errors: `Mem` where memory is wanting. After it, and after a turn that is stuck or a
    /// mismatch, the world is as it was.
    pub fn turn<S: LocalSteps>(&mut self, steps: &S, device: u64) -> Result<Turn, Mem>
        requires device { device < cell_count self.old.source.grid.extents }
        requires moves { AfterTurns self.old
            (λ w. can_move (program_of self.old.source) w device ≡ true) }
        requires can { AfterTurns self.old (λ w. CanTurn S.can self.old.source w device) }
        ensures source { self.new.source ≡ self.old.source }
        ensures kind { IfOk result (λ t. AfterTurns self.old
            (λ w. t ≡ turn (program_of self.old.source) w device)) }
        ensures goes { IfOk result (λ t. goes_on t ≡ true → (turns : List ℕ)
            → StandsFor self.old turns → StandsFor self.new (turns ++ device ∷ [])) }
        ensures stays { IfOk result (λ t. goes_on t ≡ false → self.new ≡ self.old) }
        ensures posted { AfterTurns self.old
            (λ w. turn (program_of self.old.source) w device ≡ Posted → IsOk result) }
        ensures err { OnErr result (self.new ≡ self.old) }
    {
        make_turn(
            self.alloc,
            steps,
            &self.script,
            self.states.as_mut_slice(),
            device,
        )
    }

    /// Whether no device has a next instruction. It takes no memory.
    pub fn finished(&self) -> bool
        ensures { AfterTurns self.now (λ w. result ≡ finished (program_of self.now.source) w) }
    {
        are_over(self.states.as_slice(), self.script.instructions.len())
    }

    /// Copies of the results of each device, as far as it has them; a finished world has all.
    ///
    /// Errors: `Mem` where memory is wanting.
    pub fn results(&self) -> Result<Vec<Tensors>, Mem>
        ensures { IfOk result (λ rows. AfterTurns self.now (λ w. rows.items
            ≡ map (λ d. returned (program_of self.now.source) d.values) w)) }
    {
        all_returned(
            self.alloc,
            self.states.as_slice(),
            self.script.results.as_slice(),
        )
    }

    /// The history sum of all values but the arguments. It takes no memory.
    pub fn history(&self) -> u64
        ensures { AfterTurns self.now
            (λ w. result ≡ history_of (length self.now.source.function.args) w) }
    {
        history(self.script.arity, self.states.as_slice())
    }
}
