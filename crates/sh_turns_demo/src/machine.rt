ghost use Rattle.std.specs.Prelude.{◌≡◌, ℕ, ◌+◌, ◌<◌, ◌^◌, List, length, map, true, Option, IfOk, OnOk, OnErr, slice_get, option_and_then, nat_le, slice_index_or, ◌-◌};
ghost use Rattle.std.specs.List.{list_all};
ghost use Rattle.sh_turns.specs.Program.{all_there, there};
ghost use Rattle.sh_turns.specs.World.{Device, local_turn, post_turn, take_turn, device_at, posted_for, can_go, can_move, finished, turn, turn_of, after, with_value, with_post, no_longer_waiting, taken};
ghost use Rattle.sh_turns_demo.specs.Plain.{program_of, sum_within};
ghost use Rattle.sh_turns_demo.specs.Step.{step_of};

use crate::plain::{Numbers, Plain, checked_sum, value_at};
use sh_turns::Turn;
use std::alloc::{AllocError, Global};
use std::marker::Model;

/// A post: the instruction, and the operand.
#[derive(Drop)]
pub struct Post {
    instruction: usize,
    operand: usize,
}

impl Model for Post {
    ghost use Rattle.std.specs.Prelude.{ℕ};

    ghost Value = { ℕ × ℕ };

    ghost view = { λ post. (post.instruction, post.operand) };
}

/// A device. Any plain data will do.
#[derive(Drop)]
pub struct State {
    values: Vec<usize>,
    next: usize,
    waits: bool,
    posts: Vec<Post>,
}

impl Model for State {
    ghost use Rattle.std.specs.Prelude.{ℕ};
    ghost use Rattle.sh_turns.specs.World.{Device};

    ghost Value = { Device ℕ };

    ghost view = { λ d. record { values = d.values.items; next = d.next; waits = d.waits; posts = d.posts.items } };
}

impl State {
    ghost use Rattle.sh_turns.specs.World.{fresh};

    /// A device before its first turn.
    pub fn new(alloc: Global, arguments: Vec<usize>) -> State
        ensures { result ≡ fresh arguments.items }
    {
        State {
            values: arguments,
            next: 0,
            waits: false,
            posts: Vec::new(alloc),
        }
    }

    /// Its arguments, and a value for each instruction that it has passed.
    pub fn values(&self) -> &[usize]
        ensures { result.now ≡ self.now.values }
    {
        self.values.as_slice()
    }

    /// The operand in the post with this number, if that is a post of this instruction.
    fn posted(&self, instruction: usize, number: usize) -> Option<usize>
        ensures { result ≡ posted_for instruction (slice_get self.now.posts number) }
    {
        let post = self.posts.get(number)?;
        if post.instruction != instruction {
            return None;
        }
        Some(post.operand)
    }

    /// Appends the value of the next instruction.
    fn append(&mut self, value: usize) -> Result<(), AllocError>
        requires { self.old.next + 1 < 2 ^ 64 }
        ensures ok { OnOk result (self.new ≡ with_value self.old value) }
        ensures err { OnErr result (self.new ≡ self.old) }
    {
        self.values.push(value)?;
        self.next += 1;
        Ok(())
    }

    /// Takes the value of the next instruction.
    fn take(&mut self, value: usize) -> Result<(), AllocError>
        requires { self.old.next + 1 < 2 ^ 64 }
        ensures ok { OnOk result (self.new ≡ no_longer_waiting (with_value self.old value)) }
        ensures err { OnErr result (self.new ≡ self.old) }
    {
        self.append(value)?;
        self.waits = false;
        Ok(())
    }

    /// Posts the operand of the next instruction.
    fn post(&mut self, operand: usize) -> Result<(), AllocError>
        ensures ok { OnOk result (self.new ≡ with_post self.old operand) }
        ensures err { OnErr result (self.new ≡ self.old) }
    {
        let post = Post {
            instruction: self.next,
            operand,
        };
        self.posts.push(post)?;
        self.waits = true;
        Ok(())
    }

    /// Does what the step says, and answers what the turn was.
    fn make(&mut self, step: Step) -> Result<Turn, AllocError>
        requires { self.old.next + 1 < 2 ^ 64 }
        ensures ok { IfOk result (λ t. step_of self.old step ≡ (t, self.new)) }
        ensures err { OnErr result (self.new ≡ self.old) }
    {
        match step {
            Step::Append(value) => {
                self.append(value)?;
                Ok(Turn::Local)
            }
            Step::Take(value) => {
                self.take(value)?;
                Ok(Turn::Took)
            }
            Step::Post(operand) => {
                self.post(operand)?;
                Ok(Turn::Posted)
            }
            Step::Stop(turn) => Ok(turn),
        }
    }
}

/// How many posts a device has. One that isn't there has none.
fn post_count(world: &[State], device: usize) -> usize
    ensures { result ≡ length (device_at world.now device).posts }
{
    match world.get(device) {
        None => 0,
        Some(state) => state.posts.len(),
    }
}

/// Whether each member has at least this many posts.
fn all_posted(world: &[State], members: &[usize], count: usize) -> bool
    ensures { result ≡ list_all (λ m. nat_le count (length (device_at world.now m).posts)) members.now }
{
    for member in members {
        if post_count(world, *member) < count {
            return false;
        }
    }
    true
}

/// Whether a device in this state can move.
#[tactic(auto, unfolding(crate::specs::Plain::is_collective_at, crate::specs::Plain::members_at))]
fn can_go(program: &Plain, world: &[State], device: usize, state: &State) -> bool
    ensures { result ≡ can_go (program_of program.now) world.now device state.now }
{
    let Some(instruction) = program.instructions.get(state.next) else {
        return false;
    };
    if !instruction.is_collective() || !state.waits {
        return true;
    }
    all_posted(world, instruction.members(device), state.posts.len())
}

/// Whether a device can move.
pub fn can_move(program: &Plain, world: &[State], device: usize) -> bool
    ensures { result ≡ can_move (program_of program.now) world.now device }
{
    match world.get(device) {
        None => false,
        Some(state) => can_go(program, world, device, state),
    }
}

/// Whether no device has a next instruction.
pub fn finished(program: &Plain, world: &[State]) -> bool
    ensures { result ≡ finished (program_of program.now) world.now }
{
    let size = program.instructions.len();
    world.iter().all(|state| state.next >= size)
}

/// The operand in a device's post with this number, if that is a post of this instruction.
fn posted_at(world: &[State], device: usize, instruction: usize, number: usize) -> Option<usize>
    ensures { result ≡ posted_for instruction (slice_get (device_at world.now device).posts number) }
{
    let state = world.get(device)?;
    state.posted(instruction, number)
}

/// The operands in the members' posts with this number, if each is a post of this instruction.
fn gathered(
    alloc: Global,
    world: &[State],
    members: &[usize],
    instruction: usize,
    number: usize,
) -> Result<Option<Numbers>, AllocError>
    ensures { IfOk result (λ o. o ≡ all_there (map (λ m. posted_for instruction (slice_get (device_at world.now m).posts number)) members.now)) }
{
    let mut operands = Vec::new(alloc);
    for member in members {
        let Some(operand) = posted_at(world, *member, instruction, number) else {
            return Ok(None);
        };
        operands.push(operand)?;
    }
    Ok(Some(Numbers::from_vec(operands)))
}

/// The sum of the operands in those posts. None where a post is another instruction's, or the sum doesn't fit.
fn reduced(
    alloc: Global,
    world: &[State],
    members: &[usize],
    instruction: usize,
    number: usize,
) -> Result<Option<usize>, AllocError>
    ensures { IfOk result (λ o. o ≡ option_and_then sum_within (all_there (map (λ m. posted_for instruction (slice_get (device_at world.now m).posts number)) members.now))) }
{
    match gathered(alloc, world, members, instruction, number)? {
        None => Ok(None),
        Some(operands) => Ok(checked_sum(operands.as_slice())),
    }
}

/// What the next turn of a device does.
#[derive(Clone, Copy, Debug, PartialEq, Eq)]
enum Step {
    /// It has the value of a local instruction.
    Append(usize),
    /// It takes the value of a collective.
    Take(usize),
    /// It posts an operand.
    Post(usize),
    /// It is stuck or a mismatch.
    Stop(Turn),
}

fn local_step(value: Option<usize>) -> Step
    ensures { (d : Device ℕ) → local_turn d value ≡ step_of d result }
{
    match value {
        None => Step::Stop(Turn::Stuck),
        Some(value) => Step::Append(value),
    }
}

fn post_step(operand: Option<usize>) -> Step
    ensures { (d : Device ℕ) → post_turn d operand ≡ step_of d result }
{
    match operand {
        None => Step::Stop(Turn::Stuck),
        Some(operand) => Step::Post(operand),
    }
}

fn take_step(value: Option<usize>) -> Step
    ensures { (d : Device ℕ) → take_turn d value ≡ step_of d result }
{
    match value {
        None => Step::Stop(Turn::Mismatch),
        Some(value) => Step::Take(value),
    }
}

/// What the next turn of a device in this state does.
fn next_step(
    alloc: Global,
    program: &Plain,
    world: &[State],
    device: usize,
    state: &State,
) -> Result<Step, AllocError>
    requires { state.now.next < length program.now.instructions.items }
    ensures { IfOk result (λ step. turn_of (program_of program.now) world.now device state.now ≡ step_of state.now step) }
{
    let instruction = &program.instructions[state.next];
    if !instruction.is_collective() {
        return Ok(local_step(instruction.local(state.values.as_slice())));
    }
    if !state.waits {
        return Ok(post_step(instruction.operand(state.values.as_slice())));
    }
    let number = state.posts.len().saturating_sub(1);
    let value = reduced(
        alloc,
        world,
        instruction.members(device),
        state.next,
        number,
    )?;
    Ok(take_step(value))
}

/// A turn of a device that can move.
pub fn turn(
    alloc: Global,
    program: &Plain,
    world: &mut [State],
    device: usize,
) -> Result<Turn, AllocError>
    requires { can_move (program_of program.now) world.old device ≡ true }
    ensures kind { IfOk result (λ t. t ≡ turn (program_of program.now) world.old device) }
    ensures after { OnOk result (world.new ≡ after (program_of program.now) world.old device) }
    ensures err { OnErr result (world.new ≡ world.old) }
{
    let now = &world[..];
    let step = next_step(alloc, program, now, device, &now[device])?;
    world[device].make(step)
}

ghost use Rattle.sh_turns.specs.Program.{returned};
ghost use Rattle.sh_turns.specs.World.{start};

/// The world before any turn.
pub fn start(alloc: Global, program: &Plain) -> Result<Vec<State>, AllocError>
    ensures { IfOk result (λ w. w.items ≡ start (program_of program.now)) }
{
    let mut world = Vec::new(alloc);
    for arguments in &program.arguments {
        let values = arguments.as_slice().to_vec(alloc)?;
        world.push(State::new(alloc, values))?;
    }
    Ok(world)
}

/// What a device with these values returns.
pub fn results(alloc: Global, program: &Plain, values: &[usize]) -> Result<Vec<usize>, AllocError>
    ensures { IfOk result (λ r. r.items ≡ returned (program_of program.now) values.now) }
{
    program
        .results
        .iter()
        .filter_map(|place| value_at(values, *place))
        .collect(alloc)
}
