ghost use Rattle.std.specs.Prelude.{◌≡◌, ◌+◌, ◌^◌, ◌<◌, ◌≤◌, All, IfOk, OnErr, OnOk, length, map, nat_le, slice_get, vec_capacity, vec_len};
ghost use Rattle.std.specs.List.{list_all};
ghost use Rattle.std.specs.Option.{option_copied};
ghost use Rattle.sh_turns.specs.World.{fresh, no_longer_waiting, posted_for, with_post, with_value};

use sh_base::{Items, Mem};
use sh_tensor::Tensor;
use std::alloc::Global;

/// A post: the instruction, and the place of what the device posts among its values.
#[derive(Clone, Copy)]
pub(crate) struct Post {
    pub(crate) instruction: usize,
    pub(crate) place: usize,
}

/// A device. Its values are its arguments, then one value for each instruction that it has passed.
#[derive(Drop)]
pub(crate) struct State {
    pub(crate) values: Vec<Tensor>,
    /// The number of its next instruction.
    pub(crate) next: usize,
    pub(crate) waits: bool,
    pub(crate) posts: Vec<Post>,
}

impl State {
    ghost use Rattle.sh_world.specs.States.{HasPosted, device_of, tensor_at};

    /// The tensor in the post with this number, if the post names this instruction.
    pub(crate) fn posted(&self, instruction: usize, number: usize) -> Option<&Tensor>
        requires { HasPosted self.now }
        ensures { option_copied result
            ≡ posted_for instruction (slice_get (device_of self.now).posts number) }
    {
        if number >= self.posts.len() {
            return None;
        }
        let post = self.posts[number];
        if post.instruction != instruction {
            return None;
        }
        Some(&self.values[post.place])
    }

    /// How many posts it has made.
    pub(crate) fn post_count(&self) -> usize
        ensures { result ≡ length (device_of self.now).posts }
    {
        self.posts.len()
    }

    /// Appends the value of its next instruction.
    pub(crate) fn append(&mut self, t: Tensor) -> Result<(), Mem>
        requires next { self.old.next + 1 < 2 ^ 64 }
        requires posted { HasPosted self.old }
        ensures ok { OnOk result (device_of self.new ≡ with_value (device_of self.old) t) }
        ensures posted { HasPosted self.new }
        ensures room { vec_capacity self.new.posts ≡ vec_capacity self.old.posts }
        ensures err { OnErr result (device_of self.new ≡ device_of self.old) }
    {
        self.values.push(t)?;
        self.next += 1;
        Ok(())
    }

    /// Takes the value of the collective at which it waits.
    pub(crate) fn take(&mut self, t: Tensor) -> Result<(), Mem>
        requires next { self.old.next + 1 < 2 ^ 64 }
        requires posted { HasPosted self.old }
        ensures ok { OnOk result
            (device_of self.new ≡ no_longer_waiting (with_value (device_of self.old) t)) }
        ensures posted { HasPosted self.new }
        ensures room { vec_capacity self.new.posts ≡ vec_capacity self.old.posts }
        ensures err { OnErr result (device_of self.new ≡ device_of self.old) }
    {
        self.append(t)?;
        self.waits = false;
        Ok(())
    }

    /// Posts a value. It takes no memory, since the room for all posts is there.
    pub(crate) fn post(&mut self, place: usize)
        requires place { place < length self.old.values.items }
        requires posted { HasPosted self.old }
        requires room { vec_len self.old.posts < vec_capacity self.old.posts }
        ensures after { device_of self.new
            ≡ with_post (device_of self.old) (tensor_at self.old.values.items place) }
        ensures posted { HasPosted self.new }
        ensures room { vec_capacity self.old.posts ≤ vec_capacity self.new.posts }
    {
        let post = Post {
            instruction: self.next,
            place,
        };
        let Ok(()) = self.posts.push(post) else {
            unreachable!();
        };
        self.waits = true;
    }
}

ghost use Rattle.sh_world.specs.States.{HasPosted, HasRoom, device_of};

/// Devices before any turn, with these arguments and room for so many posts.
pub(crate) fn start_states(
    alloc: Global,
    arguments: Vec<Items<Tensor>>,
    posts: usize,
) -> Result<Vec<State>, Mem>
    ensures values { IfOk result (λ states. map (λ s. s.values.items) states.items
        ≡ arguments.items) }
    ensures devices { IfOk result (λ states. map device_of states.items
        ≡ map fresh arguments.items) }
    ensures posted { IfOk result (λ states. All HasPosted states.items) }
    ensures room { IfOk result (λ states. All (HasRoom posts) states.items) }
{
    let mut states: Vec<State> = Vec::with_capacity(alloc, arguments.len())?;
    for row in arguments {
        states.push(State {
            values: row.into_vec(),
            next: 0,
            waits: false,
            posts: Vec::with_capacity(alloc, posts)?,
        })?;
    }
    Ok(states)
}

/// Whether each device has passed so many instructions.
pub(crate) fn are_over(states: &[State], size: usize) -> bool
    ensures { result ≡ list_all (λ s. nat_le size s.next) states.now }
{
    states.iter().all(|s| s.next >= size)
}
