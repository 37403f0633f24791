use crate::operations::Ops;
use crate::types::{RawSharding, Types, ValueType};
use sh_base::{Items, Place, Text};

/// A parameter of a function.
#[derive(Drop)]
pub struct Arg {
    /// The name of its value.
    pub id: u32,
    pub value_type: ValueType,
}

/// The parameters of a function in order.
pub type Args = Items<Arg>;

/// How a whole tensor is cut over the devices: `tensor<4xi32> split_axes = [[0]]`.
#[derive(Drop)]
pub struct Cut {
    /// The type of the whole tensor. A text may write a scalar type here, which the verifier refuses.
    pub whole: ValueType,
    /// The sharding, on the grid of the [`Carry`] that holds this.
    pub sharding: RawSharding,
}

/// Cuts in the order of the values that they are said of.
pub type Cuts = Items<Cut>;

/// What a `shardrun.device` item says of the function that follows it: the grid that it runs on, and
/// of which whole tensors its arguments and results are the parts.
#[derive(Drop)]
pub struct Carry {
    pub grid: Text,
    pub args: Cuts,
    pub results: Cuts,
}

/// A function. It is in device form where it carries cuts, and in source form else.
#[derive(Drop)]
pub struct Func {
    pub name: Text,
    /// Whether it is written `private`.
    pub private: bool,
    pub args: Args,
    /// The written result types.
    pub results: Types,
    pub ops: Ops,
    pub carry: Option<Carry>,
    /// Where it stands; in device form, where its `shardrun.device` item stands.
    pub place: Place,
}

/// Functions in the order of a module.
pub type Funcs = Items<Func>;

/// A note: what one `shard.shard` says of a value.
#[derive(Drop)]
pub struct Note {
    pub value: u32,
    pub sharding: RawSharding,
    /// Whether it is `annotate_for_users`; the others are the defining notes.
    pub for_users: bool,
}

/// Notes in the order of a text.
pub type Notes = Items<Note>;
