use crate::arith_ops::Constant;
use crate::functions::Funcs;
use sh_base::{Items, Numbers, Place, Text};

/// The arguments of a call item in order.
pub type Constants = Items<Constant>;

/// An item `shardrun.call @f(dense<1> : tensor<4xi32>)`: arguments to run a function on.
#[derive(Drop)]
pub struct CallItem {
    pub callee: Text,
    pub args: Constants,
    pub place: Place,
}

/// Call items in the order of a module.
pub type CallItems = Items<CallItem>;

/// An item `shard.grid @g(shape = 2x4)`: a grid of devices, numbered row-major.
#[derive(Drop)]
pub struct GridItem {
    pub name: Text,
    /// The number of devices along each axis.
    pub extents: Numbers,
    pub place: Place,
}

/// Grids in the order of a module.
pub type GridItems = Items<GridItem>;

/// A whole text. Between items of two kinds it keeps no order.
#[derive(Drop)]
pub struct Module {
    /// The name after `module`, where one is written.
    pub name: Option<Text>,
    pub grids: GridItems,
    pub funcs: Funcs,
    pub calls: CallItems,
}
