//! The types of a module: what the text of a tensor program stands for, as plain values.
//!
//! A [`Module`] has grids, functions and call items. A [`Func`] is a list of [`Op`]s, and what an
//! operation is stands in its [`OpKind`]: one variant for each operation of the language, with the
//! attributes, the operand types and the region that its text writes. No type holds itself.
//!
//! Every type can be copied whole ([`sh_base::Duplicate`]) and compared ([`sh_base::Same`]). What a
//! reader promises of a module, that it is *formed*, is defined in `specs/Formed.antt`.
#![tactic(auto)]

mod arith_ops;
mod bodies;
mod calls;
mod classification;
mod copies;
mod functions;
mod linalg_ops;
mod modules;
mod operations;
mod sameness;
mod shard_ops;
mod tensor_ops;
mod types;

pub use arith_ops::{Cast, Compare, Constant, Contents, Select};
pub use bodies::{Body, BodyKind, BodyOp, BodyOps, Index};
pub use calls::Call;
pub use classification::OpClass;
pub use copies::copy_module;
pub use functions::{Arg, Args, Carry, Cut, Cuts, Func, Funcs, Note, Notes};
pub use linalg_ops::{
    AffineMap, AffineMaps, Broadcast, Generic, InsOuts, IteratorType, IteratorTypes, Reduce,
    Transpose,
};
pub use modules::{CallItem, CallItems, Constants, GridItem, GridItems, Module};
pub use operations::{Op, OpKind, Ops, Return, push_op};
pub use shard_ops::{
    AllGather, AllReduce, AllSlice, AllToAll, GridAxes, Join, Pad, ReduceScatter, Shard, Shift,
    Take, UpdateHalo,
};
pub use tensor_ops::{CollapseShape, ExpandShape, ExtractSlice, InsertSlice, Slice};
pub use types::{Dim, Dims, RawSharding, TensorType, Types, ValueType};
