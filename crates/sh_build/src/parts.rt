use crate::boxed::Boxed;
use sh_base::{BinOp, CastOp, Ids, Kind, Numbers, Place, Predicate, Text, Width};
use sh_ir::{
    AffineMap, Arg, BodyKind, BodyOp, CallItem, Carry, Constant, Cut, Dim, Func, GridAxes,
    GridItem, IteratorType, Module, Op, OpKind, Types, ValueType,
};
use sh_literals::{Literal, Rest};

/// Where a word, a sign or a value's name stands.
#[derive(Clone, Copy)]
pub struct Mark {
    /// The number of the name, where it is one: the id of a value, the loop of a map's word.
    pub id: u32,
    pub place: Place,
}

/// A `#name`, with the map that it is an alias of.
#[derive(Drop)]
pub struct Alias {
    pub name: Text,
    pub map: AffineMap,
}

/// Names of values, and types: `%a, %b : T, U`.
#[derive(Drop)]
pub struct Operands {
    pub values: Ids,
    pub types: Types,
}

/// A `shardrun.device` item.
#[derive(Drop)]
pub struct Device {
    /// The function that it is said of.
    pub name: Text,
    pub carry: Carry,
    pub place: Place,
}

/// A structured operation that has no attributes.
#[derive(Clone, Copy)]
pub enum StructuredName {
    Fill,
    Matmul,
    BatchMatmul,
    Matvec,
    Vecmat,
    Dot,
    Conv1d,
    Conv2d,
}

/// The operation of a short `linalg.reduce`.
#[derive(Clone, Copy)]
pub struct Combiner {
    pub op: BinOp,
    /// Where it stands, and the first of its three names.
    pub mark: Mark,
}

/// An operation of a region without its name.
#[derive(Drop)]
pub struct Arith {
    pub kind: BodyKind,
    pub operands: Ids,
    pub result: ValueType,
}

/// An operation of a function without its name.
#[derive(Drop)]
pub struct RightSide {
    pub kind: OpKind,
    pub operands: Ids,
    pub result: ValueType,
}

/// The operations of a region, or the last of them, and its yield.
#[derive(Drop)]
pub struct BodyTail {
    pub ops: Rest<BodyOp>,
    pub yields: u32,
    pub width: Width,
    /// Where the yield stands.
    pub place: Place,
}

/// The items of a module.
#[derive(Drop)]
pub struct Contents {
    pub grids: Rest<GridItem>,
    pub funcs: Rest<Func>,
    pub calls: Rest<CallItem>,
}

/// What a piece of a text stands for: a token, or a form of the grammar.
#[derive(Drop)]
pub enum Part {
    /// What no piece of a file stands for.
    Nothing,

    // tokens
    Mark(Mark),
    /// A name behind `@`.
    Symbol(Text),
    /// A name behind `#`.
    Alias(Alias),
    Number(u64),
    Dim(Dim),
    /// The bytes between quotes.
    Quoted(Text),

    // what several forms stand for
    Flag(bool),
    Signed(i128),
    Numbers(Rest<i128>),
    Lists(Rest<Numbers>),
    Ids(Rest<u32>),
    Width(Width),
    Type(ValueType),
    Types(Rest<ValueType>),
    Dims(Rest<Dim>),
    Operands(Operands),
    Map(AffineMap),
    Maps(Rest<AffineMap>),
    Iterators(Rest<IteratorType>),
    On(GridAxes),
    Literal(Literal),
    Constant(Boxed<Constant>),
    Constants(Rest<Constant>),
    Arg(Boxed<Arg>),
    Args(Rest<Arg>),
    Cut(Boxed<Cut>),
    Cuts(Rest<Cut>),

    // names of operations
    BinOp(BinOp),
    Predicate(Predicate),
    CastOp(CastOp),
    Structured(StructuredName),
    Kind(Kind),
    Combiner(Combiner),

    // operations
    Arith(Boxed<Arith>),
    RightSide(Boxed<RightSide>),
    BodyOp(Boxed<BodyOp>),
    BodyTail(BodyTail),
    Op(Boxed<Op>),
    Ops(Rest<Op>),

    // items
    Aliases(Rest<Alias>),
    Device(Boxed<Device>),
    ModuleName(Option<Text>),
    Grid(Boxed<GridItem>),
    Func(Boxed<Func>),
    Call(Boxed<CallItem>),
    Contents(Contents),
    Module(Boxed<Module>),
}
