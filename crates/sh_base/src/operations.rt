/// A two-operand element operation of the `arith` dialect, under its name there.
#[derive(Clone, Copy, Debug, PartialEq, Eq)]
pub enum BinOp {
    Addi,
    Subi,
    Muli,
    Divui,
    Divsi,
    Remui,
    Remsi,
    Andi,
    Ori,
    Xori,
    Maxsi,
    Minsi,
    Maxui,
    Minui,
    Shli,
    Shrui,
    Shrsi,
}

/// What `arith.cmpi` asks of its operands.
#[derive(Clone, Copy, Debug, PartialEq, Eq)]
pub enum Predicate {
    Eq,
    Ne,
    Slt,
    Sle,
    Sgt,
    Sge,
    Ult,
    Ule,
    Ugt,
    Uge,
}

/// A cast of the `arith` dialect between integer widths.
#[derive(Clone, Copy, Debug, PartialEq, Eq)]
pub enum CastOp {
    Extsi,
    Extui,
    Trunci,
}

/// How a collective combines cells: the `reduction` of the `shard` dialect, in its signed kinds.
#[derive(Clone, Copy, Debug, PartialEq, Eq)]
pub enum Kind {
    Sum,
    Product,
    Max,
    Min,
    And,
    Or,
    Xor,
}
