ghost use Rattle.std.specs.Prelude.{◌≡◌};
ghost use Rattle.sh_print.specs.Words as words;

use sh_base::{BinOp, CastOp, Kind, Predicate, Width};
use sh_ir::IteratorType;

/// The word of a width.
pub(crate) fn width_word(width: Width) -> &'static str
    ensures { result.now ≡ words.width_word width }
{
    match width {
        Width::I1 => "i1",
        Width::I8 => "i8",
        Width::I16 => "i16",
        Width::I32 => "i32",
        Width::I64 => "i64",
    }
}

/// The word of an operation on two operands.
pub(crate) fn binary_word(op: BinOp) -> &'static str
    ensures { result.now ≡ words.binary_word op }
{
    match op {
        BinOp::Addi => "arith.addi",
        BinOp::Subi => "arith.subi",
        BinOp::Muli => "arith.muli",
        BinOp::Divui => "arith.divui",
        BinOp::Divsi => "arith.divsi",
        BinOp::Remui => "arith.remui",
        BinOp::Remsi => "arith.remsi",
        BinOp::Andi => "arith.andi",
        BinOp::Ori => "arith.ori",
        BinOp::Xori => "arith.xori",
        BinOp::Maxsi => "arith.maxsi",
        BinOp::Minsi => "arith.minsi",
        BinOp::Maxui => "arith.maxui",
        BinOp::Minui => "arith.minui",
        BinOp::Shli => "arith.shli",
        BinOp::Shrui => "arith.shrui",
        BinOp::Shrsi => "arith.shrsi",
    }
}

/// The word of a comparison.
pub(crate) fn predicate_word(predicate: Predicate) -> &'static str
    ensures { result.now ≡ words.predicate_word predicate }
{
    match predicate {
        Predicate::Eq => "eq",
        Predicate::Ne => "ne",
        Predicate::Slt => "slt",
        Predicate::Sle => "sle",
        Predicate::Sgt => "sgt",
        Predicate::Sge => "sge",
        Predicate::Ult => "ult",
        Predicate::Ule => "ule",
        Predicate::Ugt => "ugt",
        Predicate::Uge => "uge",
    }
}

/// The word of a cast.
pub(crate) fn cast_word(op: CastOp) -> &'static str
    ensures { result.now ≡ words.cast_word op }
{
    match op {
        CastOp::Extsi => "arith.extsi",
        CastOp::Extui => "arith.extui",
        CastOp::Trunci => "arith.trunci",
    }
}

/// The word of a kind of reduction.
pub(crate) fn kind_word(kind: Kind) -> &'static str
    ensures { result.now ≡ words.kind_word kind }
{
    match kind {
        Kind::Sum => "sum",
        Kind::Product => "product",
        Kind::Max => "max",
        Kind::Min => "min",
        Kind::And => "bitwise_and",
        Kind::Or => "bitwise_or",
        Kind::Xor => "bitwise_xor",
    }
}

/// What an iterator is called, in quotes.
pub(crate) fn iterator_word(iterator: IteratorType) -> &'static str
    ensures { result.now ≡ words.iterator_word iterator }
{
    match iterator {
        IteratorType::Parallel => "\"parallel\"",
        IteratorType::Reduction => "\"reduction\"",
        IteratorType::Unknown => "\"unknown\"",
    }
}
