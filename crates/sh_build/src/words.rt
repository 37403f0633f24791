ghost use Rattle.std.specs.Prelude.{◌≡◌, get_or};
ghost use Rattle.sh_build.specs.Meaning.{
  the_bin_ops,
  the_cast_ops,
  the_combiners,
  the_kinds,
  the_predicates,
  the_structured,
  the_widths,
};
ghost use Rattle.sh_base.specs.declared.numbers.Width.TheVariants as width;
ghost use Rattle.sh_build.specs.declared.parts.StructuredName.TheVariants as structuredname;
ghost use Rattle.sh_base.specs.declared.operations.BinOp.TheVariants as binop;
ghost use Rattle.sh_base.specs.declared.operations.Predicate.TheVariants as predicate;
ghost use Rattle.sh_base.specs.declared.operations.CastOp.TheVariants as castop;
ghost use Rattle.sh_base.specs.declared.operations.Kind.TheVariants as kind;

use crate::parts::StructuredName;
use sh_base::{BinOp, CastOp, Kind, Predicate, Width};

/// The word of a form's alternative.
fn word<T: Copy>(words: &[T], alternative: u16, default: T) -> T
    ensures { result ≡ get_or words.now alternative default }
{
    match words.get(usize::from(alternative)) {
        Some(word) => *word,
        None => default,
    }
}

pub(crate) fn width_word(alternative: u16) -> Width
    ensures { result ≡ get_or the_widths alternative width.I1 }
{
    let words = [Width::I1, Width::I8, Width::I16, Width::I32, Width::I64];
    word(&words, alternative, Width::I1)
}

pub(crate) fn structured_word(alternative: u16) -> StructuredName
    ensures { result ≡ get_or the_structured alternative structuredname.Fill }
{
    let words = [
        StructuredName::Fill,
        StructuredName::Matmul,
        StructuredName::BatchMatmul,
        StructuredName::Matvec,
        StructuredName::Vecmat,
        StructuredName::Dot,
        StructuredName::Conv1d,
        StructuredName::Conv2d,
    ];
    word(&words, alternative, StructuredName::Fill)
}

pub(crate) fn bin_op_word(alternative: u16) -> BinOp
    ensures { result ≡ get_or the_bin_ops alternative binop.Addi }
{
    let words = [
        BinOp::Addi,
        BinOp::Subi,
        BinOp::Muli,
        BinOp::Andi,
        BinOp::Ori,
        BinOp::Xori,
        BinOp::Maxsi,
        BinOp::Minsi,
        BinOp::Maxui,
        BinOp::Minui,
        BinOp::Divui,
        BinOp::Remui,
        BinOp::Divsi,
        BinOp::Remsi,
        BinOp::Shli,
        BinOp::Shrui,
        BinOp::Shrsi,
    ];
    word(&words, alternative, BinOp::Addi)
}

pub(crate) fn predicate_word(alternative: u16) -> Predicate
    ensures { result ≡ get_or the_predicates alternative predicate.Eq }
{
    let words = [
        Predicate::Eq,
        Predicate::Ne,
        Predicate::Slt,
        Predicate::Sle,
        Predicate::Sgt,
        Predicate::Sge,
        Predicate::Ult,
        Predicate::Ule,
        Predicate::Ugt,
        Predicate::Uge,
    ];
    word(&words, alternative, Predicate::Eq)
}

pub(crate) fn cast_op_word(alternative: u16) -> CastOp
    ensures { result ≡ get_or the_cast_ops alternative castop.Extsi }
{
    let words = [CastOp::Extsi, CastOp::Extui, CastOp::Trunci];
    word(&words, alternative, CastOp::Extsi)
}

pub(crate) fn combiner_word(alternative: u16) -> BinOp
    ensures { result ≡ get_or the_combiners alternative binop.Addi }
{
    let words = [
        BinOp::Addi,
        BinOp::Muli,
        BinOp::Maxsi,
        BinOp::Minsi,
        BinOp::Maxui,
        BinOp::Minui,
        BinOp::Andi,
        BinOp::Ori,
        BinOp::Xori,
    ];
    word(&words, alternative, BinOp::Addi)
}

pub(crate) fn kind_word(alternative: u16) -> Kind
    ensures { result ≡ get_or the_kinds alternative kind.Sum }
{
    let words = [
        Kind::Sum,
        Kind::Product,
        Kind::Max,
        Kind::Min,
        Kind::And,
        Kind::Or,
        Kind::Xor,
    ];
    word(&words, alternative, Kind::Sum)
}
